use anyhow::Context;
use dav_server::serve_connection;
use dav_tcp::StreamLink;
use jop_base::{Bytes, LockName, Path};
use jop_target::{Diary, MemTarget, TargetLine};
use std::alloc::Global;
use std::net::{TcpListener, TcpStream};

/// The exclusive lock of another client.
const LOCK: &[u8] = b"2_3_22222222222222222222222222222222.json";

/// Puts the lock of another client, written at the moment 0.
pub fn hold_lock(alloc: Global, target: &mut MemTarget) -> anyhow::Result<()> {
    let name = LockName::read(LOCK).context("no name of a lock")?;
    target.place(Path::Lock(name), Bytes::new(alloc), 0)?;
    Ok(())
}

/// Serves each connection to its end. What can't be accepted or served is passed over.
pub fn serve(alloc: Global, listener: &TcpListener, target: &mut MemTarget) {
    for stream in listener.incoming() {
        if let Ok(stream) = stream {
            serve_stream(alloc, stream, target);
        }
    }
}

fn serve_stream(alloc: Global, stream: TcpStream, target: &mut MemTarget) {
    let Some(mut link) = StreamLink::new(stream) else {
        return;
    };
    let mut diary = Diary::new(alloc);
    let mut line = TargetLine {
        target,
        diary: &mut diary,
    };
    let _ = serve_connection(alloc, &mut link, &mut line);
}
