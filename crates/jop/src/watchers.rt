use dav_tcp::SteadyClock;
use jop_host::WriterSink;
use jop_watch::{CallLog, Gauge, Pair};
use std::env;
use std::fs::File;
use std::io::{IsTerminal, Stderr};

/// The variable that names the file of the diary.
const DIARY: &str = "JOP_DIARY";

/// Those who watch the run: a line on standard error, if that is a terminal, and a diary, if one is asked for.
pub fn watchers(
    rt: &HostRuntime,
) -> Pair<Option<Gauge<SteadyClock, WriterSink<Stderr>>>, Option<CallLog<WriterSink<File>>>> {
    Pair {
        first: gauge(rt),
        second: diary(rt),
    }
}

fn gauge(rt: &HostRuntime) -> Option<Gauge<SteadyClock, WriterSink<Stderr>>> {
    let terminal = rt.stderr();
    if !terminal.is_terminal() {
        return None;
    }
    Some(Gauge::new(SteadyClock::new(*rt), WriterSink::new(terminal)))
}

/// The file is made anew. Where it can't be, that is said, and the run goes on.
fn diary(rt: &HostRuntime) -> Option<CallLog<WriterSink<File>>> {
    let name = env::var(rt, DIARY).ok().filter(|name| !name.is_empty())?;
    match File::create(rt, name.as_str()) {
        Ok(file) => Some(CallLog::new(WriterSink::new(file))),
        Err(error) => {
            let _ = eprintln!(rt; "no diary in {name}: {error}");
            None
        }
    }
}
