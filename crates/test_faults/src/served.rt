use dav_server::LoopLink;
use jop_base::{Bytes, Path, Text};
use jop_target::{Call, MemTarget, Target, Tree};
use std::alloc::{AllocError, Global};
use target_dav::DavTarget;

/// A target in memory, behind a link to its server. What others do, they do at the target itself.
pub(crate) type Served = DavTarget<LoopLink>;

/// An empty one.
pub(crate) fn served(alloc: Global) -> Result<Served, AllocError> {
    let host = Text::of(alloc, "localhost:80")?;
    let link = LoopLink::new(alloc, MemTarget::new(alloc, 1_000, 1));
    Ok(DavTarget::new(link, host))
}

/// Others write a file, later than all that a client does.
pub(crate) fn hold(
    alloc: Global,
    target: &mut Served,
    path: Path,
    text: &str,
) -> Result<(), AllocError> {
    let mut bytes = Bytes::new(alloc);
    bytes.append(text.as_bytes())?;
    target.link.target.place(path, bytes, 2_000)
}

/// Others delete a file, by a call.
pub(crate) fn lose(alloc: Global, target: &mut Served, path: Path) -> Result<(), AllocError> {
    let mut blob = Bytes::new(alloc);
    target
        .link
        .target
        .call(alloc, &Call::Delete(path), &mut blob)?;
    Ok(())
}

/// The call of this number, counted from the first of all, is to fail.
pub(crate) fn fail_call(target: &mut Served, nth: u64, landed: bool) -> Result<(), AllocError> {
    target.link.target.fail(nth, landed)
}

/// Its files and folders.
pub(crate) fn tree(target: &Served) -> &Tree {
    target.link.target.tree()
}
