//! Whose a file is.

use crate::copy::{Look, look_at};
use crate::first_page::{PAGE_LEN, lists_tables};
use crate::held_file::HeldFile;
use crate::layout::Layout;
use crate::mark::{Mark, mark_of};
use crate::trouble::Trouble;
use std::alloc::Global;

/// A log that is shorter than its header and a frame with the smallest page holds nothing that the file doesn't.
const LEAST_LOG: usize = 32 + 24 + 512;

/// Whether the first page of a file says that it is this program's and holds the tables alone, and its log holds
/// nothing.
fn is_own(alloc: Global, file: &HeldFile, log: &[u8]) -> Result<bool, Trouble> {
    if file.len()? < PAGE_LEN as u64 || log.len() >= LEAST_LOG {
        return Ok(false);
    }
    let page = file.first_page(alloc)?;
    Ok(mark_of(&page) == Mark::Own && lists_tables(&page))
}

/// Looks at a file, or rather at a copy of it, and refuses that of another program, or of a later layout. The tables
/// of this program are marked, if their log is empty. Answers whether they are there.
fn take(alloc: Global, file: &mut HeldFile, log: Vec<u8>) -> Result<bool, Trouble> {
    let is_settled = log.len() < LEAST_LOG;
    let Look { layout, mark } = look_at(alloc, file.bytes(alloc)?, log)?;
    if mark == Mark::Foreign || layout == Layout::Foreign {
        return Err(Trouble::Fault);
    }
    if layout == Layout::Tables && mark == Mark::Unmarked && is_settled {
        file.mark()?;
    }
    Ok(layout == Layout::Tables)
}

/// Whether the tables stand in the file of this path; false where nothing stands in it. `Fault` if it is another
/// program's, or of a later layout, or no file of one name: then nothing is written, and no log is made. `Busy` if
/// another run or program has it open. Tables that bear no mark yet are marked.
pub fn holds_tables(rt: &HostRuntime, alloc: Global, path: &str) -> Result<bool, Trouble> {
    let mut file = HeldFile::open(rt, path)?;
    let log = file.log(rt)?;
    if is_own(alloc, &file, log.as_slice())? {
        return Ok(true);
    }
    take(alloc, &mut file, log)
}
