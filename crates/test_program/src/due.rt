use crate::machine::Client;
use jop_target::MemTarget;
use keeper::Keeper;
use std::alloc::{AllocError, Global};

/// A command, and what is to become of it: its words, its input, its exit status, and what it writes,
/// in which `~` stands for a line feed.
#[derive(Clone, Copy)]
pub(crate) struct Due<'a> {
    pub words: &'a str,
    pub input: &'a str,
    exit: &'a str,
    text: &'a str,
}

/// What stands before the first `|`, and what stands behind it.
pub(crate) fn cut(line: &str) -> (&str, &str) {
    line.split_once('|').unwrap_or((line, ""))
}

/// A line that says so, with `|` between each two.
pub(crate) fn read_due(line: &str) -> Due<'_> {
    let (words, rest) = cut(line);
    let (input, rest) = cut(rest);
    let (exit, text) = cut(rest);
    Due {
        words,
        input,
        exit,
        text,
    }
}

/// Whether this was written, with `~` for each line feed.
fn is_text(written: &[u8], due: &str) -> bool {
    written.len() == due.len()
        && written.iter().zip(due.as_bytes()).all(|(byte, other)| byte == other
            || (*byte == b'\n' && *other == b'~'))
}

impl Due<'_> {
    /// Whether it ended so, and wrote that: on standard output if it went well, or else on standard
    /// error, and nothing on the other.
    pub(crate) fn is_met(&self, exit: u8, out: &[u8], err: &[u8]) -> bool {
        let (written, other) = if exit == 0 { (out, err) } else { (err, out) };
        self.exit.parse() == Ok(exit) && is_text(written, self.text) && other.is_empty()
    }
}

/// Whether a client's last command ended so, and wrote that.
pub(crate) fn has_come_out<K: Keeper>(client: &Client<K>, exit: u8, due: &Due) -> bool {
    due.is_met(exit, client.out.written(), client.err.written())
}

/// Plays the command that a line says, on this target: whether it came out as it is to.
pub(crate) fn comes_out<K: Keeper>(
    client: &mut Client<K>,
    alloc: Global,
    target: &mut MemTarget,
    line: &str,
) -> Result<bool, AllocError> {
    let due = read_due(line);
    let exit = client.play_on(alloc, target, due.words, due.input.as_bytes())?;
    Ok(has_come_out(client, exit, &due))
}
