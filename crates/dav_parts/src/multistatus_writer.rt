ghost use Rattle.std.specs.Prelude.{◌≡◌, ◌≤◌, ◌/◌, ◌++◌, ℕ, List, All, IfOk, OnOk};
ghost use Rattle.httpdate.specs.Date.{unix_secs, date_text};
ghost use Rattle.httpdate.specs.declared.date.HttpDate.{HttpDate as Date};
ghost use Rattle.jop_base.specs.Paths.{file_name};
ghost use Rattle.jop_base.specs.declared.time.TheConstants.{MAX_TIME};
ghost use Rattle.dav_parts.specs.Multistatus.{folder_lines, with_name, with_date, with_line, IsMultistatus};

use crate::date::date_of;
use crate::layout::{date_open, ending, entry_close, folder_close, heading, href_open};
use crate::target::dir_target;
use httpdate::HttpDate;
use jop_base::{Bytes, Dir};
use jop_target::Entry;
use std::alloc::{AllocError, Global};

/// Writes the first half of a file's line at the end of a text.
fn append_name(text: &mut Bytes, dir: Dir, name: &[u8]) -> Result<(), AllocError>
    ensures { OnOk result
        ((rest : List ℕ) → text.new ++ rest ≡ text.old ++ with_name dir name.now rest) }
{
    text.append(href_open())?;
    text.append(dir_target(dir))?;
    text.append(name)?;
    Ok(())
}

/// Writes the second half of a file's line at the end of a text.
fn append_date(text: &mut Bytes, date: HttpDate) -> Result<(), AllocError>
    ensures { OnOk result
        ((rest : List ℕ) → text.new ++ rest ≡ text.old ++ with_date (date_text date) rest) }
{
    text.append(date_open())?;
    text.append(&date.to_bytes())?;
    text.append(entry_close())?;
    Ok(())
}

/// Writes the line of a file at the end of a text.
fn append_line(alloc: Global, text: &mut Bytes, dir: Dir, entry: &Entry) -> Result<(), AllocError>
    requires { entry.now.stamp ≤ MAX_TIME }
    ensures { OnOk result ((date : Date) × (unix_secs date ≡ entry.now.stamp / 1_000)
        × ((rest : List ℕ) → text.new ++ rest
        ≡ text.old ++ with_line dir (file_name entry.now.path) (date_text date) rest)) }
{
    let date = date_of(entry.stamp);
    append_name(text, dir, entry.path.file_name(alloc)?.as_slice())?;
    append_date(text, date)?;
    Ok(())
}

/// The lines of the folder itself.
fn folder_lines(alloc: Global, dir: Dir) -> Result<Bytes, AllocError>
    ensures { IfOk result (λ text. (rest : List ℕ) → text ++ rest ≡ folder_lines dir rest) }
{
    let mut text = Bytes::new(alloc);
    text.append(heading())?;
    text.append(href_open())?;
    text.append(dir_target(dir))?;
    text.append(folder_close())?;
    Ok(text)
}

/// The body that lists these files of a folder, their stamps rounded down to seconds.
pub fn write_multistatus(alloc: Global, dir: Dir, entries: &[Entry]) -> Result<Bytes, AllocError>
    requires { All (λ e. e.stamp ≤ MAX_TIME) entries.now }
    ensures { IfOk result (IsMultistatus dir entries.now) }
{
    let mut text = folder_lines(alloc, dir)?;
    for entry in entries {
        append_line(alloc, &mut text, dir, entry)?;
    }
    text.append(ending())?;
    Ok(text)
}
