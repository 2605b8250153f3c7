use item_text::{Item, is_item, write_item};
use jop_base::Bytes;
use jop_target::{Content, File, Tree};
use local_store::{Row, Tables};
use std::alloc::Global;
use std::test::Fail;

/// What a client has and what a target holds, as one text: the rows with their bases, the conflict
/// notes, what is still to be deleted, and the files but for locks and temporary ones, without
/// their times.
pub(crate) fn standing(alloc: Global, tables: &Tables, tree: &Tree) -> Result<Bytes, Fail> {
    let mut text = Bytes::new(alloc);
    tell_tables(alloc, &mut text, tables)?;
    tell_tree(alloc, &mut text, tree)?;
    Ok(text)
}

fn tell_tables(alloc: Global, text: &mut Bytes, tables: &Tables) -> Result<(), Fail> {
    for row in tables.rows.as_slice() {
        tell_row(alloc, text, row)?;
    }
    for copy in tables.conflicts.as_slice() {
        tell_item(alloc, text, b"\nconflict note: ", &copy.item)?;
    }
    for deletion in tables.deletions.as_slice() {
        text.append(deletion.id.as_str().as_bytes())?;
    }
    Ok(())
}

fn tell_row(alloc: Global, text: &mut Bytes, row: &Row) -> Result<(), Fail> {
    tell_item(alloc, text, b"\nrow: ", row.content.item())?;
    text.push(u8::from(row.pending))?;
    if let Some(base) = &row.base {
        text.append(base.as_slice())?;
    }
    Ok(())
}

fn tell_item(alloc: Global, text: &mut Bytes, what: &[u8], item: &Item) -> Result<(), Fail> {
    if !is_item(item) {
        return Err(Fail::new("an item"));
    }
    text.append(what)?;
    text.append(write_item(alloc, item)?.as_slice())?;
    Ok(())
}

fn tell_tree(alloc: Global, text: &mut Bytes, tree: &Tree) -> Result<(), Fail> {
    for dir in tree.folders.as_slice() {
        text.append(dir.prefix().as_bytes())?;
    }
    for file in tree.files.as_slice() {
        if file.path.is_guarded() {
            tell_file(alloc, text, file)?;
        }
    }
    Ok(())
}

fn tell_file(alloc: Global, text: &mut Bytes, file: &File) -> Result<(), Fail> {
    text.append(file.path.text(alloc)?.as_slice())?;
    match &file.content {
        Content::Whole(bytes) => text.append(bytes.as_slice())?,
        Content::Sized(len) => text.push((*len % 256) as u8)?,
    }
    Ok(())
}
