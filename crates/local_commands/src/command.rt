//! The commands: a variant for each, its room, and what it needs, asks of the tables and makes.

pub(crate) mod add;
pub(crate) mod amend;
pub(crate) mod attach;
pub(crate) mod cat;
pub(crate) mod clear;
pub(crate) mod conflicts;
pub(crate) mod edit;
pub(crate) mod listing;
pub(crate) mod mkbook;
pub(crate) mod rm;
pub(crate) mod show;
pub(crate) mod tag;
pub(crate) mod untag;

ghost use Rattle.std.specs.Prelude.{◌≡◌};
ghost use Rattle.local_commands.specs.Commands.{IsWellFormed, plan_of};
ghost use Rattle.local_commands.specs.Stages.{ChecksOr, IsReadyFor, MakesWork, needs_of};

use crate::books::check_book;
use crate::command::listing::Listing;
use crate::local_err::LocalErr;
use crate::needs::{NOTHING, Needs};
use crate::supply::Supply;
use crate::typed_id::{TypedId, find_if, found_if};
use crate::work::Work;
use jop_base::Text;
use local_changes::Amendment;
use local_store::Tables;
use std::alloc::Global;

/// A command on this machine's own tables.
#[derive(Debug, Drop)]
pub enum LocalCommand {
    /// Makes a note in a notebook; its body is the input.
    Add {
        book: TypedId,
        title: Text,
    },
    /// Makes a resource of this name and type of content; its bytes are the input.
    Attach {
        name: Text,
        mime: Text,
    },
    /// Prints the text of an item.
    Cat {
        id: TypedId,
    },
    /// Takes out the conflict notes of this number.
    Clear {
        number: u64,
    },
    /// Lists the conflict notes.
    Conflicts,
    /// Gives a note another title, if one is given, and the input as its body.
    Edit {
        id: TypedId,
        title: Option<Text>,
    },
    /// Lists the notes whose title or text has this.
    Find {
        part: Text,
    },
    /// Lists the notebooks, or the notes of one.
    Ls {
        book: Option<TypedId>,
    },
    /// Makes a notebook, at the top or in a parent.
    Mkbook {
        title: Text,
        parent: Option<TypedId>,
    },
    /// Puts a note or a notebook into a notebook.
    Move {
        id: TypedId,
        book: TypedId,
    },
    /// Gives a note or a notebook another title.
    Rename {
        id: TypedId,
        title: Text,
    },
    /// Lists the resources.
    Resources,
    /// Removes an item.
    Rm {
        id: TypedId,
    },
    /// Prints the text of the conflict note of this number.
    Show {
        number: u64,
    },
    /// Gives a note the tag of a title.
    Tag {
        note: TypedId,
        title: Text,
    },
    /// Lists the notes that bear a tag.
    Tagged {
        tag: TypedId,
    },
    /// Lists the tags.
    Tags,
    /// Lists the notes and notebooks in Joplin's wastebasket.
    Trash,
    /// Takes a tag off a note.
    Untag {
        note: TypedId,
        tag: TypedId,
    },
}

impl LocalCommand {
    /// What it needs beside the tables.
    pub(crate) fn needs(&self) -> Needs
        ensures { result ≡ needs_of (plan_of self.now) }
    {
        match self {
            LocalCommand::Add { .. } => add::NEEDS,
            LocalCommand::Attach { .. } => attach::NEEDS,
            LocalCommand::Cat { .. } => NOTHING,
            LocalCommand::Clear { .. } => NOTHING,
            LocalCommand::Conflicts => NOTHING,
            LocalCommand::Edit { .. } => edit::NEEDS,
            LocalCommand::Find { .. } => NOTHING,
            LocalCommand::Ls { .. } => NOTHING,
            LocalCommand::Mkbook { .. } => mkbook::NEEDS,
            LocalCommand::Move { .. } => amend::NEEDS,
            LocalCommand::Rename { .. } => amend::NEEDS,
            LocalCommand::Resources => NOTHING,
            LocalCommand::Rm { .. } => NOTHING,
            LocalCommand::Show { .. } => NOTHING,
            LocalCommand::Tag { .. } => tag::NEEDS,
            LocalCommand::Tagged { .. } => NOTHING,
            LocalCommand::Tags => NOTHING,
            LocalCommand::Trash => NOTHING,
            LocalCommand::Untag { .. } => NOTHING,
        }
    }

    /// Refuses it where the tables don't allow it.
    pub(crate) fn check(&self, tables: &Tables) -> Result<(), LocalErr>
        ensures { ChecksOr ((plan_of self.now).Checks tables.now) result }
    {
        match self {
            LocalCommand::Add { book, .. } => check_book(tables, &Some(book.find(tables)?)),
            LocalCommand::Attach { .. } => Ok(()),
            LocalCommand::Cat { id } => cat::check_item(tables, &id.find(tables)?),
            LocalCommand::Clear { number } => clear::check_number(tables, *number),
            LocalCommand::Conflicts => Ok(()),
            LocalCommand::Edit { id, .. } => edit::check_note(tables, &id.find(tables)?),
            LocalCommand::Find { .. } => Ok(()),
            LocalCommand::Ls { book: None } => Ok(()),
            LocalCommand::Ls { book: Some(book) } => {
                check_book(tables, &Some(book.find(tables)?))
            }
            LocalCommand::Mkbook { parent, .. } => check_book(tables, &find_if(parent, tables)?),
            LocalCommand::Move { id, book } => {
                amend::check_move(tables, &id.find(tables)?, &book.find(tables)?)
            }
            LocalCommand::Rename { id, .. } => amend::check_entry(tables, &id.find(tables)?),
            LocalCommand::Resources => Ok(()),
            LocalCommand::Rm { id } => rm::check_removal(tables, &id.find(tables)?),
            LocalCommand::Show { number } => clear::check_number(tables, *number),
            LocalCommand::Tag { note, .. } => tag::check_note(tables, &note.find(tables)?),
            LocalCommand::Tagged { tag } => listing::check_tag(tables, &tag.find(tables)?),
            LocalCommand::Tags => Ok(()),
            LocalCommand::Trash => Ok(()),
            LocalCommand::Untag { note, tag } => {
                untag::check_untag(tables, &note.find(tables)?, &tag.find(tables)?)
            }
        }
    }

    /// Makes what it is to do, and what it prints then, of the tables that allow it and of what it
    /// needs beside them.
    pub(crate) fn make(
        self,
        alloc: Global,
        tables: &Tables,
        supply: Supply,
    ) -> Result<Work, LocalErr>
        requires formed { IsWellFormed self }
        requires ready { IsReadyFor (plan_of self) tables.now supply }
        ensures { MakesWork (plan_of self) tables.now supply result }
    {
        match self {
            LocalCommand::Add { book, title } => {
                add::make_note(alloc, tables, book.found(tables), title, supply)
            }
            LocalCommand::Attach { name, mime } => {
                attach::make_resource(alloc, name, mime, supply)
            }
            LocalCommand::Cat { id } => cat::make_text(alloc, tables, &id.found(tables)),
            LocalCommand::Clear { number } => clear::make_clear(alloc, number),
            LocalCommand::Conflicts => conflicts::make_list(alloc, tables),
            LocalCommand::Edit { id, title } => {
                edit::make_edit(alloc, tables, id.found(tables), title, supply)
            }
            LocalCommand::Find { part } => {
                listing::make_list(alloc, tables, Listing::Found(part))
            }
            LocalCommand::Ls { book } => {
                listing::make_list(alloc, tables, listing::listed_by(found_if(&book, tables)))
            }
            LocalCommand::Mkbook { title, parent } => {
                mkbook::make_book(alloc, tables, title, found_if(&parent, tables), supply)
            }
            LocalCommand::Move { id, book } => {
                let id = id.found(tables);
                let book = Amendment::Book(book.found(tables));
                amend::make_amend(alloc, tables, id, book, supply.now)
            }
            LocalCommand::Rename { id, title } => {
                let title = Amendment::Title(title);
                amend::make_amend(alloc, tables, id.found(tables), title, supply.now)
            }
            LocalCommand::Resources => listing::make_list(alloc, tables, Listing::Resources),
            LocalCommand::Rm { id } => rm::make_removal(alloc, tables, id.found(tables)),
            LocalCommand::Show { number } => show::make_text(alloc, tables, number),
            LocalCommand::Tag { note, title } => {
                tag::make_tag(alloc, tables, note.found(tables), title, supply)
            }
            LocalCommand::Tagged { tag } => {
                listing::make_list(alloc, tables, Listing::NotesWith(tag.found(tables)))
            }
            LocalCommand::Tags => listing::make_list(alloc, tables, Listing::Tags),
            LocalCommand::Trash => listing::make_list(alloc, tables, Listing::Trash),
            LocalCommand::Untag { note, tag } => {
                untag::make_untag(alloc, tables, note.found(tables), tag.found(tables))
            }
        }
    }
}
