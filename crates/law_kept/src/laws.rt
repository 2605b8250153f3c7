//! Which notes are kept. Each law is a function with nothing to do, whose contract says it.

ghost use Rattle.std.specs.Prelude.{ℕ, List, Option};
ghost use Rattle.item_text.specs.declared.item.Item.{Item};
ghost use Rattle.local_store.specs.Tale.{Tale};
ghost use Rattle.law_kept.specs.Acts.{FileHistory};
ghost use Rattle.law_kept.specs.Fair.{IsFair};
ghost use Rattle.law_kept.specs.Fates.{CopyStands, IsKept, IsLost};
ghost use Rattle.law_kept.specs.Standing.{world_end};
ghost use Rattle.law_kept.specs.Stories.{first_client, second_client, a_lettered_note, a_notebook, read_as_note, read_as_notebook};
ghost use Rattle.law_kept.specs.Stories.{a_changed_notebook, a_copied_conflict, a_lost_answer};
ghost use Rattle.law_kept.specs.Telling.{IsFairFor, IsTreesFile, history_of};
ghost use Rattle.law_licences.specs.Stories.{it};
ghost use Rattle.law_kept.specs.ToldStories.{second_text, a_told_conflict};

/// If the store tells the truth, each client does what it may, and no other client's put lands
/// between a check and the put that follows it, then no note that a client saved is lost: it is
/// current, or a conflict note, or a client that had seen it replaced it, or a recorded deletion
/// removed it. A note that gave way to a file with its own title and body counts through that.
pub fn notes_are_kept()
    ensures { (reads : List ℕ → Option Item) (h : FileHistory) → IsFair reads h → IsKept h }
{}

/// The same over all that happens at a target, told with the changes of all clients' tables, where
/// each client is judged by its own calls and changes of the item alone.
pub fn notes_are_kept_on_a_target()
    ensures kept { (id : List ℕ) (tale : Tale) → IsFairFor id tale → IsKept (history_of id tale) }

    // The file of which this speaks is the one in the target's tree, at each place.
    ensures stored { (id : List ℕ) (tale : Tale) → IsFairFor id tale → IsTreesFile id tale }
{}

/// Two clients may change one note at once, and a client may find the file that it put without
/// hearing so: the law isn't empty. Of two changes at once, the one that comes second is a conflict
/// note in the end.
pub fn clients_can_cross()
    ensures conflict { IsFair read_as_note a_copied_conflict }
    ensures copied { CopyStands (world_end a_copied_conflict) first_client (a_lettered_note 3) }
    ensures lost_answer { IsFair read_as_note a_lost_answer }
{}

/// A history of a target meets those premises in which two clients change one note, and the second
/// one's text is a conflict note in the end.
pub fn clients_can_cross_on_a_target()
    ensures fair { IsFairFor it a_told_conflict }
    ensures copied { CopyStands (world_end (history_of it a_told_conflict)) second_client second_text }
{}

/// Items that aren't notes aren't kept: a change of a notebook gives way to another client's.
pub fn notebooks_are_not_kept()
    ensures fair { IsFair read_as_notebook a_changed_notebook }
    ensures lost { IsLost a_changed_notebook (a_notebook 2) }
{}
