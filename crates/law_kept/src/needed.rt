//! No premise of the law can be left out: for each there is a short history that meets the others,
//! and in which a note is lost. Where a client does what it may not, that is one step, and the
//! licences refuse it alone. Each law is a function with nothing to do.

ghost use Rattle.std.specs.Prelude.{ℕ};
ghost use Rattle.law_kept.specs.Refusals.{IsLostByGap, IsLostByLie, IsLostByRefused};
ghost use Rattle.law_kept.specs.Stories.{a_gap, a_lie, a_lettered_note, a_save_within, a_stale_put};
ghost use Rattle.law_kept.specs.Stories.{a_take_over_a_change, an_old_check, an_unasked_delete};
ghost use Rattle.law_kept.specs.Stories.{an_uncopied_conflict, an_uncopied_loss, an_unheard_upload};
ghost use Rattle.law_kept.specs.Stories.{read_as_note};

/// A put over a file that its client hasn't seen.
pub fn needs_puts_on_their_base()
    ensures { IsLostByRefused read_as_note a_stale_put 17 (a_lettered_note 3) }
{}

/// A change that gives way to another text, and isn't copied.
pub fn needs_a_copy()
    ensures { IsLostByRefused read_as_note an_uncopied_conflict 18 (a_lettered_note 3) }
{}

/// A change that goes with its file, and isn't copied.
pub fn needs_a_copy_of_what_goes()
    ensures { IsLostByRefused read_as_note an_uncopied_loss 16 (a_lettered_note 2) }
{}

/// A file that is taken in place of a change.
pub fn needs_changes_to_be_left()
    ensures { IsLostByRefused read_as_note a_take_over_a_change 3 (a_lettered_note 2) }
{}

/// A put after a check of an earlier session.
pub fn needs_a_check_of_the_session()
    ensures { IsLostByRefused read_as_note an_old_check 19 (a_lettered_note 2) }
{}

/// A put that is noted as done, though the client never heard so.
pub fn needs_uploads_to_be_heard()
    ensures { IsLostByRefused read_as_note an_unheard_upload 4 (a_lettered_note 1) }
{}

/// A note that is saved within a session.
pub fn needs_saves_outside_sessions()
    ensures { IsLostByRefused read_as_note a_save_within 4 (a_lettered_note 2) }
{}

/// A delete that no deletion asks for.
pub fn needs_deletes_to_be_recorded()
    ensures { IsLostByRefused read_as_note an_unasked_delete 7 (a_lettered_note 1) }
{}

/// Another client's put that lands between a check and the put that follows it.
pub fn needs_no_upload_between()
    ensures { IsLostByGap read_as_note a_gap (a_lettered_note 1) }
{}

/// A store that shows what it held before.
pub fn needs_an_honest_store()
    ensures { IsLostByLie read_as_note a_lie (a_lettered_note 3) }
{}
