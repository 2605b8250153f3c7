//! Sessions that are written out: some that obey, so that the licences aren't empty, and for each licence
//! some that break it. Each law is a function with nothing to do, whose contract says it.

ghost use Rattle.std.specs.Prelude.{[], ◌∷◌, Some, None, true, false, codes};
ghost use Rattle.item_text.specs.Grammar.{written};
ghost use Rattle.law_licences.specs.Breaches.{Breaks, blob_at_once, blob_behind, change_behind_page, conflict_as_if_gone, conflict_of_new, conflict_with_base, conflict_with_needless_copy, conflict_without_copy, delete_blob, delete_for_nothing, drop_failed, drop_half, drop_undone, editor, finish_unlisted, go_at_once, go_unlisted, gone_outside, move_for_nothing, opens, put_after_failure, put_after_stop, put_in_next_session, put_of_another_text, put_of_unchanged, put_outside, put_over_another, put_over_nothing, put_twice, put_unchecked, put_unheard, puts_info, reader, save_inside, sealer, sets_info, put_after_check, take_at_once, take_unlisted, take_unread, upload_failed, upload_of_others, upload_unput, my_keys, opener, conflict_unopened, opens_to_another};
ghost use Rattle.law_licences.specs.Licences.{MergesInfo, ObeysData};
ghost use Rattle.law_licences.specs.Stories.{a_conflict, a_deletion, a_loss, a_page, a_resource, a_sealed_conflict, a_sealed_upload, an_opening, an_upload, edited, folder_editor, having, it, keys_for, mine, sealing_with, theirs};

/// A session can upload, delete, give way to another client's text, part with a folder, and read its page.
pub fn can_obey()
    ensures upload { ObeysData (having [] []) an_upload }
    ensures deletion { ObeysData (having [] (record { id = it; resource = true } ∷ [])) a_deletion }
    ensures conflict { ObeysData (editor (Some [])) a_conflict }
    ensures loss { ObeysData folder_editor a_loss }
    ensures page { ObeysData (having [] []) a_page }

    // With keys it can also upload what it seals, give way to what is sealed, and open what came sealed.
    ensures sealed_upload { ObeysData (sealing_with my_keys (edited it mine None ∷ []))
        a_sealed_upload }
    ensures sealed_conflict { ObeysData
        (sealing_with (keys_for theirs []) (edited it mine (Some []) ∷ [])) a_sealed_conflict }
    ensures opening { ObeysData opener an_opening }
{}

/// No item is put but by a check of its own session that shows it as the client left it; no upload is told that wasn't
/// done; and no resource's bytes are put but before a new one's item.
pub fn refuses_uploads()
    ensures unchecked { Breaks (editor None) put_unchecked }
    ensures another { Breaks (editor (Some [])) put_over_another }
    ensures new { Breaks (editor None) put_over_another }
    ensures nothing { Breaks (editor (Some [])) put_over_nothing }
    ensures failure { Breaks (editor None) put_after_failure }
    ensures unheard { Breaks (editor None) put_unheard }
    ensures session { Breaks (editor None) put_in_next_session }
    ensures stop { Breaks (editor None) put_after_stop }
    ensures twice { Breaks (editor None) put_twice }
    ensures text { Breaks (editor None) put_of_another_text }
    ensures sealed { Breaks sealer put_after_check }
    ensures unchanged { Breaks reader put_of_unchanged }
    ensures outside { Breaks (editor None) put_outside }
    ensures upload_failed { Breaks (editor None) upload_failed }
    ensures upload_unput { Breaks (editor None) upload_unput }
    ensures upload_others { Breaks (editor None) upload_of_others }
    ensures blob_behind { Breaks (having (edited it a_resource None ∷ []) []) blob_behind }
    ensures blob_synced { Breaks (having (edited it a_resource (Some []) ∷ []) []) blob_at_once }
    ensures blob_of_note { Breaks (editor None) blob_at_once }
{}

/// No row gives way but to another file than the client left, or to none that is gone; and its text becomes a conflict
/// note exactly if it would be lost.
pub fn refuses_conflicts()
    ensures copy { Breaks (editor (Some [])) conflict_without_copy }
    ensures needless { Breaks (editor (Some [])) conflict_with_needless_copy }
    ensures base { Breaks (editor (Some (written theirs))) conflict_with_base }
    ensures unchanged { Breaks reader conflict_with_base }
    ensures gone { Breaks (editor (Some [])) conflict_as_if_gone }
    ensures new { Breaks (editor None) conflict_of_new }
{}

/// Nothing is taken and nothing goes but by the page that was listed, and no change of the user's own is lost by it.
pub fn refuses_pages()
    ensures unlisted { Breaks (having [] []) take_unlisted }
    ensures unread { Breaks (having [] []) take_unread }
    ensures changed { Breaks (editor (Some [])) take_at_once }
    ensures go_unlisted { Breaks reader go_unlisted }
    ensures go_changed { Breaks (editor (Some [])) go_at_once }
    ensures moved { Breaks reader move_for_nothing }
    ensures finish { Breaks reader finish_unlisted }
    ensures behind { Breaks reader change_behind_page }
{}

/// No file is deleted that the user didn't remove, and no deletion is forgotten before it is done.
pub fn refuses_deletions()
    ensures nothing { Breaks reader delete_for_nothing }
    ensures blob { Breaks (having [] (record { id = it; resource = false } ∷ [])) delete_blob }
    ensures undone { Breaks (having [] (record { id = it; resource = false } ∷ [])) drop_undone }
    ensures failed { Breaks (having [] (record { id = it; resource = false } ∷ [])) drop_failed }
    ensures half { Breaks (having [] (record { id = it; resource = true } ∷ [])) drop_half }
{}

/// No info is put or kept but a merge with the one that was read, nothing is opened without a key, and the user's
/// changes stand in no session and a session's in one.
pub fn refuses_others()
    ensures puts_info { MergesInfo reader puts_info → ⊥ }
    ensures sets_info { Breaks reader sets_info }
    ensures opens { Breaks reader opens }
    ensures inside { Breaks reader save_inside }
    ensures outside { Breaks reader gone_outside }
{}

/// A session with keys puts no item in clear where files are to be sealed, holds nothing sealed that its keys open, and
/// opens a row to what its keys give alone.
pub fn refuses_without_its_keys()
    ensures unsealed { Breaks (sealing_with my_keys (edited it mine None ∷ [])) put_after_check }
    ensures unopened { Breaks (sealing_with my_keys (edited it mine (Some []) ∷ []))
        conflict_unopened }
    ensures opened { Breaks opener opens_to_another }
{}
