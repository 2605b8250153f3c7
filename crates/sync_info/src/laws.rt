//! Laws of the merge and of the text, each the clause of a function that does nothing. A caller calls it for its fact.
ghost use Rattle.std.specs.Prelude.{◌≡◌, ◌++◌, ℕ, List, Some, codes};
ghost use Rattle.std.specs.Str.{IsUtf8};
ghost use Rattle.sync_info.specs.Info.{IsInfo, new_info};
ghost use Rattle.sync_info.specs.Json.{info_text};
ghost use Rattle.sync_info.specs.Merge.{merged};
ghost use Rattle.sync_info.specs.Read.{info_in};
ghost use Rattle.sync_info.specs.declared.info.Info.{Info};

/// What is merged again with one of its parts stays as it is.
pub fn merges_once()
    ensures local { (local remote : Info) → IsInfo local
        → merged local (merged local remote) ≡ merged local remote }
    ensures remote { (local remote : Info) → IsInfo remote
        → merged (merged local remote) remote ≡ merged local remote }
    ensures itself { (info : Info) → IsInfo info → merged info info ≡ info }
{}

/// A merge of valid infos is valid.
pub fn merges_valid()
    ensures { (local remote : Info) → IsInfo local → IsInfo remote → IsInfo (merged local remote) }
{}

/// What a text holds is valid.
pub fn what_is_read_is_valid()
    ensures { (text : List ℕ) (info : Info) → info_in text ≡ Some info → IsInfo info }
{}

/// The text of a valid info holds that info, if it is UTF-8.
pub fn reads_what_is_written()
    ensures { (info : Info) → IsInfo info → IsUtf8 (info_text info)
        → info_in (info_text info) ≡ Some info }
{}

/// The text of a target's info at version 3 that holds nothing yet.
pub fn new_text()
    ensures { info_text (new_info 3)
        ≡ codes "{\"activeMasterKeyId\":{\"updatedTime\":0,\"value\":\"\"},"
        ++ codes "\"e2ee\":{\"updatedTime\":0,\"value\":false},"
        ++ codes "\"masterKeys\":[],\"version\":3}" }
{}
