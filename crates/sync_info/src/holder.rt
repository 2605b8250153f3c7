ghost use Rattle.std.specs.Prelude.{◌≡◌};
ghost use Rattle.sync_info.specs.Info.{is_own_member};

/// What has members of its own and keeps others.
#[derive(Clone, Copy)]
pub(crate) enum Holder {
    Info,
    KeyRecord,
}

impl Holder {
    /// Whether the member of this name is its own.
    pub(crate) fn is_own(self, name: &str) -> bool
        ensures { result ≡ is_own_member self name.now }
    {
        match self {
            Holder::Info => is_info_name(name),
            Holder::KeyRecord => is_record_name(name),
        }
    }
}

fn is_info_name(name: &str) -> bool
    ensures { result ≡ is_own_member Holder.Info name.now }
{
    name == "activeMasterKeyId" || name == "e2ee" || name == "masterKeys" || name == "version"
}

fn is_record_name(name: &str) -> bool
    ensures { result ≡ is_own_member Holder.KeyRecord name.now }
{
    name == "content" || name == "id" || name == "updated_time"
}
