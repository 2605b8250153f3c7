use jop_base::Id;

/// Why a session is refused under its lease, though nothing has failed: what it has read of its target, or what waits
/// in its client's tables, doesn't let it go on. It gives its lease up then.
#[derive(Clone, Copy, Debug, PartialEq, Eq)]
pub enum Refusal {
    /// The target has this version, which is older than the supported one.
    TargetOlder(u64),
    /// The target has this version, which is newer than the supported one.
    TargetNewer(u64),
    /// `info.json` of the target is too large, or is no info.
    BadInfo,
    /// The target shows no item, and the client has a base of so many.
    FailSafe(u64),
    /// Items are to be sealed with this key, which the client doesn't have; none if the info names none.
    NoKey(Option<Id>),
}
