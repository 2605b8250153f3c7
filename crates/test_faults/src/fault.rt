/// What may fail of a command.
#[derive(Clone, Copy)]
pub(crate) enum FaultKind {
    /// A call on the target that doesn't land.
    Lost,
    /// A call on the target that lands.
    Landed,
    /// A call of the client's tables.
    Kept,
    /// A read or a write of the link, over which the command goes then.
    Passed,
}

impl FaultKind {
    pub(crate) const ALL: [FaultKind; 4] = [
        FaultKind::Lost,
        FaultKind::Landed,
        FaultKind::Kept,
        FaultKind::Passed,
    ];
}

/// What fails once: of its kind the one of a number, which is counted from 1 at the first of the
/// command.
#[derive(Clone, Copy)]
pub(crate) struct Fault {
    pub kind: FaultKind,
    pub nth: u64,
}

/// How many of each kind break a command off.
#[derive(Clone, Copy)]
pub(crate) struct Breaking {
    pub lost: u64,
    pub landed: u64,
    pub kept: u64,
    pub passed: u64,
}

impl Breaking {
    pub(crate) fn of(&self, kind: FaultKind) -> u64 {
        match kind {
            FaultKind::Lost => self.lost,
            FaultKind::Landed => self.landed,
            FaultKind::Kept => self.kept,
            FaultKind::Passed => self.passed,
        }
    }
}
