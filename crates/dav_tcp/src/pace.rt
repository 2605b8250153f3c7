ghost use Rattle.std.specs.Prelude.{◌≡◌, ◌+◌, ◌≤◌, ℕ, false};
ghost use Rattle.dav_tcp.specs.Limits.{allowed_seconds, further_by, is_time_up, longest_wait, next_pace};

/// How many seconds a request and its response may take, before any byte of them.
const SECONDS: u64 = 30;

/// How many bytes give a second more.
const BYTES_A_SECOND: u64 = 16_384;

/// How many seconds they may take at most, however many bytes they have.
const MOST_SECONDS: u64 = 85;

/// How many milliseconds after the beginning of the request that was answered last a wait may begin.
const HEARD_MILLIS: u64 = 95_000;

/// A request and its response on their way: since when, in milliseconds of a clock, and how many
/// bytes of them so far.
#[derive(Clone, Copy, Debug)]
pub(crate) struct Pace {
    /// When the request began.
    began: u64,
    /// When the request began that was answered last before it: itself if none was.
    heard: u64,
    bytes: u64,
}

impl Pace {
    /// So many bytes more went or came.
    pub(crate) fn count(&mut self, bytes: usize)
        ensures { self.new ≡ further_by bytes self.old }
    {
        self.bytes = self.bytes.saturating_add(bytes as u64);
    }

    /// Whether no further wait for the peer may begin now: a peer that sends a byte now and then would
    /// else hold a client for ever. One that begins in time ends within 110 seconds of its request's
    /// beginning, and within 120 of the beginning of the one that was answered last.
    pub(crate) fn is_time_up(&self, now: u64) -> bool
        ensures over { result ≡ is_time_up self.now now }
        ensures ends { result ≡ false → (later : ℕ) → later ≤ now + longest_wait →
            later ≤ self.now.began + 110_000 }
        ensures heard { result ≡ false → (later : ℕ) → later ≤ now + longest_wait →
            later ≤ self.now.heard + 120_000 }
    {
        let slow = now.saturating_sub(self.began) > allowed_seconds(self.bytes) * 1_000;
        let late = now.saturating_sub(self.heard) > HEARD_MILLIS;
        slow || late
    }
}

/// The request that begins now, behind another, which was `answered` or wasn't.
pub(crate) fn next_pace(last: Option<Pace>, answered: bool, now: u64) -> Pace
    ensures { result ≡ next_pace last answered now }
{
    let heard = match last {
        None => now,
        Some(pace) => { if answered { pace.began } else { pace.heard } }
    };
    Pace {
        began: now,
        heard,
        bytes: 0,
    }
}

/// How many seconds a request and its response may take, of which so many bytes went and came,
/// before the last wait begins.
fn allowed_seconds(bytes: u64) -> u64
    ensures allowed { result ≡ allowed_seconds bytes }
    ensures most { result ≤ 85 }
{
    (SECONDS + bytes / BYTES_A_SECOND).min(MOST_SECONDS)
}
