//! The clock that gives the moments of calls.

ghost use Rattle.std.specs.Prelude.{◌≡◌, ◌<◌, ◌≤◌, ◌+◌, ◌^◌, ℕ, true, false, IfSome, IfNone};
ghost use Rattle.long_poll.specs.Moments.{moment_of};

use arn_ids::GREATEST_MOMENT;

/// The greatest lag behind the time of day at which a clock is not set forward.
pub const MOST_LAG_MS: u64 = 1_000;

/// What a clock shows: its reading, in milliseconds, and whether it is running.
#[derive(Clone, Copy, Debug, PartialEq, Eq)]
pub struct ClockFace {
    /// The reading.
    pub now: u64,
    /// Whether the clock is running; otherwise it is paused, and its readings are equal.
    pub is_running: bool,
}

/// A clock: Unix milliseconds in the server. Its readings never go back. It may fall behind the time of
/// day, for instance while the machine sleeps or while it is paused, and is then set forward.
pub trait Clock {
    /// The readings that it may give: any, unless an implementation says more.
    ghost reads: { Self → ℕ → Type 0 } = { λ _ _. Unit {0} };

    /// The lags that it may give: any, unless an implementation says more.
    ghost lags: { Self → ℕ → Type 0 } = { λ _ _. Unit {0} };

    /// Returns its reading, in milliseconds.
    fn now(&self) -> u64
        ensures { reads self.now result };

    /// Returns by how many milliseconds the time of day is ahead of its reading; 0 if it is not ahead, if it is
    /// paused, or if the clock knows no time of day.
    fn lag(&self) -> u64
        ensures { lags self.now result };

    /// Sets the clock forward by this many milliseconds, unless it is paused.
    fn set_forward(&self, by: u64) {
        let _ = by;
    }

    /// Returns what it shows.
    fn face(&self) -> ClockFace
        ensures read { reads self.now result.now }
        ensures few { result.now < 2 ^ 53 };

    /// Pauses it, if it is running: it stands where it is. Returns what it then shows.
    fn pause(&self) -> ClockFace
        ensures read { reads self.now result.now }
        ensures few { result.now < 2 ^ 53 }
        ensures paused { result.is_running ≡ false };

    /// Lets it go on from where it stands, if it is paused. Returns what it then shows.
    fn resume(&self) -> ClockFace
        ensures read { reads self.now result.now }
        ensures few { result.now < 2 ^ 53 }
        ensures running { result.is_running ≡ true };

    /// Moves it forward by this many milliseconds, in one step; it is running or paused as before. Returns what it
    /// then shows: a reading that is greater by this much than one before it. Returns `None`, and moves nothing, if
    /// that would be more than 2^53 - 1.
    fn advance(&self, by: u64) -> Option<ClockFace>
        ensures moved { IfSome result (λ face. (from : ℕ) × reads self.now from × reads self.now face.now
            × (face.now ≡ from + by)) }
        ensures few { IfSome result (λ face. face.now < 2 ^ 53) }
        ensures past { IfNone result ((from : ℕ) × reads self.now from × (2 ^ 53 ≤ from + by)) };
}

/// Returns the moment of a call that is submitted now: the clock's reading, at most 2^53 - 1.
pub fn moment<N: Clock>(clock: &N) -> u64
    ensures read { (reading : ℕ) × N.reads clock.now reading × (result ≡ moment_of reading) }
    ensures few { result < 2 ^ 53 }
{
    clock.now().min(GREATEST_MOMENT)
}
