//! The course of a clock that may be paused and set.

ghost use Rattle.std.specs.Prelude.{◌≡◌, ◌<◌, ◌≤◌, ◌+◌, ◌-◌, ◌^◌, ℕ, min, true, false, IfSome, IfNone};
ghost use Rattle.arn_ids.specs.Limits.{greatest_moment};
ghost use Rattle.lambda_local.specs.Courses as spec;

use arn_ids::GREATEST_MOMENT;
use long_poll::ClockFace;

/// The course of a clock, by another that no one can set: it read `at` when that one counted `from`, and runs with it
/// from there, or stands there. Both count milliseconds. It stops at 2^53 - 1.
#[derive(Clone, Copy, Debug, PartialEq, Eq)]
pub(crate) struct Course {
    pub(crate) at: u64,
    pub(crate) from: u64,
    pub(crate) is_running: bool,
}

impl Course {
    /// Returns the course of a clock that agrees with the other one, which counts this.
    pub(crate) fn new(counted: u64) -> Course
        ensures agrees { (later : ℕ) → counted ≤ later → spec.reading result later ≡ min later greatest_moment }
        ensures running { result.is_running ≡ true }
    {
        Course {
            at: counted,
            from: counted,
            is_running: true,
        }
    }

    /// Returns what the clock reads when the other one counts this.
    pub(crate) fn reading(self, counted: u64) -> u64
        ensures exact { result ≡ spec.reading self counted }
        ensures few { result < 2 ^ 53 }
    {
        let elapsed = if self.is_running {
            counted.saturating_sub(self.from)
        } else {
            0
        };
        self.at.saturating_add(elapsed).min(GREATEST_MOMENT)
    }

    /// Returns what the clock shows when the other one counts this.
    pub(crate) fn face(self, counted: u64) -> ClockFace
        ensures now { result.now ≡ spec.reading self counted }
        ensures few { result.now < 2 ^ 53 }
        ensures running { result.is_running ≡ self.is_running }
    {
        ClockFace {
            now: self.reading(counted),
            is_running: self.is_running,
        }
    }

    /// Returns the course of a clock that stands where this one is.
    pub(crate) fn paused(self, counted: u64) -> Course
        ensures stands { (later : ℕ) → spec.reading result later ≡ spec.reading self counted }
        ensures paused { result.is_running ≡ false }
    {
        Course {
            at: self.reading(counted),
            from: counted,
            is_running: false,
        }
    }

    /// Returns the course of a clock that runs from where this one is.
    pub(crate) fn resumed(self, counted: u64) -> Course
        ensures runs { (later : ℕ) → counted ≤ later
            → spec.reading result later ≡ min (spec.reading self counted + (later - counted)) greatest_moment }
        ensures running { result.is_running ≡ true }
    {
        Course {
            at: self.reading(counted),
            from: counted,
            is_running: true,
        }
    }

    /// Returns the course of a clock that is ahead of this one by so many milliseconds, `None` if it would read more
    /// than 2^53 - 1 now.
    pub(crate) fn advanced(self, by: u64, counted: u64) -> Option<Course>
        ensures moved { IfSome result (λ ahead. spec.reading ahead counted ≡ spec.reading self counted + by) }
        ensures few { IfSome result (λ ahead. spec.reading self counted + by < 2 ^ 53) }
        ensures same { IfSome result (λ ahead. ahead.is_running ≡ self.is_running) }
        ensures past { IfNone result (2 ^ 53 ≤ spec.reading self counted + by) }
    {
        let now = self.reading(counted);
        let left = GREATEST_MOMENT - now;
        if by > left {
            return None;
        }
        Some(Course {
            at: now + by,
            from: counted,
            is_running: self.is_running,
        })
    }

    /// Returns the course of a clock that is set forward by so many milliseconds, unless it is paused.
    pub(crate) fn set_forward(self, by: u64) -> Course
        ensures { result ≡ spec.set_forward self by }
    {
        if self.is_running {
            Course {
                at: self.at.saturating_add(by),
                ..self
            }
        } else {
            self
        }
    }
}
