//! The totals of an account.

ghost use Rattle.std.specs.Prelude.{◌≡◌, ◌+◌, ◌<◌, ◌^◌, length, count_by, cond, is_some};
ghost use Rattle.call_model.specs.Counts.{is_throttle, is_failure};

use arn_ids::EnvNo;
use call_model::{Answer, Ticket};

/// How many invocations were admitted, throttled and failed.
#[derive(Clone, Copy)]
pub struct Counters {
    /// The Invokes that were placed in an environment.
    pub admitted: u64,
    /// The Invokes that were answered with 429.
    pub throttled: u64,
    /// The Invokes that ended in an error, a timeout or too large an output.
    pub failed: u64,
}

/// Whether an answer is that of a throttled Invoke. (Invoke: TooManyRequestsException)
fn is_throttle(answer: &Answer) -> bool
    ensures { result ≡ is_throttle answer.now }
{
    matches!(answer, Answer::Throttled(_))
}

/// Whether an answer is that of a failed invocation. (Invoke: X-Amz-Function-Error)
fn is_failure(answer: &Answer) -> bool
    ensures { result ≡ is_failure answer.now }
{
    matches!(
        answer,
        Answer::Error { source: _ }
            | Answer::TimedOut
            | Answer::InitTimedOut
            | Answer::OutputTooLarge,
    )
}

impl Counters {
    /// Counters at zero.
    pub fn new() -> Counters
        ensures { result ≡ record { admitted = 0; throttled = 0; failed = 0 } }
    {
        Counters {
            admitted: 0,
            throttled: 0,
            failed: 0,
        }
    }

    /// Counts an entry with this place and these answers.
    pub fn count(&mut self, place: Option<EnvNo>, answers: &[(Ticket, Answer)])
        requires few_admitted { self.old.admitted < 2 ^ 62 }
        requires few_throttled { self.old.throttled + length answers.now < 2 ^ 62 }
        requires few_failed { self.old.failed + length answers.now < 2 ^ 62 }
        ensures admitted { self.new.admitted ≡ self.old.admitted + cond (is_some place) 1 0 }
        ensures throttled { self.new.throttled ≡ self.old.throttled + count_by (λ a. is_throttle a.1) answers.now }
        ensures failed { self.new.failed ≡ self.old.failed + count_by (λ a. is_failure a.1) answers.now }
    {
        self.admitted += if place.is_some() { 1 } else { 0 };
        for (_ticket, answer) in answers {
            if is_throttle(answer) {
                self.throttled += 1;
            }
            if is_failure(answer) {
                self.failed += 1;
            }
        }
    }
}
