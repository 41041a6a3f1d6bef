//! What an environment's phase means for the next invocation.

ghost use Rattle.std.specs.Prelude.{◌≡◌};
ghost use Rattle.placement.specs.Class.{class_of, is_class};

use call_model::Phase;

/// Whether an environment takes an invocation, and what has to happen first.
/// (Lambda Developer Guide, "Understanding the Lambda execution environment lifecycle")
#[derive(Clone, Copy, Debug, PartialEq, Eq)]
pub enum Class {
    /// It is ready, and serves at once.
    Idle,
    /// It serves when its Init ends.
    StartingFree,
    /// It serves once it has shut down and its next Init has ended.
    ClosingFree,
    /// It serves an invocation or has one bound, or it is off for good.
    Taken,
}

impl Class {
    /// Returns the class of an environment in a phase.
    pub fn of(phase: Phase) -> Class
        ensures { result ≡ class_of phase }
    {
        match phase {
            Phase::Idle => Class::Idle,
            Phase::Starting {
                deadline: _,
                bound: None,
            } => Class::StartingFree,
            Phase::Closing {
                reason: _,
                until: _,
                bound: None,
            } => Class::ClosingFree,
            _ => Class::Taken,
        }
    }

    /// Whether the two are the same class.
    pub(crate) fn is(self, class: Class) -> bool
        ensures { result ≡ is_class class self }
    {
        match (class, self) {
            (Class::Idle, Class::Idle) => true,
            (Class::StartingFree, Class::StartingFree) => true,
            (Class::ClosingFree, Class::ClosingFree) => true,
            (Class::Taken, Class::Taken) => true,
            _ => false,
        }
    }
}
