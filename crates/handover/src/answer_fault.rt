//! Why the head of an answer is refused.

ghost use Rattle.std.specs.Prelude.{◌≡◌};
ghost use Rattle.handover.specs.declared.answer_fault.AnswerFault.TheVariants.{OutOfMemory};

use std::alloc::{AllocError, AllocFailed};
use thiserror::Error;

/// Why the head of an answer is refused: the first of these that holds, of the status and then of each field in turn.
#[derive(Clone, Copy, Debug, PartialEq, Eq, Error)]
pub enum AnswerFault {
    /// There is no status.
    #[error("Lambda-Local-Status is missing")]
    NoStatus,
    /// There are several.
    #[error("Lambda-Local-Status is there more than once")]
    SeveralStatuses,
    /// The status is not a number.
    #[error("Lambda-Local-Status is not a number")]
    NotAStatus,
    /// The status is not one from 200 to 599, in three digits.
    #[error("Lambda-Local-Status is not from 200 to 599")]
    StatusOutOfRange,
    /// A field has no colon.
    #[error("a Lambda-Local-Header has no colon: write NAME: VALUE")]
    NoColon,
    /// The name of a field is not one.
    #[error("a Lambda-Local-Header names no field")]
    BadName,
    /// A field frames the message or its connection.
    #[error("a Lambda-Local-Header names a field that the service sets itself")]
    FramingName,
    /// The value of a field is not one.
    #[error("a Lambda-Local-Header has a value that no field can have")]
    BadValue,
    /// There was no memory for the fields.
    #[error("out of memory")]
    OutOfMemory,
}

impl From<AllocError> for AnswerFault {
    ghost from_gives = { λ _ e. e ≡ OutOfMemory };

    fn from(_e: AllocError) -> AnswerFault {
        AnswerFault::OutOfMemory
    }
}

impl<T: Drop> From<AllocFailed<T>> for AnswerFault {
    ghost from_gives = { λ _ e. e ≡ OutOfMemory };

    fn from(_e: AllocFailed<T>) -> AnswerFault {
        AnswerFault::OutOfMemory
    }
}
