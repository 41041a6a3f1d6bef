//! The destination of written lines.

ghost use Rattle.std.specs.Prelude.{ℕ, List};
ghost use Rattle.script.specs.TextFields.{escaped};
ghost use Rattle.script.specs.Writing.{Adds};

use crate::words::push_escaped;
use bytes::Bytes;
use std::alloc::AllocError;

/// A text that grows at its end. If memory is refused, a part may have been added.
pub(crate) trait Sink {
    /// The text so far.
    ghost text: { Self → List ℕ };

    /// Adds bytes, unchanged.
    fn push_bytes(&mut self, bytes: &[u8]) -> Result<(), AllocError>
        ensures { Adds result bytes.now (text self.old) (text self.new) };

    /// Adds bytes, percent-encoded.
    fn push_escaped(&mut self, bytes: &[u8]) -> Result<(), AllocError>
        ensures { Adds result (escaped bytes.now) (text self.old) (text self.new) };

    /// Adds a payload, an output or a report, percent-encoded.
    fn push_body(&mut self, body: &Bytes) -> Result<(), AllocError>
        ensures { Adds result (escaped body.now) (text self.old) (text self.new) };
}

impl Sink for Vec<u8> {
    ghost text = { λ v. v.items };

    fn push_bytes(&mut self, bytes: &[u8]) -> Result<(), AllocError> {
        self.extend_from_slice(bytes)
    }

    fn push_escaped(&mut self, bytes: &[u8]) -> Result<(), AllocError> {
        push_escaped(self, bytes)
    }

    fn push_body(&mut self, body: &Bytes) -> Result<(), AllocError> {
        push_escaped(self, body.as_slice())
    }
}
