//! The body of a request, as it was received.

ghost use Rattle.std.specs.Prelude.{◌≡◌, ◌<◌, length, MatchOption};
ghost use Rattle.arn_ids.specs.Limits.{longest_body};

use bytes::Bytes;
use std::marker::Model;

/// The body of a request: its bytes, or that it is longer than 6,291,456 bytes (Lambda quotas, invocation
/// payload), in which case none of them is kept. Contracts see the bytes; of a body that was not kept, those of
/// some body that is too long.
#[derive(Drop)]
pub struct Received {
    kept: Option<Bytes>,
}

impl Model for Received {
    ghost use Rattle.std.specs.Prelude.{ℕ, List};
    ghost use Rattle.decisions.specs.Received.{body_of};

    ghost Value = { List ℕ };

    ghost view = { λ received. body_of received.kept };
}

impl Received {
    /// Returns a body that was collected, of any length.
    pub fn whole(body: Bytes) -> Received
        ensures { result ≡ body }
    {
        Received { kept: Some(body) }
    }

    /// Returns a body that is too long, and was not read.
    pub fn too_long() -> Received
        ensures { longest_body < length result }
    {
        Received { kept: None }
    }

    /// Returns the bytes, `None` if the body is too long and was not kept.
    pub fn bytes(&self) -> Option<&Bytes>
        ensures { MatchOption result (longest_body < length self.now) (λ bytes. bytes.now ≡ self.now) }
    {
        match &self.kept {
            Some(bytes) => Some(bytes),
            None => None,
        }
    }
}
