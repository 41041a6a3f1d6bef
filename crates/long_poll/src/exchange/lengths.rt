//! The length that a request declares for its body.

ghost use Rattle.std.specs.Prelude.{◌≡◌};
ghost use Rattle.long_poll.specs.Lengths as spec;

use arn_ids::{LONGEST_BODY, read_number};
use http::header;
use http::request::Parts;

/// The length in `Content-Length` (RFC 9110, section 8.6).
fn declared_length(parts: &Parts) -> Option<u64>
    ensures { result ≡ spec.declared_length parts.now }
{
    match parts.headers.get(header::CONTENT_LENGTH) {
        Some(value) => read_number(value.as_bytes(), u64::MAX),
        None => None,
    }
}

/// Whether a request declares a body that is too long, of which then nothing is read. A transfer coding
/// overrides the length (RFC 9112, section 6.3); it is looked for only behind such a length, which few have.
pub fn declares_too_long(parts: &Parts) -> bool
    ensures { result ≡ spec.declares_too_long parts.now }
{
    let is_too_long = match declared_length(parts) {
        Some(length) => length > LONGEST_BODY as u64,
        None => false,
    };
    is_too_long && parts.headers.get(header::TRANSFER_ENCODING).is_none()
}
