//! The transfer codings of a request (RFC 9112, section 6.1).

ghost use Rattle.std.specs.Prelude.{◌≡◌};
ghost use Rattle.request_guard.specs.Codings as spec;

use http::header;
use http::request::Parts;

/// Returns whether the bytes that arrive of a request's body are its content: `hyper` decodes
/// `chunked`, and leaves any coding before it to the service, which knows none.
pub(crate) fn is_plainly_coded(parts: &Parts) -> bool
    ensures { result ≡ spec.is_plainly_coded parts.now }
{
    let mut codings = parts.headers.get_all(header::TRANSFER_ENCODING).iter();
    match codings.next() {
        None => true,
        Some(coding) => {
            codings.next().is_none() && coding.as_bytes().eq_ignore_ascii_case(b"chunked")
        }
    }
}
