//! What a browser says about a request that a web page sends.

ghost use Rattle.std.specs.Prelude.{◌≡◌, codes};
ghost use Rattle.std.specs.List.{list_all};
ghost use Rattle.http.specs.HeaderMap.{get_all};
ghost use Rattle.request_guard.specs.Pages as spec;

use http::header;
use http::request::Parts;
use service_port::Port;

/// Returns whether what a page sends is refused at a port. What it sends to a port of handlers is for
/// these to judge: an API answers a browser's questions about other sites itself (WHATWG Fetch, CORS
/// protocol).
pub(crate) fn refuses_pages(port: Port) -> bool
    ensures { result ≡ spec.refuses_pages port }
{
    match port {
        Port::Account | Port::Environment(_) => true,
        Port::Handled(_) => false,
    }
}

/// Returns whether a site says that the user's own action sent the request, such as a typed
/// address, or a page of this service.
fn is_own_site(site: &[u8]) -> bool
    ensures { result ≡ spec.is_own_site site.now }
{
    site == b"none".as_slice() || site == b"same-origin".as_slice()
}

/// Returns whether a request has an `Origin`, of whatever value (RFC 6454, section 7).
fn has_origin(parts: &Parts) -> bool
    ensures { result ≡ spec.are_some (get_all parts.now.headers (codes "origin")) }
{
    parts
        .headers
        .get_all(header::ORIGIN)
        .iter()
        .next()
        .is_some()
}

/// Returns whether each `Sec-Fetch-Site` says that no other site sent the request (W3C, Fetch
/// Metadata Request Headers).
fn is_of_own_site(parts: &Parts) -> bool
    ensures { result ≡ list_all (λ v. spec.is_own_site v.bytes) (get_all parts.now.headers (codes "sec-fetch-site")) }
{
    parts
        .headers
        .get_all("sec-fetch-site")
        .iter()
        .all(|site| is_own_site(site.as_bytes()))
}

/// Returns whether a web page sent the request.
pub(crate) fn is_from_page(parts: &Parts) -> bool
    ensures { result ≡ spec.is_from_page parts.now }
{
    has_origin(parts) || !is_of_own_site(parts)
}
