//! Requests that never become a call, by their heads.

ghost use Rattle.std.specs.Prelude.{◌≡◌, IfOk};
ghost use Rattle.std.specs.Arc.{arc_value};
ghost use Rattle.std.specs.List.{list_any};
ghost use Rattle.http.specs.HeaderMap.{keys};
ghost use Rattle.request_guard.specs.Guarding as spec;

use crate::codings::is_plainly_coded;
use crate::hosts::host_name;
use crate::pages::{is_from_page, refuses_pages};
use crate::{KnownHosts, Refusal};
use http::request::Parts;
use http_header::HeaderName;
use service_port::Port;

/// Returns whether a field is one of those, beside the host, for which a request may be refused.
/// Few requests have one.
fn is_rare(name: &HeaderName) -> bool
    ensures { result ≡ spec.is_rare name.now }
{
    let name = name.as_bytes();
    name == b"origin".as_slice()
        || name == b"sec-fetch-site".as_slice()
        || name == b"transfer-encoding".as_slice()
}

/// Returns whether a request has such a field. (One walk over all names costs less than finding
/// each of these.)
fn has_rare_field(parts: &Parts) -> bool
    ensures { result ≡ list_any spec.is_rare (keys parts.now.headers) }
{
    parts.headers.keys().any(|name| is_rare(name))
}

impl KnownHosts {
    /// Returns why a request with this head at a port never becomes a call; the first of these causes
    /// that holds: its host is named in two fields or by a text that is not a host, a web page sent it
    /// to another port than one of handlers, its host is neither local nor listed, or its body is coded
    /// in a way that is not supported.
    #[tactic(auto, using(crate::proofs::RareFields::none_is_of_page, crate::proofs::RareFields::none_is_coded))]
    pub fn refusal(&self, port: Port, parts: &Parts) -> Option<Refusal>
        ensures { result ≡ spec.refusal_of port self.now parts.now }
    {
        let host = match host_name(parts) {
            Ok(host) => host,
            Err(malformed) => return Some(malformed),
        };
        let has_rare = has_rare_field(parts);
        if has_rare && refuses_pages(port) && is_from_page(parts) {
            return Some(Refusal::FromPage);
        }
        if !self.serve(host) {
            return Some(Refusal::ForeignHost);
        }
        if has_rare && !is_plainly_coded(parts) {
            return Some(Refusal::ForeignCoding);
        }
        None
    }
}
