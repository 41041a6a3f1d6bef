//! The host that a request names, and the hosts that are listed in addition to the local ones.

ghost use Rattle.std.specs.Prelude.{◌≡◌, ◌==◌, [], Some, option_map, string_bytes, codes};
ghost use Rattle.std.specs.List.{list_all, slice_split};
ghost use Rattle.http.specs.HeaderMap.{get, get_all};
ghost use Rattle.http.specs.Uri.{uri_authority};
ghost use Rattle.request_guard.specs.Hosts as spec;
ghost use Rattle.request_guard.specs.HostNames.{IsNamedBy, IsNameOf};

use crate::Refusal;
use crate::names::{cut, is_literal, is_local, name_in, relative};
use http::header;
use http::request::Parts;
use std::alloc::Global;
use std::marker::Model;

/// Names of hosts that this service answers for in addition to the local ones, separated by commas.
#[derive(Debug, Drop)]
pub struct KnownHosts {
    listed: String,
}

impl Model for KnownHosts {
    ghost use Rattle.std.specs.Prelude.{ℕ, List, string_bytes};

    ghost Value = { List ℕ };

    ghost view = { λ hosts. string_bytes hosts.listed };
}

/// Returns whether a byte may occur in a listed name.
fn is_listed_byte(byte: u8) -> bool
    ensures { result ≡ spec.is_listed_byte byte }
{
    byte.is_ascii_alphanumeric() || b"-._".contains(&byte)
}

fn are_listed_bytes(name: &[u8]) -> bool
    ensures { result ≡ list_all spec.is_listed_byte name.now }
{
    name.iter().all(|b| is_listed_byte(*b))
}

/// Returns whether each piece between the commas is a name.
fn are_names(text: &[u8]) -> bool
    ensures { result ≡ list_all spec.is_listed (slice_split (λ b. b == 44) text.now) }
{
    let mut rest = Some(text);
    while let Some(bytes) = rest {
        let (name, after) = cut(bytes);
        if name.is_empty() || !are_listed_bytes(name) {
            return false;
        }
        rest = after;
    }
    true
}

impl KnownHosts {
    /// Returns an empty list, for the local ones alone. It allocates nothing.
    pub fn none(alloc: Global) -> KnownHosts
        ensures { result ≡ [] }
    {
        KnownHosts {
            listed: String::new(alloc),
        }
    }

    /// Reads a list of hosts: names of letters, digits, `-`, `.` and `_`, separated by commas. An
    /// empty text lists none. Returns `None` if the text is not such a list.
    pub fn read(text: String) -> Option<KnownHosts>
        ensures { result ≡ spec.listed_in (string_bytes text) }
    {
        let bytes = text.as_bytes();
        if bytes.is_empty() || are_names(bytes) {
            return Some(KnownHosts { listed: text });
        }
        None
    }

    /// Returns whether this service answers for a host of this name.
    pub(crate) fn serve(&self, name: Option<&[u8]>) -> bool
        ensures { result ≡ spec.serves self.now (option_map (λ t. t.now) name.entry) }
    {
        match name {
            None => true,
            Some(name) => is_local(self.listed.as_bytes(), relative(name)),
        }
    }
}

/// Returns the first field `Host`, and whether there is another one.
fn host_fields(parts: &Parts) -> (Option<&[u8]>, bool)
    ensures first { option_map (λ t. t.now) result.0
        ≡ option_map (λ v. v.bytes) (get parts.now.headers (codes "host")) }
    ensures several { result.1 ≡ spec.are_several (get_all parts.now.headers (codes "host")) }
{
    let mut hosts = parts.headers.get_all(header::HOST).iter();
    match hosts.next() {
        None => (None, false),
        Some(host) => (Some(host.as_bytes()), hosts.next().is_some()),
    }
}

/// Returns the text that names the host: the authority of the target, or otherwise the field `Host`
/// (RFC 9112, section 3.2.2).
fn host_text<'p>(parts: &'p Parts, field: Option<&'p [u8]>) -> Option<&'p [u8]>
    ensures { option_map (λ t. t.now) result
        ≡ spec.or_else (uri_authority parts.now.uri) (option_map (λ t. t.now) field.entry) }
{
    match parts.uri.authority() {
        Some(authority) => Some(authority.as_str().as_bytes()),
        None => field,
    }
}

/// Returns the name in a host's text; `None` if it is an address in brackets.
fn named_by(text: &[u8]) -> Result<Option<&[u8]>, Refusal>
    ensures { IsNamedBy (Some text.now) result }
{
    if is_literal(text) {
        return Ok(None);
    }
    match name_in(text) {
        Some(name) => Ok(Some(name)),
        None => Err(Refusal::MalformedHost),
    }
}

/// Returns the name of the host that a request names, which may be an IPv4 address; `None` if the
/// request names no host, or an address in brackets.
///
/// # Errors
/// `MalformedHost` if the host is named in two fields, or by a text that is not a host (RFC 9112,
/// section 3.2).
pub(crate) fn host_name(parts: &Parts) -> Result<Option<&[u8]>, Refusal>
    ensures { IsNameOf parts.now result }
{
    let (field, has_several) = host_fields(parts);
    if has_several {
        return Err(Refusal::MalformedHost);
    }
    match host_text(parts, field) {
        Some(text) => named_by(text),
        None => Ok(None),
    }
}
