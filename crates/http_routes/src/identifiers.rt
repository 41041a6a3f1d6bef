//! Identifiers in requests: texts in any form of a UUID (RFC 9562, section 4).

ghost use Rattle.std.specs.Prelude.{◌≡◌};
ghost use Rattle.uuid.specs.Text.{parsed};
ghost use Rattle.http_routes.specs.Identifiers as spec;

use crate::heads::extension_identifier;
use crate::path::path_part_behind;
use crate::routes::INVOCATION;
use arn_ids::{EnvNo, FnNo, IdKind, IdParts, id_parts, salt_word};
use http::request::Parts;
use uuid::Uuid;

fn uuid_in(text: &str) -> Option<Uuid>
    ensures { result ≡ parsed text.now }
{
    match Uuid::parse_str(text) {
        Ok(id) => Some(id),
        Err(_) => None,
    }
}

/// Returns the parts of a text, if it is an identifier of this service.
#[tactic(auto, unfolding(crate::specs::Identifiers::identifier_in))]
fn identifier_in(text: &str) -> Option<IdParts>
    ensures { result ≡ spec.identifier_in text.now }
{
    let id = uuid_in(text)?;
    id_parts(&id)
}

/// Returns the count in an identifier, if it has this salt and number.
fn count_of(salt: u64, number: u32, id: &IdParts) -> Option<u64>
    ensures { result ≡ spec.count_of salt number id.now }
{
    if id.salt_word == salt_word(salt) && id.number == number {
        Some(id.count)
    } else {
        None
    }
}

/// Returns the count in the identifier of a function's invocation.
fn request_count(salt: u64, function: FnNo, text: &str) -> Option<u64>
    ensures { result ≡ spec.request_count salt function text.now }
{
    let id = identifier_in(text)?;
    match id.kind {
        IdKind::Request => count_of(salt, function, &id),
        IdKind::Extension | IdKind::Event => None,
    }
}

/// Returns the count in the identifier of an environment's extension.
fn extension_count(salt: u64, env: EnvNo, text: &str) -> Option<u64>
    ensures { result ≡ spec.extension_count salt env text.now }
{
    let id = identifier_in(text)?;
    match id.kind {
        IdKind::Extension => count_of(salt, env, &id),
        IdKind::Request | IdKind::Event => None,
    }
}

/// Returns the invocation of a function that a path names (Runtime API: AwsRequestId).
pub(crate) fn request_of(salt: u64, function: FnNo, parts: &Parts) -> Option<u64>
    ensures { result ≡ spec.request_of salt function parts.now }
{
    request_count(
        salt,
        function,
        path_part_behind(parts.uri.path(), INVOCATION, 4)?,
    )
}

/// Returns the extension of an environment that a head names (Extensions API:
/// Lambda-Extension-Identifier).
pub(crate) fn extension_of(salt: u64, env: EnvNo, parts: &Parts) -> Option<u64>
    ensures { result ≡ spec.extension_of salt env parts.now }
{
    extension_count(salt, env, extension_identifier(parts)?)
}
