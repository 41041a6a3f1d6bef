//! Identifiers as they are written.

ghost use Rattle.std.specs.Prelude.{◌≡◌, ◌≤◌, length};
ghost use Rattle.arn_ids.specs.Identifiers.{id_word as written};
ghost use Rattle.arn_ids.specs.declared.identifiers.IdKind.TheVariants.{Request};
ghost use Rattle.http_header.specs.FieldValue.{IsFieldValue};
ghost use Rattle.replies.specs.Words as spec;

use crate::functions::function_number;
use arn_ids::IdKind;
use call_model::{Call, identifier};

/// Returns an identifier as text, or a dash if no identifier can have this number or count.
fn id_word<'b>(buffer: &'b mut [u8], salt: u64, kind: IdKind, number: u32, count: u64) -> &'b str
    requires { 36 ≤ length buffer.old }
    ensures { result.now ≡ written salt kind number count }
{
    match identifier(salt, kind, number, count) {
        None => "-",
        Some(id) => id.hyphenated().encode_lower(buffer),
    }
}

/// Returns the request identifier of an Invoke, by its count among those of its function.
#[tactic(auto, using(crate::proofs::FieldValues::id_fits))]
pub(crate) fn request_text<'b>(buffer: &'b mut [u8], salt: u64, call: &Call, count: u64) -> &'b str
    requires { 36 ≤ length buffer.old }
    ensures value { result.now ≡ spec.request_text salt call.now count }
    ensures fits { IsFieldValue result.now }
{
    id_word(buffer, salt, IdKind::Request, function_number(call), count)
}

/// Returns the identifier of an event or an extension of the environment that a call names.
#[tactic(auto, using(crate::proofs::FieldValues::id_fits))]
pub(crate) fn env_text<'b>(
    buffer: &'b mut [u8],
    salt: u64,
    kind: IdKind,
    call: &Call,
    count: u64,
) -> &'b str
    requires { 36 ≤ length buffer.old }
    ensures value { result.now ≡ spec.env_text salt kind call.now count }
    ensures fits { IsFieldValue result.now }
{
    let env = call.environment().unwrap_or(0);
    id_word(buffer, salt, kind, env, count)
}
