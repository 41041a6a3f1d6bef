//! The text of a request's head, as a handler gets it.

ghost use Rattle.std.specs.Prelude.{◌≡◌, [], IfOk, encode_utf8_all};
ghost use Rattle.std.specs.String.{string_bytes};
ghost use Rattle.std.specs.List.{flat_map};
ghost use Rattle.http_header.specs.HeaderMap.{pairs};
ghost use Rattle.json.specs.Lex.{tokens};
ghost use Rattle.json.specs.Print.{print};
ghost use Rattle.handover.specs.Heads.{Adds, field_tokens, head_tokens};

use http_header::{HeaderMap, HeaderValue};
use json::Writer;
use std::alloc::{AllocError, Global};

/// Returns the text whose characters are these bytes (ISO 8859-1, which RFC 9110 has for the bytes of a value that are
/// not ASCII), so that no byte is lost.
fn text_of(alloc: Global, bytes: &[u8]) -> Result<String, AllocError>
    ensures { IfOk result (λ text. string_bytes text ≡ encode_utf8_all bytes.now) }
{
    bytes.iter().map(|byte| char::from(*byte)).collect(alloc)
}

/// Adds a field as a pair of its name and its value.
fn add_field(
    alloc: Global,
    writer: &mut Writer,
    name: &str,
    value: &HeaderValue,
) -> Result<(), AllocError>
    ensures { Adds result (field_tokens (name.now, value.now)) writer.old writer.new }
{
    let text = text_of(alloc, value.as_bytes())?;
    writer.begin_array()?;
    writer.string(name)?;
    writer.string(text.as_str())?;
    writer.end_array()
}

/// Adds all fields.
fn add_fields(alloc: Global, writer: &mut Writer, headers: &HeaderMap) -> Result<(), AllocError>
    ensures { Adds result (flat_map field_tokens (pairs headers.now)) writer.old writer.new }
{
    for (name, value) in headers.iter() {
        add_field(alloc, writer, name.as_str(), value)?;
    }
    Ok(())
}

/// Writes the head of a request into a new writer.
fn written(
    alloc: Global,
    port: u16,
    method: &str,
    target: &str,
    headers: &HeaderMap,
) -> Result<Writer, AllocError>
    ensures before { IfOk result (λ writer. writer.before ≡ []) }
    ensures tokens { IfOk result (λ writer. writer.tokens ≡ head_tokens port method.now target.now (pairs headers.now)) }
{
    let mut writer = Writer::new(Vec::new(alloc));
    writer.begin_object()?;
    writer.key("port")?;
    writer.u64(u64::from(port))?;
    writer.key("method")?;
    writer.string(method)?;
    writer.key("target")?;
    writer.string(target)?;
    writer.key("headers")?;
    writer.begin_array()?;
    add_fields(alloc, &mut writer, headers)?;
    writer.end_array()?;
    writer.end_object()?;
    Ok(writer)
}

/// Writes the head of a request that came to a port, as a JSON object without its identifier: the port, the method, the
/// target, and the fields as pairs of a name and a value. Each character of a value is one of its bytes (ISO 8859-1), so
/// that none is lost.
///
/// # Errors
/// If memory is refused.
pub fn write_head(
    alloc: Global,
    port: u16,
    method: &str,
    target: &str,
    headers: &HeaderMap,
) -> Result<Vec<u8>, AllocError>
    ensures text { IfOk result (λ head. head.items ≡ print (head_tokens port method.now target.now (pairs headers.now))) }
    ensures reads_back { IfOk result (λ head. tokens head.items ≡ head_tokens port method.now target.now (pairs headers.now)) }
{
    let writer = written(alloc, port, method, target, headers)?;
    Ok(writer.into_inner())
}
