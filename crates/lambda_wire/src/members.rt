//! The steps of every reader: the value of a body, and the members of an object, each of its type.

ghost use Rattle.std.specs.Prelude.{◌^◌, []};
ghost use Rattle.serde_json.specs.Find.{get};
ghost use Rattle.serde_json.specs.View.{view, items_view};
ghost use Rattle.lambda_wire.specs.Reading as spec;

use crate::fault::WireFault;
use arn_ids::{Row, Text};
use serde_json::Value;
use std::alloc::Global;

/// Reads the bytes as a JSON value.
#[tactic(auto, unfolding(crate::specs::Reading::json_in))]
pub(crate) fn json_of(alloc: Global, bytes: &[u8]) -> Result<Value, WireFault>
    ensures { spec.GivesAs view result (spec.json_in bytes.now) }
{
    match Value::from_slice(alloc, bytes) {
        Ok(value) => Ok(value),
        Err(e) if e.is_memory() => Err(WireFault::OutOfMemory),
        Err(_) => Err(WireFault::NotJson),
    }
}

/// A text.
pub(crate) fn text(alloc: Global, value: &Value) -> Result<Text, WireFault>
    ensures { spec.Gives result (spec.text_of (view value.now)) }
{
    match value.as_str() {
        None => Err(WireFault::BadShape),
        Some(text) => Ok(Text::new(String::from_str(alloc, text)?)),
    }
}

/// The texts of a list.
pub(crate) fn texts(alloc: Global, values: &[Value]) -> Result<Row<Text>, WireFault>
    ensures { spec.Gives result (spec.each spec.text_of (items_view values.now)) }
{
    let mut found = Vec::new(alloc);
    let mut rest = values;
    while let Some((first, others)) = rest.split_first() {
        found.push(text(alloc, first)?)?;
        rest = others;
    }
    Ok(Row::new(found))
}

/// A whole number below 2^64.
pub(crate) fn number(value: &Value) -> Result<u64, WireFault>
    ensures { spec.Gives result (spec.number_of (view value.now)) }
{
    value.as_u64().ok_or(WireFault::BadShape)
}

/// A whole number below 2^32.
pub(crate) fn number_u32(value: &Value) -> Result<u32, WireFault>
    ensures { spec.Gives result (spec.number_below (2 ^ 32) (view value.now)) }
{
    let wide = number(value)?;
    u32::try_from(wide).map_err(|_| WireFault::BadShape)
}

/// A whole number below 2^16.
pub(crate) fn number_u16(value: &Value) -> Result<u16, WireFault>
    ensures { spec.Gives result (spec.number_below (2 ^ 16) (view value.now)) }
{
    let wide = number(value)?;
    u16::try_from(wide).map_err(|_| WireFault::BadShape)
}

/// Returns the text of a required member.
pub(crate) fn text_at(alloc: Global, object: &Value, name: &str) -> Result<Text, WireFault>
    ensures { spec.Gives result (spec.required spec.text_of (get name.now (view object.now))) }
{
    match object.get(name) {
        None => Err(WireFault::BadShape),
        Some(value) => text(alloc, value),
    }
}

/// Returns the items of a required member that is a list.
pub(crate) fn items_at<'v>(object: &'v Value, name: &str) -> Result<&'v [Value], WireFault>
    ensures { spec.GivesAs (λ v. items_view v.now) result
        (spec.required spec.items_in (get name.now (view object.now))) }
{
    match object.get(name).and_then(Value::as_array) {
        None => Err(WireFault::BadShape),
        Some(items) => Ok(items.as_slice()),
    }
}

/// Returns the text of a member, or a default if it is absent.
pub(crate) fn text_or(
    alloc: Global,
    object: &Value,
    name: &str,
    default: &str,
) -> Result<Text, WireFault>
    ensures { spec.Gives result
        (spec.or_else default.now spec.text_of (get name.now (view object.now))) }
{
    match object.get(name) {
        None => Ok(Text::new(String::from_str(alloc, default)?)),
        Some(value) => text(alloc, value),
    }
}

/// Returns the texts of a member that is a list, or no texts if it is absent.
pub(crate) fn texts_or_none(
    alloc: Global,
    object: &Value,
    name: &str,
) -> Result<Row<Text>, WireFault>
    ensures { spec.Gives result
        (spec.or_else [] (spec.list_of spec.text_of) (get name.now (view object.now))) }
{
    match object.get(name) {
        None => Ok(Row::new(Vec::new(alloc))),
        Some(value) => {
            let items = value.as_array().ok_or(WireFault::BadShape)?;
            texts(alloc, items)
        }
    }
}

/// Returns the number below 2^64 of a member, or a default if it is absent.
pub(crate) fn number_or(object: &Value, name: &str, default: u64) -> Result<u64, WireFault>
    ensures { spec.Gives result
        (spec.or_else default spec.number_of (get name.now (view object.now))) }
{
    match object.get(name) {
        None => Ok(default),
        Some(value) => number(value),
    }
}

/// Returns the number below 2^32 of a member, or a default if it is absent.
pub(crate) fn number_u32_or(object: &Value, name: &str, default: u32) -> Result<u32, WireFault>
    ensures { spec.Gives result
        (spec.or_else default (spec.number_below (2 ^ 32)) (get name.now (view object.now))) }
{
    match object.get(name) {
        None => Ok(default),
        Some(value) => number_u32(value),
    }
}

/// Returns the number below 2^16 of a member, or a default if it is absent.
pub(crate) fn number_u16_or(object: &Value, name: &str, default: u16) -> Result<u16, WireFault>
    ensures { spec.Gives result
        (spec.or_else default (spec.number_below (2 ^ 16)) (get name.now (view object.now))) }
{
    match object.get(name) {
        None => Ok(default),
        Some(value) => number_u16(value),
    }
}

/// Returns the number below 2^32 of a member, if it is there.
pub(crate) fn optional_u32(object: &Value, name: &str) -> Result<Option<u32>, WireFault>
    ensures { spec.Gives result
        (spec.optional (spec.number_below (2 ^ 32)) (get name.now (view object.now))) }
{
    match object.get(name) {
        None => Ok(None),
        Some(value) => Ok(Some(number_u32(value)?)),
    }
}
