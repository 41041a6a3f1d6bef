//! The reader of configurations.

ghost use Rattle.std.specs.Prelude.{◌≡◌, ◌<◌, codes, length, string_bytes, IsErrOf};
ghost use Rattle.std.specs.List.{list_all};
ghost use Rattle.std.specs.BTreeMap.{keys};
ghost use Rattle.serde_json.specs.Find.{get};
ghost use Rattle.serde_json.specs.View.{view, items_view};
ghost use Rattle.lambda_wire.specs.Reading as spec;
ghost use Rattle.lambda_wire.specs.Configuration.{is_function_member, is_setup_member, slot_of, lists_of};
ghost use Rattle.lambda_wire.specs.Configuration.{function_of, home_of, config_of, setup_of, read_setup};

use crate::fault::WireFault;
use crate::members::{
    items_at, json_of, number_or, number_u16, number_u16_or, number_u32_or, optional_u32, text_at,
    text_or, texts_or_none,
};
use crate::setup::Setup;
use arn_ids::{Config, Function, Home, Row, Slot, Text};
use serde_json::{Map, Value};
use std::alloc::Global;

/// How many bytes a configuration may have.
const MAX_BYTES: usize = 20_000_000;

fn is_function_member(name: &str) -> bool
    ensures { result ≡ is_function_member name.now }
{
    matches!(
        name,
        "name" | "handler" | "timeout" | "reserved" | "extensions" | "ports"
    )
}

fn is_setup_member(name: &str) -> bool
    ensures { result ≡ is_setup_member name.now }
{
    matches!(
        name,
        "account"
            | "region"
            | "functions"
            | "accountLimit"
            | "leastRemainder"
            | "invokePort"
            | "salt"
            | "maxEntries"
    )
}

fn are_function_members(members: &Map<String, Value>) -> bool
    ensures { result ≡ list_all (λ k. is_function_member (string_bytes k)) (keys members.now) }
{
    members.keys().all(|k| is_function_member(k.as_str()))
}

fn are_setup_members(members: &Map<String, Value>) -> bool
    ensures { result ≡ list_all (λ k. is_setup_member (string_bytes k)) (keys members.now) }
{
    members.keys().all(|k| is_setup_member(k.as_str()))
}

fn has_function_members(value: &Value) -> bool
    ensures { result ≡ spec.has_only is_function_member (view value.now) }
{
    match value.as_object() {
        None => false,
        Some(members) => are_function_members(members),
    }
}

fn has_setup_members(value: &Value) -> bool
    ensures { result ≡ spec.has_only is_setup_member (view value.now) }
{
    match value.as_object() {
        None => false,
        Some(members) => are_setup_members(members),
    }
}

fn slots(alloc: Global, values: &[Value]) -> Result<Row<Slot>, WireFault>
    ensures { spec.Gives result (spec.each slot_of (items_view values.now)) }
{
    let mut found = Vec::new(alloc);
    let mut rest = values;
    while let Some((first, others)) = rest.split_first() {
        let port = number_u16(first)?;
        found.push(Slot { port })?;
        rest = others;
    }
    Ok(Row::new(found))
}

/// What the members `extensions` and `ports` list.
#[tactic(auto, unfolding(crate::specs::Configuration::lists_of))]
fn lists(alloc: Global, value: &Value) -> Result<(Row<Text>, Row<Slot>), WireFault>
    ensures { spec.Gives result (lists_of (view value.now)) }
{
    let extensions = texts_or_none(alloc, value, "extensions")?;
    let ports = items_at(value, "ports")?;
    Ok((extensions, slots(alloc, ports)?))
}

#[tactic(auto, unfolding(crate::specs::Configuration::function_of))]
fn function(alloc: Global, value: &Value) -> Result<Function, WireFault>
    ensures { spec.Gives result (function_of (view value.now)) }
{
    if !has_function_members(value) {
        return Err(WireFault::BadShape);
    }
    let timeout_s = number_u32_or(value, "timeout", 3)?;
    let reserved = optional_u32(value, "reserved")?;
    let name = text_at(alloc, value, "name")?;
    let handler = text_or(alloc, value, "handler", "index.handler")?;
    let (extensions, slots) = lists(alloc, value)?;
    Ok(Function {
        name,
        handler,
        timeout_s,
        reserved,
        extensions,
        slots,
    })
}

fn functions(alloc: Global, values: &[Value]) -> Result<Row<Function>, WireFault>
    ensures { spec.Gives result (spec.each function_of (items_view values.now)) }
{
    let mut found = Vec::new(alloc);
    let mut rest = values;
    while let Some((first, others)) = rest.split_first() {
        found.push(function(alloc, first)?)?;
        rest = others;
    }
    Ok(Row::new(found))
}

/// The functions that the member `functions` lists.
fn functions_at(alloc: Global, value: &Value) -> Result<Row<Function>, WireFault>
    ensures { spec.Gives result
        (spec.required (spec.list_of function_of) (get (codes "functions") (view value.now))) }
{
    let listed = items_at(value, "functions")?;
    functions(alloc, listed)
}

#[tactic(auto, unfolding(crate::specs::Configuration::home_of))]
fn home(alloc: Global, value: &Value) -> Result<Home, WireFault>
    ensures { spec.Gives result (home_of (view value.now)) }
{
    let account = text_at(alloc, value, "account")?;
    let region = text_at(alloc, value, "region")?;
    Ok(Home { account, region })
}

#[tactic(auto, unfolding(crate::specs::Configuration::config_of))]
fn config(alloc: Global, value: &Value) -> Result<Config, WireFault>
    ensures { spec.Gives result (config_of (view value.now)) }
{
    let account_limit = number_u32_or(value, "accountLimit", 1000)?;
    let least_remainder = number_u32_or(value, "leastRemainder", 100)?;
    let invoke_port = number_u16_or(value, "invokePort", 9000)?;
    let home = home(alloc, value)?;
    let functions = functions_at(alloc, value)?;
    Ok(Config {
        home,
        account_limit,
        least_remainder,
        invoke_port,
        functions,
    })
}

#[tactic(auto, unfolding(crate::specs::Configuration::setup_of))]
fn setup(alloc: Global, value: &Value) -> Result<Setup, WireFault>
    ensures { spec.Gives result (setup_of (view value.now)) }
{
    if !has_setup_members(value) {
        return Err(WireFault::BadShape);
    }
    let salt = number_or(value, "salt", 0)?;
    let max_entries = number_or(value, "maxEntries", 1_000_000)?;
    let config = config(alloc, value)?;
    Ok(Setup {
        config,
        salt,
        max_entries,
    })
}

/// Reads a configuration: one JSON object (RFC 8259) of at most 20,000,000 bytes.
///
/// | Member | Meaning | Default |
/// |---|---|---|
/// | `account`, `region` | texts | required |
/// | `functions` | list of objects, below | required |
/// | `accountLimit`, `leastRemainder` | whole numbers below 2^32 | 1000, 100 |
/// | `invokePort` | whole number below 2^16 | 9000 |
/// | `salt`, `maxEntries` | whole numbers below 2^64 | 0, 1000000 |
/// | function: `name` | text | required |
/// | function: `ports` | list of whole numbers below 2^16 | required |
/// | function: `handler` | text | `index.handler` |
/// | function: `timeout` | whole number of seconds below 2^32 | 3 |
/// | function: `reserved` | whole number below 2^32 | none |
/// | function: `extensions` | list of texts | empty |
///
/// A whole number is an integer literal: `1.0`, `1e3` and `-0` are not. If a member appears more than
/// once, the last one counts. `Config::check` tests the values.
///
/// # Errors
/// `TooLong`; `NotJson`; `BadShape` if a member is of another type, isn't in the table, or is required
/// and absent; and `OutOfMemory`.
#[tactic(auto, unfolding(crate::specs::Configuration::read_setup))]
pub fn read_config(alloc: Global, bytes: &[u8]) -> Result<Setup, WireFault>
    ensures setup { spec.Gives result (read_setup bytes.now) }
    // The length comes first: to test it takes no memory.
    ensures too_long { 20000000 < length bytes.now → IsErrOf result WireFault.TooLong }
{
    if bytes.len() > MAX_BYTES {
        return Err(WireFault::TooLong);
    }
    let value = json_of(alloc, bytes)?;
    setup(alloc, &value)
}
