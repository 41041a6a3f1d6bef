//! The writer of configurations.

ghost use Rattle.std.specs.Prelude.{◌≡◌, ◌≤◌, Ok, IfOk, length, map, All};
ghost use Rattle.serde_json.specs.Data.{string};
ghost use Rattle.serde_json.specs.View.{view};
ghost use Rattle.lambda_wire.specs.Ranges.{IsSlotInRange, IsFunctionInRange, IsConfigInRange};
ghost use Rattle.lambda_wire.specs.Configuration.{read_setup};
ghost use Rattle.lambda_wire.specs.ConfigurationText.{slot_data, function_data, setup_data, setup_text};

use crate::object_writer::ObjectWriter;
use arn_ids::{Config, Function, Slot, Text};
use serde_json::Value;
use std::alloc::{AllocError, Global};

fn text_value(alloc: Global, text: &Text) -> Result<Value, AllocError>
    ensures { IfOk result (λ v. view v ≡ string text.now) }
{
    let copy = String::from_str(alloc, text.as_str())?;
    Ok(Value::String(copy))
}

fn text_values(alloc: Global, texts: &[Text]) -> Result<Vec<Value>, AllocError>
    ensures { IfOk result (λ v. map view v.items ≡ map string texts.now) }
{
    let mut values = Vec::new(alloc);
    for text in texts {
        values.push(text_value(alloc, text)?)?;
    }
    Ok(values)
}

fn port_values(alloc: Global, slots: &[Slot]) -> Result<Vec<Value>, AllocError>
    ensures values { IfOk result (λ v. map view v.items ≡ map slot_data slots.now) }
    ensures in_range { IfOk result (λ _. All IsSlotInRange slots.now) }
{
    let mut values = Vec::new(alloc);
    for slot in slots {
        values.push(Value::from(slot.port))?;
    }
    Ok(values)
}

fn function_object(
    alloc: Global,
    function: &Function,
    extensions: Vec<Value>,
    ports: Vec<Value>,
) -> Result<Value, AllocError>
    requires extensions { map view extensions.items ≡ map string function.now.extensions }
    requires ports { map view ports.items ≡ map slot_data function.now.slots }
    requires in_range { All IsSlotInRange function.now.slots }
    ensures value { IfOk result (λ v. view v ≡ function_data function.now) }
    ensures in_range { IfOk result (λ _. IsFunctionInRange function.now) }
{
    ObjectWriter::new(alloc)
        .list("extensions", extensions)
        .text("handler", function.handler.as_str())
        .text("name", function.name.as_str())
        .list("ports", ports)
        .number("timeout", function.timeout_s as u64)
        .number_if_any("reserved", function.reserved)
        .into_value()
}

fn function_value(alloc: Global, function: &Function) -> Result<Value, AllocError>
    ensures value { IfOk result (λ v. view v ≡ function_data function.now) }
    ensures in_range { IfOk result (λ _. IsFunctionInRange function.now) }
{
    let extensions = text_values(alloc, function.extensions.as_slice())?;
    let ports = port_values(alloc, function.slots.as_slice())?;
    function_object(alloc, function, extensions, ports)
}

fn function_values(alloc: Global, functions: &[Function]) -> Result<Vec<Value>, AllocError>
    ensures values { IfOk result (λ v. map view v.items ≡ map function_data functions.now) }
    ensures in_range { IfOk result (λ _. All IsFunctionInRange functions.now) }
{
    let mut values = Vec::new(alloc);
    for function in functions {
        values.push(function_value(alloc, function)?)?;
    }
    Ok(values)
}

fn setup_object(
    alloc: Global,
    config: &Config,
    salt: u64,
    max_entries: u64,
    functions: Vec<Value>,
) -> Result<Value, AllocError>
    requires functions { map view functions.items ≡ map function_data config.now.functions }
    requires in_range { All IsFunctionInRange config.now.functions }
    ensures value { IfOk result (λ v. view v ≡ setup_data config.now salt max_entries) }
    ensures in_range { IfOk result (λ _. IsConfigInRange config.now) }
{
    ObjectWriter::new(alloc)
        .text("account", config.home.account.as_str())
        .number("accountLimit", config.account_limit as u64)
        .list("functions", functions)
        .number("invokePort", config.invoke_port as u64)
        .number("leastRemainder", config.least_remainder as u64)
        .number("maxEntries", max_entries)
        .text("region", config.home.region.as_str())
        .number("salt", salt)
        .into_value()
}

fn setup_value(
    alloc: Global,
    config: &Config,
    salt: u64,
    max_entries: u64,
) -> Result<Value, AllocError>
    ensures value { IfOk result (λ v. view v ≡ setup_data config.now salt max_entries) }
    ensures in_range { IfOk result (λ _. IsConfigInRange config.now) }
{
    let functions = function_values(alloc, config.functions.as_slice())?;
    setup_object(alloc, config, salt, max_entries, functions)
}

/// Writes a configuration as compact JSON with every member, the keys in the order of their bytes;
/// a function without a reservation has no member `reserved`. Texts are quoted as `serde_json`
/// quotes them (RFC 8259, section 7). `salt` and `max_entries` are those of `Setup`.
///
/// # Errors
/// Only if memory is refused.
pub fn write_config(
    alloc: Global,
    config: &Config,
    salt: u64,
    max_entries: u64,
) -> Result<Vec<u8>, AllocError>
    ensures text { IfOk result (λ b. b.items ≡ setup_text config.now salt max_entries) }
    // What is written is in the ranges of its types.
    ensures in_range { IfOk result (λ _. IsConfigInRange config.now) }
    // `read_config` reads it to the same setup, unless it is longer than a configuration may be.
    ensures read_back { IfOk result (λ b. length b.items ≤ 20000000 → read_setup b.items
        ≡ Ok (record { config = config.now; salt = salt; max_entries = max_entries })) }
{
    setup_value(alloc, config, salt, max_entries)?.to_vec(alloc)
}
