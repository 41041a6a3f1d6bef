//! The readers of the bodies of requests.

ghost use Rattle.std.specs.Prelude.{◌≡◌, ◌<◌, length, IsErrOf, bytes_eq};
ghost use Rattle.std.specs.List.{list_all, list_any};
ghost use Rattle.serde_json.specs.View.{view};
ghost use Rattle.arn_ids.specs.Limits.{longest_body};
ghost use Rattle.lambda_wire.specs.Reading as spec;
ghost use Rattle.lambda_wire.specs.Requests.{is_event, events_of, registration_of, reservation_of};
ghost use Rattle.lambda_wire.specs.Requests.{read_payload, read_events, read_count};

use crate::fault::WireFault;
use crate::json_check::check_json;
use crate::members::{json_of, number_u32, texts_or_none};
use crate::payload_scratch::PayloadScratch;
use arn_ids::{LONGEST_BODY, Text};
use bytes::Bytes;
use serde_json::Value;
use std::alloc::{AllocError, Global};

/// The events that an extension asks for (Extensions API, Register).
#[derive(Clone, Copy, Debug, PartialEq, Eq)]
pub struct Events {
    /// Whether it is notified of each invocation (INVOKE).
    pub invoke: bool,
    /// Whether it is notified of the end of its environment (SHUTDOWN).
    pub shutdown: bool,
}

/// Reads the payload of an Invoke: JSON (RFC 8259) of at most 6,291,456 bytes, which is unchanged and
/// shares its memory; an empty body means `{}` (Lambda API, Invoke: Payload). It is read in the memory of
/// the scratch, whose contents don't matter.
///
/// # Errors
/// `TooLong`, `NotJson` (white space alone isn't JSON) and `OutOfMemory`.
#[tactic(auto, unfolding(crate::specs::Requests::read_payload))]
pub fn read_invoke_body(
    alloc: Global,
    scratch: &mut PayloadScratch,
    bytes: &Bytes,
) -> Result<Bytes, WireFault>
    ensures payload { spec.Gives result (read_payload bytes.now) }
    // The length comes first: to test it takes no memory.
    ensures too_long { longest_body < length bytes.now → IsErrOf result WireFault.TooLong }
{
    if bytes.len() > LONGEST_BODY {
        return Err(WireFault::TooLong);
    }
    if bytes.is_empty() {
        return Ok(Bytes::from_static(b"{}"));
    }
    check_json(alloc, scratch, bytes.as_slice())?;
    Ok(bytes.clone()?)
}

/// Whether one of the texts is the event.
fn names_event(texts: &[Text], event: &str) -> bool
    ensures { result ≡ list_any (λ t. bytes_eq t event.now) texts.now }
{
    texts.iter().any(|text| text.as_str() == event)
}

/// Whether each of the texts is INVOKE or SHUTDOWN.
fn are_events(texts: &[Text]) -> bool
    ensures { result ≡ list_all is_event texts.now }
{
    texts.iter().all(|text| text.as_str() == "INVOKE" || text.as_str() == "SHUTDOWN")
}

/// The events that the texts name.
fn named_events(texts: &[Text]) -> Result<Events, WireFault>
    ensures { spec.Gives result (events_of texts.now) }
{
    if !are_events(texts) {
        return Err(WireFault::BadEvent);
    }
    Ok(Events {
        invoke: names_event(texts, "INVOKE"),
        shutdown: names_event(texts, "SHUTDOWN"),
    })
}

/// The events that an object asks for.
fn registration(alloc: Global, value: &Value) -> Result<Events, WireFault>
    ensures { spec.Gives result (registration_of (view value.now)) }
{
    if value.as_object().is_none() {
        return Err(WireFault::BadShape);
    }
    let texts = texts_or_none(alloc, value, "events")?;
    named_events(texts.as_slice())
}

/// Reads the body of a registration: a JSON object of at most 6,291,456 bytes, whose `events` is a
/// list of `INVOKE` and `SHUTDOWN`, each any number of times. Without `events` it asks for none; other
/// members are ignored (Extensions API, Register).
///
/// # Errors
/// `TooLong`; `NotJson`; `BadShape` unless it is an object whose `events`, if it has any, is a list of
/// texts; `BadEvent` for a text that is neither event; `OutOfMemory`.
#[tactic(auto, unfolding(crate::specs::Requests::read_events))]
pub fn read_register(alloc: Global, bytes: &[u8]) -> Result<Events, WireFault>
    ensures events { spec.Gives result (read_events bytes.now) }
    // The length comes first: to test it takes no memory.
    ensures too_long { longest_body < length bytes.now → IsErrOf result WireFault.TooLong }
{
    if bytes.len() > LONGEST_BODY {
        return Err(WireFault::TooLong);
    }
    let value = json_of(alloc, bytes)?;
    registration(alloc, &value)
}

/// The reservation that an object asks for.
fn reservation(value: &Value) -> Result<u32, WireFault>
    ensures { spec.Gives result (reservation_of (view value.now)) }
{
    match value.get("ReservedConcurrentExecutions") {
        None => Err(WireFault::BadShape),
        Some(count) => number_u32(count),
    }
}

/// Reads the body of a PutFunctionConcurrency: a JSON object of at most 6,291,456 bytes with a
/// whole number `ReservedConcurrentExecutions` below 2^32; other members are ignored.
///
/// # Errors
/// `TooLong`, `NotJson`, `BadShape` and `OutOfMemory`.
#[tactic(auto, unfolding(crate::specs::Requests::read_count))]
pub fn read_reservation(alloc: Global, bytes: &[u8]) -> Result<u32, WireFault>
    ensures count { spec.Gives result (read_count bytes.now) }
    // The length comes first: to test it takes no memory.
    ensures too_long { longest_body < length bytes.now → IsErrOf result WireFault.TooLong }
{
    if bytes.len() > LONGEST_BODY {
        return Err(WireFault::TooLong);
    }
    let value = json_of(alloc, bytes)?;
    reservation(&value)
}
