//! Tests whether bytes are JSON without building their value, which can take many times the memory of
//! the text.

ghost use Rattle.std.specs.Prelude.{◌≡◌, ◌<◌, length, ◌==◌, slice_index, Some, None, IfOk, IsOk};
ghost use Rattle.std.specs.Prelude.{OnOk, IsTrue, MatchResult, true, false, is_some};
ghost use Rattle.json.specs.Json.{skip_value};
ghost use Rattle.json.specs.Reads.{skip_items, skip_members};
ghost use Rattle.serde_json.specs.Read.{number_of, number_from, float_of, read};
ghost use Rattle.lambda_wire.specs.Reading as spec;
ghost use Rattle.lambda_wire.specs.JsonParts.{all_in_range};

use crate::fault::WireFault;
use crate::payload_scratch::PayloadScratch;
use fast_float::Numeral;
use json::{Invalid, Reader, Scratch, Token};
use std::alloc::{AllocError, Global};

/// How deep arrays and objects may nest: as deep as if a value is built.
const MAX_DEPTH: usize = 127;

/// Whether the float next to the number is finite.
fn is_near_float(negative: bool, numeral: &Numeral<'_>) -> bool
    ensures { result ≡ is_some (float_of negative numeral.now) }
{
    numeral.to_float::<f64>(negative).is_finite()
}

/// Whether a number without a sign is in range.
fn is_unsigned(numeral: &Numeral<'_>) -> bool
    ensures { result ≡ is_some (number_from false numeral.now) }
{
    match numeral.to_u64() {
        Some(_) => true,
        None => is_near_float(false, numeral),
    }
}

/// Whether a number behind a minus sign is in range.
fn is_negative(numeral: &Numeral<'_>) -> bool
    ensures { result ≡ is_some (number_from true numeral.now) }
{
    if let Some(n) = numeral.to_i64(true) {
        if n < 0 {
            return true;
        }
    }
    is_near_float(true, numeral)
}

fn has_minus(bytes: &[u8]) -> bool
    ensures value { result ≡ (slice_index bytes.now 0 == 45) }
    ensures some { IsTrue result → 0 < length bytes.now }
{
    !bytes.is_empty() && bytes[0] == b'-'
}

/// Whether the text of a number is one that is in range.
fn is_readable(text: &str) -> bool
    ensures { result ≡ is_some (number_of text.now) }
{
    let bytes = text.as_bytes();
    if has_minus(bytes) {
        is_negative(&Numeral::scan(&bytes[1..]))
    } else {
        is_unsigned(&Numeral::scan(bytes))
    }
}

/// Skips one value whose arrays and objects nest at most `depth` deep, and tests the range of each of its
/// numbers. It stops at the first fault; after an error the reader is unusable.
#[cycle(check)]
#[inline(always)]
fn check_value(reader: &mut Reader<'_>, depth: usize) -> Result<(), Invalid>
    ensures value { MatchResult result (λ _. skip_value depth reader.old ≡ Some reader.new)
        (λ _. all_in_range reader.old ≡ true → skip_value depth reader.old ≡ None) }
    ensures numbers { OnOk result (all_in_range reader.old ≡ all_in_range reader.new) }
    ensures shorter { OnOk result (length reader.new < length reader.old) }
{
    let token = reader.next().ok_or(Invalid)?;
    match token {
        Token::Number(number) if !is_readable(number) => Err(Invalid),
        Token::String(_) | Token::Number(_) | Token::Bool(_) | Token::Null => Ok(()),
        Token::EndObject | Token::EndArray | Token::Key(_) | Token::Bad => Err(Invalid),
        Token::BeginArray => if depth == 0 {
            Err(Invalid)
        } else {
            check_items(reader, depth - 1)
        },
        Token::BeginObject => if depth == 0 {
            Err(Invalid)
        } else {
            check_members(reader, depth - 1)
        },
    }
}

/// Skips the items of an array and the bracket that closes it.
#[cycle(check)]
#[inline(never)]
fn check_items(reader: &mut Reader<'_>, depth: usize) -> Result<(), Invalid>
    ensures value { MatchResult result (λ _. skip_items depth reader.old ≡ Some reader.new)
        (λ _. all_in_range reader.old ≡ true → skip_items depth reader.old ≡ None) }
    ensures numbers { OnOk result (all_in_range reader.old ≡ all_in_range reader.new) }
    ensures shorter { OnOk result (length reader.new < length reader.old) }
{
    while !reader.take_end_array() {
        check_value(reader, depth)?;
    }
    Ok(())
}

/// Skips the members of an object and the brace that closes it.
#[cycle(check)]
#[inline(never)]
fn check_members(reader: &mut Reader<'_>, depth: usize) -> Result<(), Invalid>
    ensures value { MatchResult result (λ _. skip_members depth reader.old ≡ Some reader.new)
        (λ _. all_in_range reader.old ≡ true → skip_members depth reader.old ≡ None) }
    ensures numbers { OnOk result (all_in_range reader.old ≡ all_in_range reader.new) }
    ensures shorter { OnOk result (length reader.new < length reader.old) }
{
    while let Some(_) = reader.next_key()? {
        check_value(reader, depth)?;
    }
    Ok(())
}

/// Whether the text has a JSON value.
#[tactic(auto, using(crate::proofs::JsonPartsLemmas::read_by_parts))]
fn is_readable_json(text: &str, scratch: &mut Scratch) -> Result<bool, AllocError>
    ensures { IfOk result (λ readable. readable ≡ is_some (read text.now)) }
{
    let mut reader = Reader::new(text, scratch)?;
    Ok(check_value(&mut reader, MAX_DEPTH).is_ok() && reader.next().is_none())
}

/// Whether the text has a JSON value; it is read in this scratch memory.
fn is_json(alloc: Global, room: &mut PayloadScratch, text: &str) -> Result<bool, AllocError>
    ensures { IfOk result (λ readable. readable ≡ is_some (read text.now)) }
{
    let mut scratch = room.take(alloc, text.len())?;
    let readable = is_readable_json(text, &mut scratch)?;
    room.keep(scratch, text.len());
    Ok(readable)
}

/// Returns `Ok` if `json_of` reads the bytes, and otherwise its fault, lack of memory aside.
pub(crate) fn check_json(
    alloc: Global,
    room: &mut PayloadScratch,
    bytes: &[u8],
) -> Result<(), WireFault>
    ensures { MatchResult result (λ _. IsOk (spec.json_in bytes.now))
        (λ e. spec.Fails e (spec.json_in bytes.now)) }
{
    let Ok(text) = str::from_utf8(bytes) else {
        return Err(WireFault::NotJson);
    };
    if is_json(alloc, room, text)? {
        Ok(())
    } else {
        Err(WireFault::NotJson)
    }
}
