//! The ports all of whose requests are handed over.

ghost use Rattle.std.specs.Prelude.{◌≡◌, ◌==◌, ◌∷◌, [], IfOk, position, if◌then◌else◌, Some, None, option_map};
ghost use Rattle.std.specs.List.{slice_split};
ghost use Rattle.service_port.specs.Handled as spec;
ghost use Rattle.service_port.specs.Views.{pieces_left};

use arn_ids::read_number;
use std::alloc::{AllocError, Global};
use std::marker::Model;

/// The most ports that a list has.
const MOST: usize = 64;

/// Ports all of whose requests are handed over to handlers, in the order in which they are listed.
#[derive(Debug, Drop)]
pub struct HandledPorts {
    numbers: Vec<u16>,
}

impl Model for HandledPorts {
    ghost use Rattle.std.specs.Prelude.{ℕ, List};

    ghost Value = { List ℕ };

    ghost view = { λ ports. ports.numbers.items };
}

/// Returns the port that a text names: decimal, from 1 to 65,535, without leading zeros.
fn port_in(text: &[u8]) -> Option<u16>
    ensures { result ≡ spec.port_in text.now }
{
    let number = read_number(text, 65_535)?;
    if number == 0 {
        None
    } else {
        Some(number as u16)
    }
}

/// Adds a port to a list. Returns whether it is added: if it is not there yet, and there is room.
fn add(numbers: &mut Vec<u16>, number: u16) -> Result<bool, AllocError>
    ensures { IfOk result (λ is_added.
        spec.with_port numbers.old.items number ≡ if is_added then Some numbers.new.items else None) }
{
    if numbers.len() >= MOST || numbers.as_slice().contains(&number) {
        return Ok(false);
    }
    numbers.push(number)?;
    Ok(true)
}

/// Adds the port that a text names. Returns whether it is added.
fn add_named(numbers: &mut Vec<u16>, text: &[u8]) -> Result<bool, AllocError>
    ensures { IfOk result (λ is_added.
        spec.with_named numbers.old.items text.now ≡ if is_added then Some numbers.new.items else None) }
{
    match port_in(text) {
        Some(number) => add(numbers, number),
        None => Ok(false),
    }
}

/// Returns the position of the first comma.
fn comma_at(bytes: &[u8]) -> Option<usize>
    ensures { result ≡ position (λ b. b == 44) bytes.now }
{
    bytes.iter().position(|b| *b == b',')
}

/// Returns the piece before the first comma, and what follows it.
fn cut(bytes: &[u8]) -> (&[u8], Option<&[u8]>)
    ensures { slice_split (λ b. b == 44) bytes.now ≡ result.0.now ∷ pieces_left result.1 }
{
    match comma_at(bytes) {
        Some(at) => (&bytes[..at], Some(&bytes[at + 1..])),
        None => (bytes, None),
    }
}

/// Returns the ports that a text lists between commas.
fn ports_in(alloc: Global, text: &[u8]) -> Result<Option<Vec<u16>>, AllocError>
    ensures { IfOk result (λ ports.
        option_map (λ numbers. numbers.items) ports ≡ spec.with_all [] (slice_split (λ b. b == 44) text.now)) }
{
    let mut numbers = Vec::new(alloc);
    let mut rest = Some(text);
    while let Some(bytes) = rest {
        let (piece, after) = cut(bytes);
        if !add_named(&mut numbers, piece)? {
            return Ok(None);
        }
        rest = after;
    }
    Ok(Some(numbers))
}

impl HandledPorts {
    /// Returns an empty list. It allocates nothing.
    pub fn none(alloc: Global) -> HandledPorts
        ensures { result ≡ [] }
    {
        HandledPorts {
            numbers: Vec::new(alloc),
        }
    }

    /// Reads a list of ports: decimal numbers from 1 to 65,535, without leading zeros, separated by
    /// commas, each once, at most 64. An empty text lists none. Returns `None` if the text is not such a list.
    ///
    /// # Errors
    /// If an allocation fails.
    pub fn read(alloc: Global, text: &str) -> Result<Option<HandledPorts>, AllocError>
        ensures { IfOk result (λ ports. ports ≡ spec.listed_in text.now) }
    {
        if text.is_empty() {
            return Ok(Some(HandledPorts::none(alloc)));
        }
        match ports_in(alloc, text.as_bytes())? {
            Some(numbers) => Ok(Some(HandledPorts { numbers })),
            None => Ok(None),
        }
    }

    /// Returns the numbers of the ports, in their order.
    pub fn numbers(&self) -> &[u16]
        ensures { result.now ≡ self.now }
    {
        self.numbers.as_slice()
    }
}
