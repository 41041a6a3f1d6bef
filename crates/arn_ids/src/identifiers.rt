//! Identifiers of requests, extensions and events: UUIDs of version 8 (RFC 9562, section 5.8).
//!
//! The high 64 bits are the salt, with the version in place of its bits 12 to 15. The low 64 bits
//! are four bits of the kind, twelve of a number and 48 of a count.

ghost use Rattle.std.specs.Prelude.{◌≡◌, ◌<◌, ◌^◌, Some};
ghost use Rattle.arn_ids.specs.Identifiers.{high_word, low_word as low_word_of, identifier_of, kind_of};
ghost use Rattle.arn_ids.specs.Identifiers.{parts_of, parts_of_words};
ghost use Rattle.arn_ids.specs.declared.identifiers.IdKind.TheVariants.{Request, Extension, Event};

use crate::{EnvNo, FnNo};
use uuid::Uuid;

/// What an identifier identifies.
#[derive(Clone, Copy, Debug, PartialEq, Eq)]
pub enum IdKind {
    /// An invocation, whose number is that of its function.
    Request,
    /// An extension, whose number is that of its environment.
    Extension,
    /// An event that was sent to an extension, whose number is that of its environment.
    Event,
}

/// The parts of an identifier.
#[derive(Clone, Copy, Debug, PartialEq, Eq)]
pub struct IdParts {
    /// The high 64 bits, unchanged.
    pub salt_word: u64,
    /// What it identifies.
    pub kind: IdKind,
    /// The function's or the environment's number, below 2^12.
    pub number: u32,
    /// Its position among the identifiers of this kind and number, from 1; below 2^48.
    pub count: u64,
}

/// Returns the high 64 bits of each identifier that is made with this salt.
pub fn salt_word(salt: u64) -> u64
    ensures { result ≡ high_word salt }
{
    salt / 0x1_0000 * 0x1_0000 + 0x8000 + salt % 0x1000
}

/// Returns the identifier of a function's `count`-th invocation (Runtime API,
/// `Lambda-Runtime-Aws-Request-Id`).
pub fn request_id(salt: u64, function: FnNo, count: u64) -> Uuid
    requires number { function < 4096 }
    requires count { count < 2 ^ 48 }
    ensures value { result ≡ identifier_of salt Request function count }
    ensures reads_back { parts_of result
        ≡ Some (record { salt_word = high_word salt; kind = Request; number = function; count = count }) }
{
    identifier(salt, IdKind::Request, function, count)
}

/// Returns the identifier of an environment's `count`-th registered extension (Extensions API,
/// `Lambda-Extension-Identifier`).
pub fn extension_id(salt: u64, env: EnvNo, count: u64) -> Uuid
    requires number { env < 4096 }
    requires count { count < 2 ^ 48 }
    ensures value { result ≡ identifier_of salt Extension env count }
    ensures reads_back { parts_of result
        ≡ Some (record { salt_word = high_word salt; kind = Extension; number = env; count = count }) }
{
    identifier(salt, IdKind::Extension, env, count)
}

/// Returns the identifier of the `count`-th event that was sent to an environment's extensions
/// (Extensions API, `Lambda-Extension-Event-Identifier`).
pub fn event_id(salt: u64, env: EnvNo, count: u64) -> Uuid
    requires number { env < 4096 }
    requires count { count < 2 ^ 48 }
    ensures value { result ≡ identifier_of salt Event env count }
    ensures reads_back { parts_of result
        ≡ Some (record { salt_word = high_word salt; kind = Event; number = env; count = count }) }
{
    identifier(salt, IdKind::Event, env, count)
}

/// Returns the parts of an identifier, or `None` if its version isn't 8 or its kind isn't one of
/// the three.
#[tactic(auto, unfolding(crate::specs::Identifiers::parts_of))]
pub fn id_parts(id: &Uuid) -> Option<IdParts>
    ensures { result ≡ parts_of id.now }
{
    let (high, low) = id.as_u64_pair();
    parts_of_two(high, low)
}

fn parts_of_two(high: u64, low: u64) -> Option<IdParts>
    ensures { result ≡ parts_of_words high low }
{
    if high / 0x1000 % 16 != 8 {
        return None;
    }
    let kind = kind_of_bits(low / (1 << 60))?;
    Some(IdParts {
        salt_word: high,
        kind,
        number: (low / (1 << 48) % 0x1000) as u32,
        count: low % (1 << 48),
    })
}

fn kind_of_bits(bits: u64) -> Option<IdKind>
    ensures { result ≡ kind_of bits }
{
    match bits {
        8 => Some(IdKind::Request),
        10 => Some(IdKind::Extension),
        11 => Some(IdKind::Event),
        _ => None,
    }
}

fn low_word(kind: IdKind, number: u32, count: u64) -> u64
    requires number { number < 4096 }
    requires count { count < 2 ^ 48 }
    ensures { result ≡ low_word_of kind number count }
{
    let bits = match kind {
        IdKind::Request => 8,
        IdKind::Extension => 10,
        IdKind::Event => 11,
    };
    bits * (1 << 60) + number as u64 * (1 << 48) + count
}

#[tactic(auto, unfolding(crate::specs::Identifiers::identifier_of))]
fn identifier(salt: u64, kind: IdKind, number: u32, count: u64) -> Uuid
    requires number { number < 4096 }
    requires count { count < 2 ^ 48 }
    ensures value { result ≡ identifier_of salt kind number count }
    ensures reads_back { parts_of result
        ≡ Some (record { salt_word = high_word salt; kind = kind; number = number; count = count }) }
{
    Uuid::from_u64_pair(salt_word(salt), low_word(kind, number, count))
}
