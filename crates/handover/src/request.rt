//! A request that is handed over.

ghost use Rattle.std.specs.Prelude.{◌≡◌, ◌++◌, codes, decimal, drop, IfOk};
ghost use Rattle.std.specs.String.{string_bytes};
ghost use Rattle.handover.specs.Counters.{bytes_of};
ghost use Rattle.handover.specs.Heads.{line_of};

use bytes::Bytes;
use std::alloc::{AllocError, Global};

/// A request that is handed over: the text of its head, and its body, which is shared and not copied.
#[derive(Drop)]
pub struct Request {
    /// Its head, as [`crate::write_head`] writes it.
    pub head: Vec<u8>,
    /// Its body, byte for byte.
    pub body: Bytes,
}

impl Request {
    /// Returns how many bytes it has.
    pub fn bytes(&self) -> u64
        ensures { result ≡ bytes_of self.now }
    {
        self.head.len() as u64 + self.body.len() as u64
    }

    /// Writes the line with which a handler gets the request, behind which comes the body: its head with its
    /// identifier as the first member, and a line feed. The line has no other line feed.
    ///
    /// # Errors
    /// If memory is refused.
    pub fn line(&self, alloc: Global, id: u64) -> Result<Vec<u8>, AllocError>
        ensures { IfOk result (λ line. line.items ≡ line_of id self.now.head.items) }
    {
        let mut line = first_member(alloc, id)?.into_bytes();
        line.extend_from_slice(behind_brace(&self.head))?;
        line.push(b'\n')?;
        Ok(line)
    }
}

/// Writes the brace of an object and its member with the identifier.
fn first_member(alloc: Global, id: u64) -> Result<String, AllocError>
    ensures { IfOk result (λ text. string_bytes text ≡ codes "{\"id\":" ++ decimal id ++ codes ",") }
{
    format!(in alloc; "{{\"id\":{id},")
}

/// Returns a text without its first byte.
fn behind_brace(text: &[u8]) -> &[u8]
    ensures { result.now ≡ drop 1 text.now }
{
    match text {
        [] => text,
        [_, rest @ ..] => rest,
    }
}
