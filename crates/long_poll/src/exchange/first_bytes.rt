//! The first bytes of a request's body.

ghost use Rattle.std.specs.Prelude.{◌≡◌, ◌==◌, ◌+◌, ◌≤◌, ◌++◌, [], length, take, IfOk, OnOk};
ghost use Rattle.long_poll.specs.Bodies.{most_bytes};

use bytes::Bytes;
use std::alloc::{AllocError, Global};
use std::marker::Model;
use std::mem;

/// How many bytes of a body are read: one more than a body may have (Lambda quotas: invocation
/// payload), so that a body that is too long is known by its length.
const MOST_BYTES: usize = 6_291_457;

/// The first bytes of a body, 6,291,457 at most. Contracts see the list of them.
#[derive(Drop)]
pub(crate) struct FirstBytes {
    bytes: Vec<u8>,
}

impl Model for FirstBytes {
    ghost use Rattle.std.specs.Prelude.{ℕ, List, length, ◌≤◌};
    ghost use Rattle.long_poll.specs.Bodies.{most_bytes};

    ghost Value = { List ℕ };

    ghost view = { λ first. first.bytes.items };

    ghost invariant = { λ first. length first.bytes.items ≤ most_bytes };
}

impl FirstBytes {
    /// Returns an empty list. It takes no memory.
    pub(crate) fn none(alloc: Global) -> FirstBytes
        ensures { result ≡ [] }
    {
        FirstBytes {
            bytes: Vec::new(alloc),
        }
    }

    /// Takes out the bytes, in memory of their own that is no larger than they need.
    pub(crate) fn taken(&mut self, alloc: Global) -> Result<Bytes, AllocError>
        ensures bytes { IfOk result (λ bytes. bytes ≡ self.old) }
        ensures few { length self.old ≤ most_bytes }
    {
        let mut bytes = mem::replace(&mut self.bytes, Vec::new(alloc));
        bytes.shrink_to_fit();
        Ok(Bytes::from_vec(bytes)?)
    }

    fn len(&self) -> usize
        ensures value { result ≡ length self.now }
        ensures few { length self.now ≤ most_bytes }
    {
        self.bytes.len()
    }

    /// Returns whether no more bytes are read.
    pub(crate) fn is_full(&self) -> bool
        ensures { result ≡ (length self.now == most_bytes) }
    {
        self.len() == MOST_BYTES
    }

    /// Takes as many of the bytes as are still to be read; `expected` more are expected after them.
    pub(crate) fn add(&mut self, more: Bytes, expected: u64) -> Result<(), AllocError>
        ensures { OnOk result (self.new ≡ take most_bytes (self.old ++ more)) }
    {
        let mut more = more;
        more.truncate(MOST_BYTES - self.len());
        self.push(more.as_slice(), expected)
    }

    /// Takes more bytes. Room for the expected ones is made at once, so that the bytes of a body whose
    /// length is known are moved once.
    fn push(&mut self, more: &[u8], expected: u64) -> Result<(), AllocError>
        requires { length self.old + length more.now ≤ most_bytes }
        ensures { OnOk result (self.new ≡ self.old ++ more.now) }
    {
        if expected > 0 {
            let room = (MOST_BYTES - self.len()) as u64;
            let wanted = expected.saturating_add(more.len() as u64).min(room);
            self.bytes.reserve_exact(wanted as usize)?;
        }
        self.bytes.extend_from_slice(more)
    }
}
