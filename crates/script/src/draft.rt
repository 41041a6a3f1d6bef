//! A text before its bodies are written, which is taken in pieces.

ghost use Rattle.std.specs.Prelude.{◌≡◌, ◌≢◌, ◌<◌, ◌≤◌, ◌↔◌, ◌++◌, [], length, take, drop, IsTrue, OnOk, OnErr, IfOk};
ghost use Rattle.std.specs.Prelude.{IfSome, IfNone};
ghost use Rattle.std.specs.List.{flat_map};
ghost use Rattle.script.specs.Drafts.{coded, longest_piece, part_text, slice_of};

use crate::coding::{Coding, push_coded};
use crate::sink::Sink;
use crate::words::push_escaped;
use bytes::Bytes;
use std::alloc::{AllocError, Global};
use std::collections::VecDeque;
use std::marker::Model;
use std::mem;

/// The most bytes of a piece.
const PIECE: usize = 65_536;

/// A text, and the body that follows it.
#[derive(Drop)]
pub(crate) struct Part {
    text: Vec<u8>,
    coding: Coding,
    body: Bytes,
}

/// A text in which no body is written yet: short texts, and between them the bodies, which it shares with the
/// history. So it takes little time and memory, whatever the length of the bodies: a caller makes it under a lock,
/// and *takes* it piece by piece after the lock is released. A piece has the bodies written out, of which no other
/// piece is in memory. Contracts see the text that is left.
#[derive(Drop)]
pub struct Draft {
    alloc: Global,
    parts: VecDeque<Part>,
    last: Vec<u8>,
}

impl Model for Draft {
    ghost use Rattle.std.specs.Prelude.{ℕ, List, ◌++◌};
    ghost use Rattle.std.specs.List.{flat_map};
    ghost use Rattle.script.specs.Drafts.{part_text};

    ghost Value = { List ℕ };

    ghost view = { λ d. flat_map part_text d.parts.items ++ d.last.items };
}

fn push_part(alloc: Global, out: &mut Vec<u8>, part: &Part) -> Result<(), AllocError>
    ensures { OnOk result (out.new.items ≡ out.old.items ++ part_text part.now) }
{
    out.extend_from_slice(&part.text)?;
    push_coded(alloc, out, part.coding, part.body.as_slice())
}

/// Adds parts, the first one first, until none is left.
fn push_parts(
    alloc: Global,
    out: &mut Vec<u8>,
    parts: &mut VecDeque<Part>,
) -> Result<(), AllocError>
    ensures { OnOk result ((out.new.items ≡ out.old.items ++ flat_map part_text parts.old.items)
        × (parts.new.items ≡ [])) }
{
    while let Some(part) = parts.pop_front() {
        push_part(alloc, out, &part)?;
    }
    Ok(())
}

/// Writes a slice of a body.
fn written(alloc: Global, coding: Coding, body: &Bytes) -> Result<Vec<u8>, AllocError>
    ensures { IfOk result (λ text. text.items ≡ coded coding body.now) }
{
    let mut text = Vec::new(alloc);
    text.reserve_exact(coding.most(body.len()))?;
    push_coded(alloc, &mut text, coding, body.as_slice())?;
    Ok(text)
}

impl Part {
    /// Returns the most bytes that its text has.
    fn most(&self) -> usize {
        self.coding
            .most(self.body.len())
            .saturating_add(self.text.len())
    }

    /// Returns whether it has neither a plain text nor a body.
    fn is_spent(&self) -> bool
        ensures { IsTrue result ↔ (part_text self.now ≡ []) }
    {
        self.text.is_empty() && self.body.is_empty()
    }

    /// Returns whether its body is too long to be written at once.
    fn is_long(&self) -> bool
        ensures { IsTrue result ↔ (slice_of self.now.coding < length self.now.body) }
    {
        self.coding.slice() < self.body.len()
    }

    /// Takes a slice of its body, and writes it.
    fn take_slice(&mut self, alloc: Global) -> Result<Vec<u8>, AllocError>
        requires { slice_of self.old.coding < length self.old.body }
        ensures left { IfOk result (λ piece. (self.new.text ≡ self.old.text)
            × (coded self.old.coding self.old.body ≡ piece.items ++ coded self.new.coding self.new.body)) }
        ensures some { IfOk result (λ piece. piece.items ≢ []) }
    {
        let front = self.body.split_to(self.coding.slice())?;
        written(alloc, self.coding, &front)
    }
}

/// Takes the first part that is not empty, with those before it.
fn first_part(parts: &mut VecDeque<Part>) -> Option<Part>
    ensures some { IfSome result (λ part. part_text part ≢ []) }
    ensures joined { IfSome result
        (λ part. flat_map part_text parts.old.items ≡ part_text part ++ flat_map part_text parts.new.items) }
    ensures none { IfNone result ((parts.new.items ≡ []) × (flat_map part_text parts.old.items ≡ [])) }
{
    while let Some(part) = parts.pop_front() {
        if !part.is_spent() {
            return Some(part);
        }
    }
    None
}

/// Splits a text behind its first bytes, as many as `at` says.
fn split_text(text: Vec<u8>, at: usize) -> Result<(Bytes, Bytes), AllocError>
    requires { at ≤ length text.items }
    ensures { IfOk result (λ both. (both.0 ≡ take at text.items) × (both.1 ≡ drop at text.items)) }
{
    let mut rest = Bytes::from_vec(text).map_err(AllocError::from)?;
    let front = rest.split_to(at)?;
    Ok((front, rest))
}

impl Draft {
    /// Returns an empty text.
    pub fn new(alloc: Global) -> Draft
        ensures { result ≡ [] }
    {
        Draft::of(alloc, Vec::new(alloc))
    }

    /// Returns a text that has no body.
    pub fn of(alloc: Global, text: Vec<u8>) -> Draft
        ensures { result ≡ text.items }
    {
        Draft {
            alloc,
            parts: VecDeque::new(alloc),
            last: text,
        }
    }

    /// Adds bytes, unchanged.
    ///
    /// # Errors
    /// Only if memory is refused; the text is then as it was.
    pub fn push(&mut self, bytes: &[u8]) -> Result<(), AllocError>
        ensures ok { OnOk result (self.new ≡ self.old ++ bytes.now) }
        ensures err { OnErr result (self.new ≡ self.old) }
    {
        self.last.extend_from_slice(bytes)
    }

    /// Adds a body in a coding, and shares it.
    ///
    /// # Errors
    /// Only if memory is refused; the text is then as it was.
    pub fn share(&mut self, coding: Coding, body: &Bytes) -> Result<(), AllocError>
        ensures ok { OnOk result (self.new ≡ self.old ++ coded coding body.now) }
        ensures err { OnErr result (self.new ≡ self.old) }
    {
        let body = body.clone()?;
        self.parts.reserve(1)?;
        let text = mem::replace(&mut self.last, Vec::new(self.alloc));
        self.parts.push_back_reserved(Part { text, coding, body });
        Ok(())
    }

    /// Returns whether nothing is left.
    pub fn is_over(&self) -> bool
        ensures { IsTrue result → self.now ≡ [] }
    {
        self.parts.is_empty() && self.last.is_empty()
    }

    /// Returns the most bytes that are left.
    fn most(&self) -> usize {
        let mut most = self.last.len();
        for part in &self.parts {
            most = most.saturating_add(part.most());
        }
        most
    }

    /// Takes all that is left.
    fn take_whole(&mut self) -> Result<Vec<u8>, AllocError>
        ensures { IfOk result (λ text. (text.items ≡ self.old) × (self.new ≡ [])) }
    {
        let most = self.most();
        let last = mem::replace(&mut self.last, Vec::new(self.alloc));
        if self.parts.is_empty() {
            return Ok(last);
        }
        let mut text = Vec::new(self.alloc);
        text.reserve_exact(most)?;
        push_parts(self.alloc, &mut text, &mut self.parts)?;
        text.extend_from_slice(&last)?;
        Ok(text)
    }

    /// Takes the plain text of a part, or a slice of its body if it has none. What is left of the part stays in front.
    fn take_of(&mut self, mut part: Part) -> Result<Vec<u8>, AllocError>
        requires { part_text part ≢ [] }
        ensures joined { IfOk result (λ piece. part_text part ++ self.old ≡ piece.items ++ self.new) }
        ensures some { IfOk result (λ piece. piece.items ≢ []) }
    {
        if !part.text.is_empty() {
            let piece = mem::replace(&mut part.text, Vec::new(self.alloc));
            self.parts.push_front(part).map_err(AllocError::from)?;
            return Ok(piece);
        }
        if !part.is_long() {
            return written(self.alloc, part.coding, &part.body);
        }
        let piece = part.take_slice(self.alloc)?;
        self.parts.push_front(part).map_err(AllocError::from)?;
        Ok(piece)
    }

    /// Takes the plain text in front of the first body, or behind the last one; or a slice of the first body.
    fn take_part(&mut self) -> Result<Vec<u8>, AllocError>
        ensures joined { IfOk result (λ piece. self.old ≡ piece.items ++ self.new) }
        ensures some { IfOk result (λ piece. piece.items ≡ [] → self.old ≡ []) }
    {
        match first_part(&mut self.parts) {
            Some(part) => self.take_of(part),
            None => Ok(mem::replace(&mut self.last, Vec::new(self.alloc))),
        }
    }

    /// Puts a plain text back in front.
    fn put_back(&mut self, body: Bytes) -> Result<(), AllocError>
        ensures { OnOk result (self.new ≡ body ++ self.old) }
    {
        let part = Part {
            text: Vec::new(self.alloc),
            coding: Coding::Plain,
            body,
        };
        self.parts.push_front(part).map_err(AllocError::from)
    }

    /// Puts back what a text that was taken has beyond so many bytes, and returns those.
    fn cut(&mut self, text: Vec<u8>, most: usize) -> Result<Vec<u8>, AllocError>
        requires { 0 < most }
        ensures joined { IfOk result (λ piece. text.items ++ self.old ≡ piece.items ++ self.new) }
        ensures some { IfOk result (λ piece. piece.items ≡ [] → text.items ≡ []) }
        ensures short { IfOk result (λ piece. length piece.items ≤ most) }
    {
        if text.len() <= most {
            return Ok(text);
        }
        let (front, rest) = split_text(text, most)?;
        self.put_back(rest)?;
        written(self.alloc, Coding::Plain, &front)
    }

    /// Takes the first piece of the text that is left, of at most 64 KiB: all of it, if it cannot have more;
    /// otherwise a plain text between two bodies, or a slice of a body. A piece is empty only if nothing is left.
    ///
    /// # Errors
    /// Only if memory is refused. What is then left is not stated.
    pub fn take(&mut self) -> Result<Vec<u8>, AllocError>
        ensures joined { IfOk result (λ piece. self.old ≡ piece.items ++ self.new) }
        ensures some { IfOk result (λ piece. piece.items ≡ [] → self.old ≡ []) }
        ensures short { IfOk result (λ piece. length piece.items ≤ longest_piece) }
    {
        let text = if self.most() <= PIECE {
            self.take_whole()?
        } else {
            self.take_part()?
        };
        self.cut(text, PIECE)
    }
}

impl Sink for Draft {
    ghost text = { λ d. d };

    fn push_bytes(&mut self, bytes: &[u8]) -> Result<(), AllocError> {
        self.push(bytes)
    }

    fn push_escaped(&mut self, bytes: &[u8]) -> Result<(), AllocError> {
        push_escaped(&mut self.last, bytes)
    }

    fn push_body(&mut self, body: &Bytes) -> Result<(), AllocError> {
        self.share(Coding::Percent, body)
    }
}
