//! A body that is passed on while it comes, piece by piece, through a bounded buffer.

ghost use Rattle.std.specs.Prelude.{◌≡◌, ◌≤◌, [], length, take, drop, IfOk, OnOk, OnErr};
ghost use Rattle.handover.specs.Pipes as spec;
ghost use Rattle.handover.specs.declared.pipe.Ending.TheVariants as endings;

use bytes::Bytes;
use std::alloc::AllocError;
use std::marker::Model;

/// The most bytes that a pipe holds.
const MOST_HELD: usize = 65_536;

/// How a body has ended at its sender.
#[derive(Clone, Copy, Debug, PartialEq, Eq)]
pub enum Ending {
    /// More may come.
    Open,
    /// It has come to its end.
    Whole,
    /// It has broken off.
    Broken,
}

/// What has become of bytes that were to be put.
#[derive(Clone, Copy, Debug, PartialEq, Eq)]
pub enum Put {
    /// As many as a pipe holds are in it.
    Done,
    /// None: what was put before has not been taken yet.
    Full,
    /// None: the body has ended, or its receiver has gone away.
    Over,
}

/// What is taken out.
#[derive(Drop)]
pub enum Taken {
    /// Bytes that come next. They are never none.
    Piece(Bytes),
    /// Nothing yet.
    Nothing,
    /// Nothing more: all that was put has been taken, and the body has come to its end.
    Whole,
    /// Nothing more: the body has broken off, or its receiver has gone away.
    Broken,
}

/// A body that is passed on: what its sender has put in and its receiver has not taken out yet, and how each of them has
/// ended. Contracts see these.
#[derive(Drop)]
pub struct Pipe {
    // Never without a byte.
    piece: Option<Bytes>,
    ending: Ending,
    is_abandoned: bool,
}

impl Model for Pipe {
    ghost use Rattle.std.specs.Prelude.{IfSome};
    ghost use Rattle.handover.specs.Pipes.{Passing, IsPiece, bytes_in};

    ghost Value = { Passing };

    ghost view = { λ p. record { held = bytes_in p.piece; ending = p.ending; is_abandoned = p.is_abandoned } };

    ghost invariant = { λ p. IfSome p.piece IsPiece };
}

/// Cuts as many bytes off as a pipe holds.
///
/// # Errors
/// If memory is refused. No byte is then cut off.
fn cut(rest: &mut Bytes) -> Result<Bytes, AllocError>
    ensures front { IfOk result (λ front. front ≡ take spec.most_held rest.old) }
    ensures few { IfOk result (λ front. length front ≤ spec.most_held) }
    ensures rest { OnOk result (rest.new ≡ drop spec.most_held rest.old) }
    ensures same { OnErr result (rest.new ≡ rest.old) }
{
    let count = MOST_HELD.min(rest.len());
    rest.split_to(count)
}

/// Returns a piece, unless it has no byte.
fn unless_empty(piece: Bytes) -> Option<Bytes>
    requires { length piece ≤ spec.most_held }
    ensures bytes { spec.bytes_in result ≡ piece }
    ensures fits { spec.IsPieceOrNone result }
{
    if piece.is_empty() {
        return None;
    }
    Some(piece)
}

impl Pipe {
    /// Returns the pipe of a body of which nothing has come.
    pub fn new() -> Pipe
        ensures { result ≡ spec.opened }
    {
        Pipe {
            piece: None,
            ending: Ending::Open,
            is_abandoned: false,
        }
    }

    /// Returns what would become of bytes that were put now.
    fn room(&self) -> Put
        ensures { result ≡ spec.room self.now }
    {
        if self.is_abandoned || self.ending != Ending::Open {
            return Put::Over;
        }
        match self.piece {
            None => Put::Done,
            Some(_) => Put::Full,
        }
    }

    /// Puts bytes in, as many as a pipe holds, if it is empty, and leaves the others.
    ///
    /// # Errors
    /// If memory is refused. All is then as it was.
    pub fn put(&mut self, rest: &mut Bytes) -> Result<Put, AllocError>
        ensures put { IfOk result (λ put. put ≡ spec.room self.old) }
        ensures state { OnOk result (self.new ≡ spec.with_bytes rest.old self.old) }
        ensures rest { OnOk result (rest.new ≡ spec.left (spec.room self.old) rest.old) }
        ensures same { OnErr result ((self.new ≡ self.old) × (rest.new ≡ rest.old)) }
    {
        let room = self.room();
        if room == Put::Done {
            self.piece = unless_empty(cut(rest)?);
        }
        Ok(room)
    }

    /// Takes out what was put in.
    pub fn take(&mut self) -> Taken
        ensures taken { result ≡ spec.taken self.old }
        ensures state { self.new ≡ spec.emptied self.old }
        ensures few { length self.old.held ≤ spec.most_held }
    {
        match self.piece.take() {
            Some(piece) => Taken::Piece(piece),
            None if self.is_abandoned => Taken::Broken,
            None => match self.ending {
                Ending::Open => Taken::Nothing,
                Ending::Whole => Taken::Whole,
                Ending::Broken => Taken::Broken,
            },
        }
    }

    /// Notes that the body has come to its end, unless it has ended before.
    pub fn finish(&mut self)
        ensures { self.new ≡ spec.ended endings.Whole self.old }
    {
        if self.ending == Ending::Open {
            self.ending = Ending::Whole;
        }
    }

    /// Notes that the body has broken off, unless it has ended before. What was put in can still be taken out.
    pub fn break_off(&mut self)
        ensures { self.new ≡ spec.ended endings.Broken self.old }
    {
        if self.ending == Ending::Open {
            self.ending = Ending::Broken;
        }
    }

    /// Notes that the receiver has gone away: what was put in is dropped.
    pub fn abandon(&mut self)
        ensures { self.new ≡ spec.abandoned self.old }
    {
        self.piece = None;
        self.is_abandoned = true;
    }

    /// Returns whether the receiver has gone away.
    pub fn is_abandoned(&self) -> bool
        ensures { result ≡ self.now.is_abandoned }
    {
        self.is_abandoned
    }
}
