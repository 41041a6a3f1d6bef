//! A list whose room is made beforehand.

ghost use Rattle.std.specs.Prelude.{◌≡◌, ◌+◌, ◌-◌, ◌<◌, ◌≤◌, ◌++◌, ◌∷◌, [], List, ℕ, IfOk, OnOk};
ghost use Rattle.environment_step.specs.After.{put};

use call_model::{Answer, Answers, Ticket};
use std::alloc::{AllocError, Global};
use std::marker::Model;
use std::mem;

/// A list that allocates nothing while it has room. Contracts see its values and its room.
#[derive(Drop)]
pub struct Roomy<T> {
    items: Vec<T>,
    room: usize,
}

impl<T> Model for Roomy<T> {
    ghost use Rattle.std.specs.Prelude.{List, ℕ, ◌+◌, ◌≤◌, vec_len, vec_capacity};

    ghost Value = { List T × ℕ };

    ghost view = { λ r. (r.items.items, r.room) };

    ghost invariant = { λ r. vec_len r.items + r.room ≤ vec_capacity r.items };
}

impl<T> Roomy<T> {
    /// A list with no values and no room. It allocates nothing.
    pub fn new(alloc: Global) -> Roomy<T>
        ensures { result ≡ ([], 0) }
    {
        Roomy {
            items: Vec::new(alloc),
            room: 0,
        }
    }

    /// A list with no values, and room for this many.
    pub fn with_room(alloc: Global, room: usize) -> Result<Roomy<T>, AllocError>
        ensures { IfOk result (λ r. r ≡ ([], room)) }
    {
        Ok(Roomy {
            items: Vec::with_capacity(alloc, room)?,
            room,
        })
    }
}

impl<T: Drop> Roomy<T> {
    /// Removes the values, and makes room for this many. It allocates only if the list's memory is too small.
    pub fn empty(&mut self, room: usize) -> Result<(), AllocError>
        ensures { OnOk result (self.new ≡ ([], room)) }
    {
        self.room = 0;
        self.items.clear();
        self.items.reserve(room)?;
        self.room = room;
        Ok(())
    }

    /// Adds a value. There must be room.
    pub fn push(&mut self, value: T)
        requires { 0 < self.old.1 }
        ensures { self.new ≡ (self.old.0 ++ value ∷ [], self.old.1 - 1) }
    {
        match self.items.push(value) {
            Ok(()) => {
                self.room -= 1;
            }
            Err(_full) => unreachable!(),
        }
    }
}

impl Roomy<(Ticket, Answer)> {
    /// Returns the answers, in no more memory than they need: a single one needs none. This list keeps its
    /// memory for the next call; if the allocation of a copy fails, it gives its memory away instead.
    pub fn copy_out(&mut self) -> Answers
        ensures { result ≡ self.old.0 }
    {
        self.room = 0;
        if self.items.len() == 1 {
            return Answers::one(self.items[0]);
        }
        let alloc = *self.items.allocator();
        match copied(alloc, &self.items) {
            Ok(copy) => Answers::new(copy),
            Err(_refused) => Answers::new(mem::replace(&mut self.items, Vec::new(alloc))),
        }
    }

    /// Puts an answer in its place, before those to greater tickets. There must be room.
    pub fn put(&mut self, pair: (Ticket, Answer))
        requires { 0 < self.old.1 }
        ensures { self.new ≡ (put pair self.old.0, self.old.1 - 1) }
    {
        let last = carry(&mut self.items, pair);
        self.push(last);
    }
}

/// Copies the pairs to a list of just their length.
fn copied(alloc: Global, pairs: &[(Ticket, Answer)]) -> Result<Vec<(Ticket, Answer)>, AllocError>
    ensures { IfOk result (λ copy. copy.items ≡ pairs.now) }
{
    let mut copy = Vec::with_capacity(alloc, pairs.len())?;
    copy.extend_from_slice(pairs)?;
    Ok(copy)
}

/// Inserts a pair before those with greater tickets, each of which moves on by one place. Returns the
/// pair that is pushed out at the end.
fn carry(pairs: &mut [(Ticket, Answer)], pair: (Ticket, Answer)) -> (Ticket, Answer)
    ensures { pairs.new ++ result ∷ [] ≡ put pair pairs.old }
{
    let mut carried = pair;
    for place in 0..pairs.len() {
        if carried.0 < pairs[place].0 {
            let next = pairs[place];
            pairs[place] = carried;
            carried = next;
        }
    }
    carried
}
