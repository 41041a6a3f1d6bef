//! The bytes that passed, which only proofs read.

ghost use Rattle.std.specs.Prelude.{◌≡◌, ℕ, List, [], ◌++◌};
ghost use Rattle.std.specs.Borrow.{ftrue};

use std::marker::{Model, PhantomData};

/// The bytes that passed in one direction, in order. It takes no memory, and its methods do nothing
/// when they run.
#[derive(Drop)]
pub struct Passed {
    of: PhantomData<u8>,
    pub ghost bytes: { List ℕ },
}

impl Model for Passed {
    ghost also_owns = { λ _. ftrue };
}

impl Passed {
    /// Nothing has passed yet.
    pub fn new() -> Passed
        ensures { result.bytes ≡ [] }
    {
        Passed { of: PhantomData }
    }

    /// Notes that these bytes passed.
    pub fn note(&mut self, _bytes: &[u8])
        ensures { self.new.bytes ≡ self.old.bytes ++ _bytes.now }
    {}
}
