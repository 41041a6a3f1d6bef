//! What a token knows, and the rule of all tokens.

use atomic_table::TableRule;
use std::collections::LinkedList;
use std::marker::PhantomData;

/// What a token knows. No value of this type is made. Its lists have the newest first.
pub struct View<T> {
    /// Whether the token is the pen, which knows the whole history.
    pub keeps: bool,
    /// The history, if the token is the pen; otherwise a beginning of it.
    pub all: LinkedList<T>,
    /// The beginning of the history that was seen.
    pub seen: LinkedList<T>,
}

/// The rule of all tokens: one is the pen, and each has seen a beginning of what the pen knows.
pub struct Shares<T> {
    of: PhantomData<T>,
}

impl<T> TableRule<(), View<T>, ()> for Shares<T> {
    ghost use Rattle.std.specs.Prelude.{[]};
    ghost use Rattle.shared_history.specs.Sharing.{Shared, pen_view};

    ghost holds = { λ _ state. Shared state.views };

    ghost first = { λ _. pen_view [] };
}
