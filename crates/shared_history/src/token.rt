//! A token that has seen a beginning of the history.

ghost use Rattle.std.specs.Prelude.{◌≡◌, ◌⊎◌, []};
ghost use Rattle.shared_history.specs.Sharing.{token_view, Extends};

use crate::spine::{Naming, Spine};
use crate::view::View;
use atomic_table::{Join, Play, Seat, Split};
use std::marker::{Model, PhantomData};

/// Gives a copy of a token what its original has seen.
struct Copies;

impl<T> Split<View<T>> for Copies {
    ghost use Rattle.shared_history.specs.Sharing.{token_view};

    ghost left = { λ v. v };

    ghost right = { λ v. token_view v.seen };
}

/// Lets a token learn what another one has seen.
struct Hears;

impl<T> Join<View<T>> for Hears {
    ghost use Rattle.shared_history.specs.Sharing.{told, token_view};
    ghost use Rattle.std.specs.Prelude.{[]};

    ghost both = { λ v w. told v w };

    ghost spent = { token_view [] };
}

/// Lets a token compare what it learned with what it has seen.
struct Compares;

impl<T> Play<(), View<T>> for Compares {
    ghost use Rattle.shared_history.specs.Sharing.{Agreed};

    ghost then = { λ _ before _ after. Agreed before after };
}

/// A token that has seen a beginning of the history. Contracts see that beginning, the newest first.
#[derive(Drop)]
pub struct Token<T, N: Naming> {
    seat: Seat<(), View<T>>,
    of: PhantomData<N>,
}

impl<T, N: Naming> Model for Token<T, N> {
    ghost use Rattle.std.specs.Prelude.{◌≡◌, List, []};
    ghost use Rattle.shared_history.specs.Sharing.{token_view};

    ghost Value = { List T };

    ghost view = { λ f. f.seat.me.0.seen };

    ghost invariant = { λ f. (f.seat.table_id ≡ N.spine) × (f.seat.me ≡ (token_view f.seat.me.0.seen, [])) };
}

impl<T, N: Naming> Token<T, N> {
    /// Returns the token of a seat that has seen a beginning.
    pub(crate) fn of(seat: Seat<(), View<T>>) -> Token<T, N>
        requires { (seat.table_id ≡ N.spine) × (seat.me ≡ (token_view seat.me.0.seen, [])) }
        ensures { result ≡ seat.me.0.seen }
    {
        Token {
            seat,
            of: PhantomData,
        }
    }

    /// Returns a seat that has seen as much.
    pub(crate) fn copy(&mut self, spine: &Spine<T, N>) -> Seat<(), View<T>>
        ensures spine { result.table_id ≡ N.spine }
        ensures seen { result.me ≡ (token_view self.old, []) }
        ensures same { self.new ≡ self.old }
    {
        spine.table.shared.split_seat::<Copies>(&mut self.seat)
    }

    /// Returns another token that has seen as much. It allocates nothing.
    pub fn again(&mut self, spine: &Spine<T, N>) -> Token<T, N>
        ensures { (result ≡ self.old) × (self.new ≡ self.old) }
    {
        Token::of(self.copy(spine))
    }

    /// Shows that of what two tokens have seen, one is a beginning of the other: there is one history. It
    /// allocates nothing.
    pub fn agree(&mut self, spine: &Spine<T, N>, other: &mut Token<T, N>)
        ensures one { Extends self.old other.old ⊎ Extends other.old self.old }
        ensures same { (self.new ≡ self.old) × (other.new ≡ other.old) }
    {
        let copy = other.copy(spine);
        spine.table.shared.join_seat::<Hears>(&mut self.seat, copy);
        spine.table.shared.load::<Compares>(&mut self.seat, 0);
    }
}
