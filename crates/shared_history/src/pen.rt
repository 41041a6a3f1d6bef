//! The pen, which alone writes the history.

ghost use Rattle.std.specs.Prelude.{◌≡◌, []};
ghost use Rattle.shared_history.specs.Sharing.{pen_view, Extends};

use crate::spine::{Naming, Spine};
use crate::token::Token;
use crate::view::View;
use atomic_table::{Join, Play, Seat, Split};
use std::marker::{Brand, Model, PhantomData};

/// A value that has a history.
pub trait Source<X, T> {
    ghost use Rattle.std.specs.Prelude.{List};

    /// The history that a value has, the newest first.
    ghost history: { X → List T };
}

/// The history that is written; the caller of `write_as` names `Brand`, and picks it in its proof.
trait Writing<T> {
    ghost use Rattle.std.specs.Prelude.{List};

    ghost history: { List T };
}

impl<T> Writing<T> for Brand {
    ghost use Rattle.std.specs.Prelude.{[]};

    ghost history = { [] };
}

/// Lets the pen write.
struct Writes<W> {
    of: PhantomData<W>,
}

impl<T, W: Writing<T>> Play<(), View<T>> for Writes<W> {
    ghost use Rattle.shared_history.specs.Sharing.{Wrote};

    ghost then = { λ _ before _ after. Wrote W.history before after };
}

/// Lets the pen compare what another token has seen with all that was written.
struct Compares;

impl<T> Play<(), View<T>> for Compares {
    ghost use Rattle.shared_history.specs.Sharing.{Compared};

    ghost then = { λ _ before _ after. Compared before after };
}

/// Lets a new token see all that was written.
struct Lets;

impl<T> Split<View<T>> for Lets {
    ghost use Rattle.shared_history.specs.Sharing.{token_view};

    ghost left = { λ v. v };

    ghost right = { λ v. token_view v.all };
}

/// Lets the pen learn what another token has seen.
struct Hears;

impl<T> Join<View<T>> for Hears {
    ghost use Rattle.shared_history.specs.Sharing.{heard, token_view};
    ghost use Rattle.std.specs.Prelude.{[]};

    ghost both = { λ v w. heard v w };

    ghost spent = { token_view [] };
}

/// The one token that knows the whole history, and writes it. Contracts see the history, the newest
/// first.
#[derive(Drop)]
pub struct Pen<T, N: Naming> {
    seat: Seat<(), View<T>>,
    of: PhantomData<N>,
}

impl<T, N: Naming> Model for Pen<T, N> {
    ghost use Rattle.std.specs.Prelude.{◌≡◌, List, []};
    ghost use Rattle.shared_history.specs.Sharing.{pen_view};

    ghost Value = { List T };

    ghost view = { λ p. p.seat.me.0.all };

    ghost invariant = { λ p. (p.seat.table_id ≡ N.spine) × (p.seat.me ≡ (pen_view p.seat.me.0.all, [])) };
}

impl<T, N: Naming> Pen<T, N> {
    /// Returns the pen of a history without an entry.
    pub(crate) fn of(seat: Seat<(), View<T>>) -> Pen<T, N>
        requires { (seat.table_id ≡ N.spine) × (seat.me ≡ (pen_view [], [])) }
        ensures { result ≡ [] }
    {
        Pen {
            seat,
            of: PhantomData,
        }
    }

    /// Extends the history to the one that this value has. It allocates nothing.
    pub fn write<X, M: Source<X, T>>(&mut self, spine: &Spine<T, N>, about: &X)
        requires { Extends self.old (M.history about.now) }
        ensures { self.new ≡ M.history about.now }
    {
        self.write_as::<X, Brand>(spine, about);
    }

    fn write_as<X, W: Writing<T>>(&mut self, spine: &Spine<T, N>, _about: &X)
        requires { Extends self.old W.history }
        ensures { self.new ≡ W.history }
    {
        spine.table.shared.load::<Writes<W>>(&mut self.seat, 0);
    }

    /// Returns a token that has seen all that was written. It allocates nothing.
    pub fn token(&mut self, spine: &Spine<T, N>) -> Token<T, N>
        ensures all { result ≡ self.old }
        ensures same { self.new ≡ self.old }
    {
        Token::of(spine.table.shared.split_seat::<Lets>(&mut self.seat))
    }

    /// Shows a token all that was written; it had seen a beginning of it. It allocates nothing.
    pub fn show(&mut self, spine: &Spine<T, N>, token: &mut Token<T, N>)
        ensures all { token.new ≡ self.old }
        ensures longer { Extends token.old self.old }
        ensures same { self.new ≡ self.old }
    {
        let copy = token.copy(spine);
        spine.table.shared.join_seat::<Hears>(&mut self.seat, copy);
        spine.table.shared.load::<Compares>(&mut self.seat, 0);
        *token = self.token(spine);
    }
}
