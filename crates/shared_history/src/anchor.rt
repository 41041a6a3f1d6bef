//! A beginning of the history that threads share by reference.

ghost use Rattle.std.specs.Prelude.{◌≡◌, []};
ghost use Rattle.shared_history.specs.Sharing.{token_view};

use crate::spine::{Naming, Spine};
use crate::token::Token;
use crate::view::View;
use atomic_table::Perch;
use std::marker::{Model, PhantomData};
use std::sync::Wait;
use std::thread;

/// What a token has seen, for as long as there is a reference to it: each holder gets tokens that have seen as much.
/// Contracts see that beginning of the history, the newest first.
#[derive(Drop)]
pub struct Anchor<T, N: Naming> {
    // A token rests here, but while a thread copies it.
    perch: Perch<(), View<T>>,
    of: PhantomData<N>,
}

impl<T, N: Naming> Model for Anchor<T, N> {
    ghost use Rattle.std.specs.Prelude.{◌≡◌, List};
    ghost use Rattle.shared_history.specs.Sharing.{token_view};

    ghost Value = { List T };

    ghost view = { λ a. a.perch.view.seen };

    ghost invariant = { λ a. (a.perch.table_id ≡ N.spine) × (a.perch.view ≡ token_view a.perch.view.seen) };
}

impl<T, N: Naming> Anchor<T, N> {
    /// Returns an anchor at what a token has seen. It allocates nothing.
    pub fn new(spine: &Spine<T, N>, token: &mut Token<T, N>) -> Anchor<T, N>
        ensures { (result ≡ token.old) × (token.new ≡ token.old) }
    {
        let seat = token.copy(spine);
        let perch = Perch::new(&seat, 0);
        let _ = perch.give(seat, 0, 2);
        Anchor {
            perch,
            of: PhantomData,
        }
    }

    /// Returns a token that has seen as much. It waits while another thread is in this call.
    pub fn token(&self, rt: &impl Wait, spine: &Spine<T, N>) -> Token<T, N>
        ensures { result ≡ self.now }
    {
        for _ in rt.forever() {
            if let (_, Some(seat)) = self.perch.take(0) {
                let mut token = Token::of(seat);
                let _ = self.perch.give(token.copy(spine), 0, 2);
                return token;
            }
            thread::yield_now();
        }
        unreachable!()
    }
}
