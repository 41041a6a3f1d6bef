//! Identifiers, each of which is claimed once.
//!
//! Whose an identifier is exists in proofs alone: that part of a claim has no bytes. What all claims share is a word
//! with the identifier that comes next.

ghost use Rattle.std.specs.Prelude.{◌≡◌, ◌+◌, ◌∷◌, [], IfSome};
ghost use Rattle.handler_desk.specs.Claims.{held};

use atomic_table::{Join, Play, Seat, Split, Table, TableRule};
use std::alloc::{AllocError, Global};
use std::collections::LinkedList;

/// What a claim holds. No value of this type is made.
pub struct Held {
    /// The identifiers that are its own.
    pub ids: LinkedList<u64>,
}

/// The rule of all claims: an identifier is that of one claim at most, and of none before it comes.
pub struct OnceEach;

impl TableRule<(), Held, ()> for OnceEach {
    ghost use Rattle.std.specs.Prelude.{[]};
    ghost use Rattle.handler_desk.specs.Claims.{AreOnceEach, held};

    ghost holds = { λ _ state. AreOnceEach state.words state.views };

    ghost first = { λ _. held [] };
}

/// A new claim holds nothing.
struct Begins;

impl Play<(), Held> for Begins {
    ghost use Rattle.std.specs.Prelude.{◌≡◌};

    ghost then = { λ _ before _ after. after ≡ before };
}

/// A claim takes the identifier that comes next.
struct Draws;

impl Play<(), Held> for Draws {
    ghost use Rattle.handler_desk.specs.Claims.{Drew};

    ghost then = { λ step before found after. Drew step.first before found after };
}

/// A claim finds that it holds no identifier twice.
struct Looks;

impl Play<(), Held> for Looks {
    ghost use Rattle.handler_desk.specs.Claims.{Looked};

    ghost then = { λ _ before _ after. Looked before after };
}

/// A claim hands over all that it holds.
struct Whole;

impl Split<Held> for Whole {
    ghost use Rattle.std.specs.Prelude.{[]};
    ghost use Rattle.handler_desk.specs.Claims.{held};

    ghost left = { λ _. held [] };

    ghost right = { λ claim. claim };
}

/// A claim keeps the first identifier that it holds, and hands over the others.
struct Others;

impl Split<Held> for Others {
    ghost use Rattle.std.specs.Prelude.{take, drop};
    ghost use Rattle.handler_desk.specs.Claims.{held};

    ghost left = { λ claim. held (take 1 claim.ids) };

    ghost right = { λ claim. held (drop 1 claim.ids) };
}

/// A claim takes in all that another one holds.
struct Together;

impl Join<Held> for Together {
    ghost use Rattle.std.specs.Prelude.{[], ◌++◌};
    ghost use Rattle.handler_desk.specs.Claims.{held};

    ghost both = { λ claim other. held (claim.ids ++ other.ids) };

    ghost spent = { held [] };
}

/// That an identifier is the own one of who has this.
#[derive(Drop)]
pub(crate) struct Claim {
    pub(crate) id: u64,
    pub(crate) seat: Seat<(), Held>,
    pub(crate) ghost own: { seat.me ≡ (held (id ∷ []), []) },
}

/// What gives identifiers, from 0 on.
#[derive(Drop)]
pub(crate) struct Claims {
    pub(crate) table: Table<(), Held, (), OnceEach, Global>,
    pub(crate) ghost one_word: { table.shared.table_id.words ≡ 1 },
}

impl Claims {
    /// Begins, with no identifier claimed. It fails only if an allocation fails.
    pub(crate) fn new(alloc: Global) -> Result<Claims, AllocError> {
        let (table, _) = Table::of_words(alloc, &[0], &())?;
        Ok(Claims { table })
    }

    /// Claims an identifier if it is the one that comes next. Returns `None` if it is not.
    pub(crate) fn claim(&self, id: u64) -> Option<Claim>
        ensures id { IfSome result (λ claim. claim.id ≡ id) }
        ensures of { IfSome result (λ claim. claim.seat.table_id ≡ self.now.table.shared.table_id) }
    {
        let next = id.checked_add(1)?;
        let shared = &self.table.shared;
        let (_, mut seat) = shared.load_new_seat::<Begins>(0);
        if shared.compare_exchange::<Draws>(&mut seat, 0, id, next) != id {
            return None;
        }
        Some(Claim { id, seat })
    }

    /// Shows that two claims have different identifiers.
    pub(crate) fn differ(&self, one: &mut Claim, other: &mut Claim)
        requires one { one.old.seat.table_id ≡ self.now.table.shared.table_id }
        requires other { other.old.seat.table_id ≡ self.now.table.shared.table_id }
        ensures differ { one.old.id ≡ other.old.id → ⊥ }
        ensures ids { (one.new.id ≡ one.old.id) × (other.new.id ≡ other.old.id) }
        ensures one { one.new.seat.table_id ≡ one.old.seat.table_id }
        ensures other { other.new.seat.table_id ≡ other.old.seat.table_id }
    {
        let shared = &self.table.shared;
        let lent = shared.split_seat::<Whole>(&mut other.seat);
        shared.join_seat::<Together>(&mut one.seat, lent);
        shared.load::<Looks>(&mut one.seat, 0);
        let back = shared.split_seat::<Others>(&mut one.seat);
        shared.join_seat::<Together>(&mut other.seat, back);
    }
}
