//! The word that a history's threads share.

ghost use Rattle.std.specs.Prelude.{◌≡◌, [], ◌<◌};

use crate::pen::Pen;
use crate::view::{Shares, View};
use atomic_table::{Seat, Table};
use std::alloc::{AllocError, Global};
use std::marker::{Brand, Model, PhantomData};

/// Names a history in its tokens' types, so that tokens of two histories cannot be mixed.
pub trait Naming {
    ghost use Rattle.atomic_table.specs.Seated.{TableId};

    /// The name of its spine.
    ghost spine: { TableId };
}

/// If a caller names `Brand`, it picks the spine in its proof; this is the spine if none is picked.
impl Naming for Brand {
    ghost use Rattle.shared_history.specs.Sharing.{no_spine};

    ghost spine = { no_spine };
}

/// A spine and its pen, which no type names yet. Contracts see the spine's name.
#[derive(Drop)]
pub struct Opened<T> {
    table: Table<(), View<T>, (), Shares<T>, Global>,
    pen: Seat<(), View<T>>,
}

impl<T> Model for Opened<T> {
    ghost use Rattle.std.specs.Prelude.{◌≡◌, ◌<◌, []};
    ghost use Rattle.atomic_table.specs.Seated.{TableId};
    ghost use Rattle.shared_history.specs.Sharing.{pen_view};

    ghost Value = { TableId };

    ghost view = { λ o. o.table.shared.table_id };

    ghost invariant = { λ o. (o.pen.table_id ≡ o.table.shared.table_id)
        × (o.pen.me ≡ (pen_view [], []))
        × (0 < o.table.shared.table_id.words) };
}

impl<T> Opened<T> {
    /// Returns a history without an entry. It fails only if an allocation fails.
    pub fn new(alloc: Global) -> Result<Opened<T>, AllocError> {
        let (table, pen) = Table::of_words(alloc, &[0], &())?;
        Ok(Opened { table, pen })
    }

    /// Returns the spine and the pen of the history, under its name.
    pub fn named<N: Naming>(self) -> (Spine<T, N>, Pen<T, N>)
        requires { self ≡ N.spine }
        ensures { result.1 ≡ [] }
    {
        let Opened { table, pen } = self;
        (Spine::of(table), Pen::of(pen))
    }
}

/// The word that the threads of a history share. Contracts see its name.
#[derive(Drop)]
pub struct Spine<T, N: Naming> {
    pub(crate) table: Table<(), View<T>, (), Shares<T>, Global>,
    of: PhantomData<N>,
}

impl<T, N: Naming> Model for Spine<T, N> {
    ghost use Rattle.std.specs.Prelude.{◌≡◌, ◌<◌};
    ghost use Rattle.atomic_table.specs.Seated.{TableId};

    ghost Value = { TableId };

    ghost view = { λ l. l.table.shared.table_id };

    ghost invariant = { λ l. (l.table.shared.table_id ≡ N.spine) × (0 < l.table.shared.table_id.words) };
}

impl<T, N: Naming> Spine<T, N> {
    /// Returns the spine that `N` names.
    fn of(table: Table<(), View<T>, (), Shares<T>, Global>) -> Spine<T, N>
        requires { (table.shared.table_id ≡ N.spine) × (0 < table.shared.table_id.words) }
    {
        Spine {
            table,
            of: PhantomData,
        }
    }
}
