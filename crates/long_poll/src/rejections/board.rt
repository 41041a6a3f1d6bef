//! What is counted of the requests that are rejected, by kind.

ghost use Rattle.std.specs.Prelude.{◌≡◌, ◌==◌, ◌++◌, ◌∷◌, [], true, Some, None, is_some, position};
ghost use Rattle.std.specs.Prelude.{IfOk, IfErr, IfSome, MatchOption, slice_index_or};
ghost use Rattle.long_poll.specs.Boards.{Changes, counted, is_due, settled, telling};
ghost use Rattle.long_poll.specs.declared.rejections.board.Row.{Row};

use super::rejection::{Kind, Told};
use std::alloc::{AllocError, Global};

/// What is known of a kind.
#[derive(Drop)]
struct Row {
    kind: Kind,
    // How many requests were told.
    told: u64,
    // How many were seen since.
    waiting: u64,
    // The first one, until it is told.
    first: Option<String>,
}

/// What is counted of rejected requests: for each kind, how many were seen, and how many of them were told.
#[derive(Drop)]
pub(crate) struct Board {
    rows: Vec<Row>,
}

impl Board {
    /// Makes it, with no request seen. It allocates nothing.
    pub(crate) fn new(alloc: Global) -> Board
        ensures { result.rows.items ≡ [] }
    {
        Board {
            rows: Vec::new(alloc),
        }
    }

    /// Returns the place of a kind.
    fn place_of(&self, kind: Kind) -> Option<usize>
        ensures { result ≡ position (λ row. ⟦<Kind as PartialEq>⟧.eq row.kind kind) self.now.rows.items }
    {
        self.rows.iter().position(|row| row.kind == kind)
    }

    /// Returns the place of a kind of which something is to be told.
    fn first_due(&self, all: bool) -> Option<usize>
        ensures { result ≡ position (is_due all) self.now.rows.items }
    {
        self.rows
            .iter()
            .position(|row| row.waiting != 0 && (all || row.told == 0))
    }

    /// Returns whether something is to be told.
    pub(crate) fn waits(&self) -> bool
        ensures { result ≡ is_some (position (is_due true) self.now.rows.items) }
    {
        self.first_due(true).is_some()
    }

    /// Counts a request of a kind that is known. Returns whether all that were seen before it are told; `None`, and
    /// counts nothing, if the kind is not known.
    pub(crate) fn count(&mut self, kind: Kind) -> Option<bool>
        ensures rows { MatchOption (position (λ row. ⟦<Kind as PartialEq>⟧.eq row.kind kind) self.old.rows.items)
            ((result ≡ None) × (self.new.rows.items ≡ self.old.rows.items))
            (λ at. Changes counted at self.old.rows.items self.new.rows.items) }
        ensures told { (d : Row) → IfSome (position (λ row. ⟦<Kind as PartialEq>⟧.eq row.kind kind) self.old.rows.items)
            (λ at. result ≡ Some ((slice_index_or self.old.rows.items at d).waiting == 0)) }
    {
        let at = self.place_of(kind)?;
        let row = &mut self.rows[at];
        let is_first = row.waiting == 0;
        row.waiting = row.waiting.saturating_add(1);
        Some(is_first)
    }

    /// Counts the first request of a kind.
    ///
    /// # Errors
    /// If an allocation fails. Nothing is counted then.
    pub(crate) fn begin(&mut self, kind: Kind, first: Option<String>) -> Result<(), AllocError>
        ensures last { IfOk result (λ _. self.new.rows.items ≡ self.old.rows.items
            ++ record { kind = kind; told = 0; waiting = 1; first = first } ∷ []) }
        ensures same { IfErr result (λ _. self.new.rows.items ≡ self.old.rows.items) }
    {
        Ok(
            self.rows.push(Row {
                kind,
                told: 0,
                waiting: 1,
                first,
            })?,
        )
    }

    /// Takes what is to be told of a kind.
    pub(crate) fn take(&mut self, all: bool) -> Option<Told>
        ensures rows { MatchOption (position (is_due all) self.old.rows.items)
            (self.new.rows.items ≡ self.old.rows.items)
            (λ at. Changes settled at self.old.rows.items self.new.rows.items) }
        ensures told { (d : Row) → MatchOption (position (is_due all) self.old.rows.items)
            (result ≡ None)
            (λ at. result ≡ Some (telling (slice_index_or self.old.rows.items at d))) }
    {
        let at = self.first_due(all)?;
        let row = &mut self.rows[at];
        let told = Told {
            kind: row.kind,
            first: row.first.take(),
            count: row.waiting,
        };
        row.told = row.told.saturating_add(row.waiting);
        row.waiting = 0;
        Some(told)
    }
}
