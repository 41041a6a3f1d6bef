//! What `KeepAll` and `KeepNone` have kept after a list of answers or calls. Each function does
//! nothing; its clauses are the laws.

ghost use Rattle.std.specs.Prelude.{◌≡◌, ℕ, List};
ghost use Rattle.call_types.specs.declared.answer.Answer.{Answer};
ghost use Rattle.call_types.specs.declared.head.Head.{Head};
ghost use Rattle.usage_ledger.specs.Keeping.{Kept, Steps, with_receipts, with_calls};

use crate::{Keep, KeepAll, KeepNone};

/// `KeepAll` has all of them, in their order, after the older ones.
pub fn keeps_all()
    ensures receipts { (old new : Kept) (receipts : List (ℕ × Answer))
        → Steps ⟦<KeepAll as Keep>⟧.notes old receipts new → new ≡ with_receipts old receipts }
    ensures calls { (old new : Kept) (calls : List (ℕ × Head))
        → Steps ⟦<KeepAll as Keep>⟧.makes old calls new → new ≡ with_calls old calls }
{}

/// `KeepNone` has none of them.
pub fn keeps_none()
    ensures receipts { (old new : Kept) (receipts : List (ℕ × Answer))
        → Steps ⟦<KeepNone as Keep>⟧.notes old receipts new → new ≡ old }
    ensures calls { (old new : Kept) (calls : List (ℕ × Head))
        → Steps ⟦<KeepNone as Keep>⟧.makes old calls new → new ≡ old }
{}
