//! Laws of traces of scripts: functions with no work in them, whose contracts are proved.

ghost use Rattle.std.specs.Prelude.{◌≡◌, ℕ, Bool, List, All};
ghost use Rattle.arn_ids.specs.declared.config.Config.{Config};
ghost use Rattle.call_types.specs.declared.call.Entry.{Entry};
ghost use Rattle.account_book.specs.Reached.{IsReached};
ghost use Rattle.account_book.specs.Run.{run};
ghost use Rattle.trace.specs.Sites.{IsFit};
ghost use Rattle.trace_replay.specs.Traces.{trace_run};

/// Every entry of a history that calls led to is one that a follower can follow: its moment, and the name
/// in a Register, are in their ranges.
pub fn fit()
    ensures { (config : Config) (max_entries : ℕ) (h : List Entry) → IsReached config max_entries h → All IsFit h }
{}

/// The trace of a script has the fault that its replay has, if any.
pub fn same_fault()
    ensures { (bodies : Bool) (input : List ℕ) → (trace_run bodies input).fault ≡ (run input).fault }
{}
