//! How the numbers relate to the history. Each function does nothing; its clauses are the laws.

ghost use Rattle.std.specs.Prelude.{◌≡◌, ◌≤◌, ℕ, List, [], length, Option};
ghost use Rattle.arn_ids.specs.declared.config.Config.{Config};
ghost use Rattle.call_model.specs.Answers.{reserve_answer};
ghost use Rattle.call_types.specs.declared.call.Entry.{Entry};
ghost use Rattle.call_model.specs.Counts.{all_in_flight};
ghost use Rattle.call_model.specs.Limits as model;
ghost use Rattle.concurrency_pool.specs.Pools.{opened, usage_at, remainder, unreserved_in_flight, in_flight_in_all};
ghost use Rattle.concurrency_pool.specs.Pools.{throttle, may_reserve};
ghost use Rattle.concurrency_pool.specs.Meets.{numbers, usage, by_throttle, by_reserve};

/// The numbers meet the history.
pub fn meets()
    // Before any call nothing is in flight, and the reservations are those of the configuration.
    ensures opened { (config : Config) → opened config ≡ numbers config [] }
    // A function's numbers are its invocations in flight and its reservation after the history.
    ensures function { (config : Config) (h : List Entry) (f : ℕ) → 1 ≤ f → f ≤ length config.functions
        → usage_at (numbers config h) f ≡ usage config h f }
    // The remainder and the unreserved invocations in flight are those of the history.
    ensures remainder { (config : Config) (h : List Entry) → remainder (numbers config h) ≡ model.remainder config h }
    ensures unreserved { (config : Config) (h : List Entry)
        → unreserved_in_flight (numbers config h) ≡ model.unreserved_in_flight config h }
    // All functions together have in flight what they have after the history.
    ensures in_flight { (config : Config) (h : List Entry)
        → in_flight_in_all (numbers config h) ≡ all_in_flight config h }
    // If a limit refuses an Invoke, its verdict has that reason; otherwise it goes to a free environment.
    ensures verdict { (config : Config) (h : List Entry) (f : ℕ) → 1 ≤ f → f ≤ length config.functions
        → model.by_limits config h f (model.reservation config h f)
        ≡ by_throttle (throttle (numbers config h) f) (model.place config h f) }
    // A Reserve is refused if the numbers don't allow it.
    ensures reserve { (config : Config) (h : List Entry) (f : ℕ) (count : Option ℕ) → 1 ≤ f
        → f ≤ length config.functions
        → reserve_answer config h f count ≡ by_reserve (may_reserve (numbers config h) f count) count }
{}
