//! What the deadlines after a history say about it. Each function does nothing; its clauses are the
//! laws.

ghost use Rattle.std.specs.Prelude.{◌≡◌, ℕ, List, [], length, replicate, None};
ghost use Rattle.arn_ids.specs.declared.config.Config.{Config};
ghost use Rattle.arn_ids.specs.Environments.{owners};
ghost use Rattle.call_types.specs.declared.call.Entry.{Entry};
ghost use Rattle.call_model.specs.Next.{due, first};
ghost use Rattle.deadlines.specs.Due.{first_due};
ghost use Rattle.deadlines.specs.Meets.{deadlines};

/// The deadlines agree with the history.
pub fn meets()
    // Before any call, no environment has a deadline.
    ensures opened { (config : Config) → replicate (length (owners config)) None ≡ deadlines config [] }
    // The environment that is due first is the first that the definitions let expire.
    ensures first { (config : Config) (h : List Entry) (now : ℕ)
        → first_due now (deadlines config h) ≡ first (due config h now) }
{}
