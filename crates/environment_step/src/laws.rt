//! The link between the definitions and the code. The function does nothing; its clauses are the
//! laws.

ghost use Rattle.std.specs.Prelude.{◌≡◌, ℕ, true, false, List, ◌∷◌, filter, not, ◌&&◌};
ghost use Rattle.call_types.specs.declared.call.Entry.{Entry};
ghost use Rattle.arn_ids.specs.declared.config.Config.{Config};
ghost use Rattle.call_model.specs.History.{place_of};
ghost use Rattle.call_model.specs.Stand.{is_number};
ghost use Rattle.call_model.specs.Life.{phase, stand, concerns};
ghost use Rattle.call_model.specs.Limits.{is_charged};
ghost use Rattle.call_model.specs.Answers.{home};
ghost use Rattle.call_model.specs.Next.{IsLegal};
ghost use Rattle.call_model.specs.Laws.{ended_by};
ghost use Rattle.environment_step.specs.After.{stand_after, moves_of, fixed_of, step_at, count_at};

/// The step of one environment: what an entry does to its state is a function of that state and the
/// call.
pub fn step()
    // An entry that does not concern an environment leaves its state unchanged.
    ensures frame { (config : Config) (h : List Entry) (entry : Entry) (e : ℕ) → IsLegal config (entry ∷ h)
        → concerns h e entry ≡ false → stand config (entry ∷ h) e ≡ stand config h e }
    // An entry that concerns an environment changes its state to what `stand_after` says,
    ensures stands { (config : Config) (h : List Entry) (entry : Entry) (e : ℕ) → IsLegal config (entry ∷ h)
        → concerns h e entry ≡ true
        → stand config (entry ∷ h) e
        ≡ stand_after (fixed_of config e) (step_at h entry (count_at config h entry e)) (stand config h e)
        entry.call }
    // and gives the environment's tickets the answers that `moves_of` lists.
    ensures moves { (config : Config) (h : List Entry) (entry : Entry) (e : ℕ) → IsLegal config (entry ∷ h)
        → concerns h e entry ≡ true
        → filter (λ a. is_number (home (entry ∷ h) a.0) e) entry.answers
        ≡ moves_of (fixed_of config e) (step_at h entry (count_at config h entry e)) (stand config h e) entry.call }
    // An invocation is placed there and in flight before the entry, but not after it, exactly if
    // `ended_by` names it.
    ensures ended { (config : Config) (h : List Entry) (entry : Entry) (e p : ℕ) → IsLegal config (entry ∷ h)
        → (is_number (place_of h p) e && (is_charged config h p && not (is_charged config (entry ∷ h) p)))
        ≡ is_number (ended_by (phase config h e) (phase config (entry ∷ h) e)) p }
{}
