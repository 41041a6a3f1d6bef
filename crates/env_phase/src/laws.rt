//! The laws of an environment over every legal history. The function does nothing; its clauses are the laws.

ghost use Rattle.std.specs.Prelude.{◌≡◌, ◌+◌, ◌*◌, ◌≤◌, ℕ, true, List, [], ◌∷◌, length, not, ◌&&◌};
ghost use Rattle.arn_ids.specs.declared.config.Config.{Config};
ghost use Rattle.arn_ids.specs.Environments.{owners, function_of, function_at};
ghost use Rattle.arn_ids.specs.Limits.{most_extensions};
ghost use Rattle.call_types.specs.declared.call.Entry.{Entry};
ghost use Rattle.call_model.specs.Laws.{ended_by};
ghost use Rattle.call_model.specs.History.{place_of};
ghost use Rattle.call_model.specs.Life.{stand, concerns};
ghost use Rattle.call_model.specs.Limits.{is_charged};
ghost use Rattle.call_model.specs.Next.{IsLegal};
ghost use Rattle.call_model.specs.Stand.{is_number};
ghost use Rattle.env_phase.specs.Meeting.{known_at, step_there, answers_there};
ghost use Rattle.env_phase.specs.Taking.{opened, taken, given};

/// An environment that is opened, and takes each call that concerns it, is at every moment what a legal history says
/// of it. (An entry that does not concern it leaves its state: `environment_step::laws::step`.)
pub fn meets()
    // An environment that is opened is what the empty history says of it.
    ensures opens { (config : Config) (e : ℕ) → 1 ≤ e → e ≤ length (owners config)
        → opened (function_at config (function_of config e)) ≡ known_at config [] e }
    // One that takes the call of an entry which concerns it becomes what the history with that entry says of it,
    ensures stands { (config : Config) (h : List Entry) (entry : Entry) (e : ℕ) → IsLegal config (entry ∷ h)
        → concerns h e entry ≡ true
        → taken (known_at config h e) (step_there config h entry e) entry.call ≡ known_at config (entry ∷ h) e }
    // gives the entry's answers to its tickets, in their order,
    ensures moves { (config : Config) (h : List Entry) (entry : Entry) (e : ℕ) → IsLegal config (entry ∷ h)
        → concerns h e entry ≡ true
        → given (known_at config h e) (step_there config h entry e) entry.call ≡ answers_there h entry e }
    // and shows, by its phases before and after, whose charge the entry ends.
    ensures ended { (config : Config) (h : List Entry) (entry : Entry) (e p : ℕ) → IsLegal config (entry ∷ h)
        → concerns h e entry ≡ true
        → (is_number (place_of h p) e && (is_charged config h p && not (is_charged config (entry ∷ h) p)))
        ≡ is_number (ended_by (stand config h e).phase
        (taken (known_at config h e) (step_there config h entry e) entry.call).stand.phase) p }
    // An entry gives an environment's tickets at most one answer for each extension, and three more: to the waiting
    // call, to the runtime's Next and to its own;
    ensures answers { (config : Config) (h : List Entry) (entry : Entry) (e : ℕ) → IsLegal config (entry ∷ h)
        → length (answers_there h entry e) ≤ length (stand config h e).members + 3 }
    // there are ten extensions at most,
    ensures ten { (config : Config) (h : List Entry) (e : ℕ) → IsLegal config h
        → length (stand config h e).members ≤ most_extensions }
    // and so 13 answers.
    ensures few { (config : Config) (h : List Entry) (entry : Entry) (e : ℕ) → IsLegal config (entry ∷ h)
        → length (answers_there h entry e) ≤ 13 }
    // Each entry adds at most 24 events to the number that an environment has told.
    ensures events { (config : Config) (h : List Entry) (e : ℕ) → IsLegal config h
        → (stand config h e).events ≤ 24 * length h }
    // and at most one registration: in a history of fewer than 2^32 entries both numbers leave the room for more that
    // `Environment::take` asks for.
    ensures registered { (config : Config) (h : List Entry) (e : ℕ) → IsLegal config h
        → (stand config h e).registrations ≤ length h }
{}
