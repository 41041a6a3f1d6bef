//! The laws: functions that do nothing, whose contracts are proved.

ghost use Rattle.std.specs.Prelude.{◌≡◌, ℕ, true, List, [], ◌∷◌, Some, None};
ghost use Rattle.arn_ids.specs.Environments.{function_at};
ghost use Rattle.arn_ids.specs.Faults.{first_fault};
ghost use Rattle.arn_ids.specs.declared.config.Config.{Config};
ghost use Rattle.call_types.specs.declared.answer.Throttle.TheVariants.{Environments as ByEnvironments};
ghost use Rattle.call_types.specs.declared.call.Call.TheVariants.{Tick};
ghost use Rattle.call_types.specs.declared.call.Entry.{Entry};
ghost use Rattle.call_model.specs.Counts.{stats};
ghost use Rattle.call_model.specs.Isolation.{IsLegalSave, IsUnnamed};
ghost use Rattle.call_model.specs.Life.{stand};
ghost use Rattle.call_model.specs.Limits.{reservation, verdict, Refuses};
ghost use Rattle.call_model.specs.Next.{IsLegal};
ghost use Rattle.call_model.specs.Own.{own, own_ticket};
ghost use Rattle.call_types.specs.declared.stats.Stats.{Stats};
ghost use Rattle.call_model.specs.Sample.{one};
ghost use Rattle.account_book.specs.ReplyText.{reply_text};
ghost use Rattle.account_lock.specs.Shown.{Sees};
ghost use Rattle.headline.specs.AnyOutput.{HasOutput, HasPayload, IsSent};
ghost use Rattle.headline.specs.Headline.{Headline, HasOneFate, IsWithinLimits};
ghost use Rattle.headline.specs.Refused.{admitted, answered_twice, one_waits, shut, two_wait};

/// The headline holds of every legal history, with its own counts.
pub fn headline()
    ensures { (config : Config) (h : List Entry) → IsLegal config h → Headline config h (stats config h) }
{}

/// The headline holds of every history that a token of a running account has seen.
pub fn seen()
    ensures { (config : Config) (most : ℕ) (before h : List Entry) → Sees config most before h
        → Headline config h (stats config h) }
{}

/// The headline can hold and can fail. An invocation that waits in its environment has one fate; one that was
/// answered twice has none, nor has one that waits beside another in one environment. An admission beyond a
/// reservation is not within the limits, and only the history's own counts can be shown.
pub fn refuses()
    ensures waits { Headline one one_waits (stats one one_waits) × HasOneFate one one_waits 0 1 }
    ensures twice { HasOneFate one answered_twice 0 1 → ⊥ }
    ensures alone { HasOneFate one two_wait 1 1 → ⊥ }
    ensures past { IsWithinLimits shut [] admitted 1 → ⊥ }
    ensures counts { (config : Config) (h : List Entry) (told : Stats) → Headline config h told
        → told ≡ stats config h }
{}

/// What a response is not held to by being of *some* history that calls led to: there is one in which an Invoke has
/// whatever output, and one in which a Next gets whatever payload. (The contract of a connection says beside that which
/// beginning of the account's own history it continues; the histories here continue nothing.)
pub fn any_output()
    ensures output { (body : List ℕ) → IsSent body → (h : List Entry) × HasOutput body h }
    ensures payload { (body : List ℕ) → IsSent body → (h : List Entry) × HasPayload body h }
{}

/// In a configuration without a fault, a function whose reservation is in force is never refused for lack
/// of an environment. (Lambda Developer Guide: reserved concurrency)
pub fn never_local()
    ensures { (config : Config) (h : List Entry) (f limit : ℕ) → first_fault config ≡ None → IsLegal config h
        → reservation config h f ≡ Some limit → verdict config h f ≡ Refuses ByEnvironments → ⊥ }
{}

/// Isolation by reservation, in every legal history: a function that the configuration reserves, and that no
/// Reserve names, gets what it would get in an account where no other function is called and the clock ticks
/// at the same moments. (Lambda Developer Guide: reserved concurrency)
pub fn isolated()
    // The function's own history is legal, except that something may be due at a Tick. It has the answers of
    // the whole history, so this clause says that they are right in an account without other callers.
    ensures legal { (config : Config) (h : List Entry) (f limit : ℕ) → IsLegal config h
        → (function_at config f).reserved ≡ Some limit → IsUnnamed f h → IsLegalSave config (own config h f) }
    // In it each ticket of the function has the same reply: status, headers and body, with all identifiers.
    ensures replies { (config : Config) (salt : ℕ) (h : List Entry) (f t : ℕ) → IsLegal config h
        → own_ticket config h f t ≡ true → reply_text config salt (own config h f) t ≡ reply_text config salt h t }
{}

/// A Tick leaves every environment as it is: each change that time brings is an expiry, with an entry of its
/// own.
pub fn ticks_change_nothing()
    ensures legal { (config : Config) (h : List Entry) (entry : Entry) (e : ℕ) → IsLegal config (entry ∷ h)
        → entry.call ≡ Tick → stand config (entry ∷ h) e ≡ stand config h e }
    // Nor does a Tick change one in a function's own history.
    ensures own { (config : Config) (h : List Entry) (entry : Entry) (e : ℕ) → IsLegalSave config (entry ∷ h)
        → entry.call ≡ Tick → stand config (entry ∷ h) e ≡ stand config h e }
{}
