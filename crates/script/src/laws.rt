//! The law of lines: a function that does nothing, whose contract is proved.

ghost use Rattle.std.specs.Prelude.{◌≡◌, ◌<◌, ◌≤◌, ℕ, true, Some, None, All};
ghost use Rattle.arn_ids.specs.Faults.{first_fault};
ghost use Rattle.arn_ids.specs.declared.config.Config.{Config};
ghost use Rattle.call_types.specs.declared.call.Call.{Call};
ghost use Rattle.call_types.specs.Calls.{body_of};
ghost use Rattle.script.specs.CallText.{call_text};
ghost use Rattle.call_types.specs.Within.{IsWithin};
ghost use Rattle.script.specs.Lines.{call_in};
ghost use Rattle.arn_ids.specs.Limits.{greatest_moment};

/// The line of a call is read as that call, for every call that a script can make, over every
/// configuration without a fault.
pub fn lines_read_back()
    ensures { (config : Config) (moment : ℕ) (call : Call) → first_fault config ≡ None
        → moment ≤ greatest_moment → IsWithin config call → All (λ b. b < 256) (body_of call)
        → call_in true config (call_text config moment call) ≡ Some (moment, call) }
{}
