//! The laws of the trace: functions that do nothing, whose contracts are proved.

ghost use Rattle.std.specs.Prelude.{◌≡◌, ◌<◌, ◌≤◌, ◌∷◌, ◌++◌, ℕ, Bool, true, List, length, Some, None, All};
ghost use Rattle.arn_ids.specs.Faults.{first_fault};
ghost use Rattle.arn_ids.specs.Limits.{greatest_moment};
ghost use Rattle.arn_ids.specs.declared.config.Config.{Config};
ghost use Rattle.call_types.specs.Calls.{body_of};
ghost use Rattle.call_types.specs.declared.call.Entry.{Entry};
ghost use Rattle.call_model.specs.Next.{IsLegal};
ghost use Rattle.json.specs.Lex.{tokens};
ghost use Rattle.json.specs.Print.{print};
ghost use Rattle.script.specs.CallText.{call_text};
ghost use Rattle.trace.specs.Object.{object_text, object_tokens, told, Turn};
ghost use Rattle.trace.specs.Reading.{entry_in, line_in, IsTold};

/// The trace loses no call: from the tokens of an entry's object, with bodies, its moment and its call are read again,
/// and from these the line of the call is written again.
pub fn calls_read_back()
    ensures call { (config : Config) (salt : ℕ) (h : List Entry) (ticket : ℕ) (entry : Entry) (turns : List Turn)
        → first_fault config ≡ None → entry.moment ≤ greatest_moment → IsTold config entry.call
        → All (λ b. b < 256) (body_of entry.call)
        → entry_in config (told true config salt h ticket entry turns) ≡ Some (entry.moment, entry.call) }
    ensures line { (config : Config) (salt : ℕ) (h older : List Entry) (entry : Entry)
        → let object = object_tokens true config salt h older entry in first_fault config ≡ None
        → entry.moment ≤ greatest_moment → IsTold config entry.call → All (λ b. b < 256) (body_of entry.call)
        → tokens (print object) ≡ object
        → line_in config (print object) ≡ Some (call_text config entry.moment entry.call) }
{}

/// A line stays: once a history has an entry, each history that continues it has the same line for that
/// entry, to the byte. So the lines that a reader is given as the history grows are, one after the other,
/// the trace of the whole history. Entries are listed the newest first: the history that continues `h` is
/// `newer ++ h`, and `older` are the entries before this one.
pub fn lines_stay()
    ensures { (bodies : Bool) (config : Config) (salt : ℕ) (h newer older : List Entry) (entry : Entry)
        → IsLegal config (entry ∷ older) → length older < length h
        → object_text bodies config salt (newer ++ h) older entry
        ≡ object_text bodies config salt h older entry }
{}
