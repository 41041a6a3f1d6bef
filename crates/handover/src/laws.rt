//! What holds of requests that are handed over, whatever happens. Each function does nothing; its clauses are the laws.

ghost use Rattle.std.specs.Prelude.{◌≡◌, ◌+◌, ◌≤◌, ◌++◌, ◌∷◌, [], ℕ, true, false, nat_lt, List, length, chars, encode_utf8_all};
ghost use Rattle.std.specs.List.{Contains, list_all};
ghost use Rattle.http_header.specs.FieldValue.{FieldValue};
ghost use Rattle.json.specs.Print.{print};
ghost use Rattle.std.specs.Map.{keys_of};
ghost use Rattle.handover.specs.declared.counter.Limits.{Limits as Bounds};
ghost use Rattle.handover.specs.Counters.{opened, bytes_held};
ghost use Rattle.handover.specs.Heads.{head_tokens, line_of, named_tokens};
ghost use Rattle.handover.specs.Pipes as pipe;
ghost use Rattle.handover.specs.declared.pipe.Taken.TheVariants as takes;
ghost use Rattle.handover.specs.Runs.{Event, Answered, run, all_ends, all_hands, times, times_here, times_given};

/// Every request is in one place.
pub fn one_place()
    // Each identifier that was given is that of one request, which waits, is at a handler or has ended, and so has
    // ended once at most; one that was not given is that of none.
    ensures one { (limits : Bounds) (events : List Event) (id : ℕ) → times_here id (run (opened limits) events)
        + times id (keys_of (all_ends (opened limits) events))
        ≡ times_given id (run (opened limits) events).next_id }
    // Identifiers rise: what was given stays given.
    ensures rises { (limits : Bounds) (events more : List Event) → (run (opened limits) events).next_id
        ≤ (run (run (opened limits) events) more).next_id }
{}

/// A request is answered by the handler that took it.
pub fn one_handler()
    // Each request is handed to one handler at most.
    ensures handed_once { (limits : Bounds) (events : List Event) (id : ℕ)
        → times id (keys_of (all_hands (opened limits) events)) ≤ 1 }
    // Which answers it, if one does.
    ensures by_its_own { (limits : Bounds) (events : List Event) (id handler : ℕ)
        → Contains (all_ends (opened limits) events) (id, Answered handler)
        → Contains (all_hands (opened limits) events) (id, handler) }
{}

/// No more is handed over at once than may be.
pub fn bounded()
    ensures requests { (limits : Bounds) (events : List Event)
        → length (run (opened limits) events).waiting + length (run (opened limits) events).taken ≤ limits.most }
    ensures bytes { (limits : Bounds) (events : List Event)
        → bytes_held (run (opened limits) events).waiting ≤ limits.most_bytes }
{}

/// A handler gets the request that came.
pub fn messages()
    // The line of a request is the text of its head, with its identifier as the first member, and a line feed.
    ensures line { (id port : ℕ) (method target : List ℕ) (fields : List (List ℕ × FieldValue))
        → line_of id (print (head_tokens port method target fields))
        ≡ print (named_tokens id port method target fields) ++ 10 ∷ [] }
    // The characters of a field's text are the bytes of its value.
    ensures bytes_stay { (bytes : List ℕ) → list_all (λ b. nat_lt b 256) bytes ≡ true
        → chars (encode_utf8_all bytes) ≡ bytes }
{}

/// A body that is passed on reaches its receiver in order, without a gap, and within the bound.
pub fn passed_on()
    // What was taken out is the beginning of what was put in.
    ensures begins { (events : List pipe.Event) → (more : List ℕ)
        × (pipe.all_put pipe.opened events ≡ pipe.all_got pipe.opened events ++ more) }
    // It is all of it once the receiver learns that the body has come to its end.
    ensures whole { (events : List pipe.Event) → pipe.taken (pipe.run pipe.opened events) ≡ takes.Whole
        → pipe.all_put pipe.opened events ≡ pipe.all_got pipe.opened events }
    // Never is more held than may be.
    ensures bounded { (events : List pipe.Event) → length (pipe.run pipe.opened events).held ≤ pipe.most_held }
    // After the end nothing more is put in,
    ensures puts_no_more { (p : pipe.Passing) (events : List pipe.Event) → pipe.is_open p.ending ≡ false
        → pipe.all_put p events ≡ [] }
    // and nothing more is taken out once all was.
    ensures gives_no_more { (p : pipe.Passing) (events : List pipe.Event) → pipe.is_open p.ending ≡ false → p.held ≡ []
        → pipe.all_got p events ≡ [] }
{}
