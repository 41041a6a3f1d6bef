//! Laws of histories and their texts: functions with no work in them, whose contracts are proved.

ghost use Rattle.std.specs.Prelude.{◌≡◌, ◌+◌, ◌<◌, ℕ, true, false, List, [], ◌∷◌, ◌++◌, length, reverse, slice_index_or};
ghost use Rattle.std.specs.Prelude.{codes, None, Some};
ghost use Rattle.std.specs.List.{AllZip, flat_map};
ghost use Rattle.std.specs.Str.Lines.{lines};
ghost use Rattle.arn_ids.specs.Environments.{count_from};
ghost use Rattle.arn_ids.specs.declared.config.Config.{Config};
ghost use Rattle.call_types.specs.declared.call.Call.{Call};
ghost use Rattle.call_types.specs.declared.call.Entry.{Entry};
ghost use Rattle.call_model.specs.History.{call_of};
ghost use Rattle.call_model.specs.Next.{IsLegal, next};
ghost use Rattle.lambda_wire.specs.declared.reply.Reply.{Reply};
ghost use Rattle.script.specs.AnswerText.{entry_text};
ghost use Rattle.account_book.specs.HistoryText.{answers_text, history_text, opening_text};
ghost use Rattle.account_book.specs.Reached.{AreTaken, IsBooked, IsReached, IsTakenAfter, led_to};
ghost use Rattle.account_book.specs.ReplyText.{reply_text};
ghost use Rattle.account_book.specs.Requests.{tickets_of};
ghost use Rattle.account_book.specs.Run.{Taking, before, is_of_form_2, replay_from, run};

/// The history of a new book is reached, each call that a book takes reaches the next history, and
/// every history that is reached is legal.
pub fn reached()
    ensures first { (config : Config) (max_entries : ℕ) → IsReached config max_entries [] }
    ensures next { (config : Config) (max_entries : ℕ) (h : List Entry) (now : ℕ) (call : Call)
        → IsReached config max_entries h → IsTakenAfter config max_entries h now call
        → IsReached config max_entries (next config h now call) }
    ensures legal { (config : Config) (max_entries : ℕ) (h : List Entry) → IsReached config max_entries h
        → IsLegal config h }
{}

/// A reply stays: once a history gives the reply to a ticket, each history that continues it has the same call at
/// that ticket, and gives it the same reply, to the byte. Entries are listed the newest first, so the history that
/// continues `h` is `newer ++ h`.
pub fn replies_stay()
    ensures calls { (h newer : List Entry) (ticket : ℕ) → ticket < length h
        → call_of (newer ++ h) ticket ≡ call_of h ticket }
    ensures replies { (config : Config) (salt max_entries : ℕ) (h newer : List Entry) (ticket : ℕ) (reply : Reply)
        → IsReached config max_entries (newer ++ h) → reply_text config salt h ticket ≡ Some reply
        → reply_text config salt (newer ++ h) ticket ≡ Some reply }
{}

/// A list of requests has the replies of one history. Calls are listed the newest first, in the order in
/// which they were taken. In the history that they lead to, each has its own ticket, greater than those
/// before it; and the reply that a ticket has once, when its call was just taken or after later ones, is
/// the reply that it has in the whole history, to the byte.
pub fn requests()
    ensures calls { (config : Config) (calls : List (ℕ × Call))
        → AllZip (λ ticket c. call_of (led_to config calls) ticket ≡ c.1) (tickets_of config calls) calls }
    ensures rising { (config : Config) (c : ℕ × Call) (calls : List (ℕ × Call))
        → length (led_to config calls) < length (led_to config (c ∷ calls)) }
    ensures replies { (config : Config) (salt max_entries : ℕ) (later earlier : List (ℕ × Call)) (ticket : ℕ)
        (reply : Reply) → AreTaken config max_entries (later ++ earlier)
        → reply_text config salt (led_to config earlier) ticket ≡ Some reply
        → reply_text config salt (led_to config (later ++ earlier)) ticket ≡ Some reply }
{}

/// The text of a history is what its book gives part by part: the opening, and then the text of each
/// entry, the oldest first. `Book::opening` gives the first part, `Book::history` the others, with the
/// tickets 0, 1 and so on.
pub fn text_in_parts()
    ensures { (config : Config) (salt max_entries : ℕ) (h : List Entry) (d : Entry)
        → history_text config salt max_entries h
        ≡ opening_text config salt max_entries
        ++ flat_map (λ t. entry_text config salt h t (slice_index_or (reverse h) t d)) (count_from 0 (length h)) }
{}

/// The replay of a history gives its own answers: the text of a history that calls led to is a script
/// without a fault, and what its replay writes is exactly the answer lines of the history.
pub fn replays()
    ensures { (config : Config) (salt max_entries : ℕ) (h : List Entry) → IsBooked config salt max_entries
        → IsReached config max_entries h
        → run (history_text config salt max_entries h) ≡ record { text = answers_text salt h; fault = None } }
{}

/// The replay makes the same history again: a script that begins with the text continues with a book that
/// has this history, and the same configuration, salt and maximum number of entries.
pub fn goes_on()
    ensures { (config : Config) (salt max_entries : ℕ) (h : List Entry) (more : List ℕ)
        → IsBooked config salt max_entries → IsReached config max_entries h
        → run (history_text config salt max_entries h ++ more)
        ≡ before (answers_text salt h) (replay_from (1 + length (lines (history_text config salt max_entries h)))
        (Taking true (record { config = config; salt = salt; max_entries = max_entries; history = h })) (lines more)) }
{}

/// If `form 2` is put before a script of form 1 that has no fault, its replay writes the same text, and
/// has no fault. If the script has a fault, what it writes before the fault is still written.
pub fn form_2_goes_as_far()
    ensures same { (input : List ℕ) → is_of_form_2 input ≡ false → (run input).fault ≡ None
        → run (codes "form 2\n" ++ input) ≡ run input }
    ensures front { (input : List ℕ) → is_of_form_2 input ≡ false → (more : List ℕ)
        × ((run (codes "form 2\n" ++ input)).text ≡ (run input).text ++ more) }
{}
