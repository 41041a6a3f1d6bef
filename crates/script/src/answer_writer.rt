//! The lines of answers, and the text of an entry in a history.

ghost use Rattle.std.specs.Prelude.{◌≡◌, ℕ, ◌<◌, List, [], ◌∷◌, ◌++◌, decimal, length, take, drop, reverse};
ghost use Rattle.std.specs.Prelude.{slice_index_or, OnOk, OnErr, IfOk};
ghost use Rattle.arn_ids.specs.declared.identifiers.IdKind.TheVariants.{Event};
ghost use Rattle.call_types.specs.declared.call.Entry.{Entry};
ghost use Rattle.call_types.specs.Words.{reason_word};
ghost use Rattle.script.specs.AnswerText as spec;
ghost use Rattle.script.specs.AnswerText.{answer_words, answer_line, answer_lines, entry_text};
ghost use Rattle.call_model.specs.Identifiers.{request_word, env_word};
ghost use Rattle.script.specs.Writing.{Adds, spaced, marked_lines, word_text};

use crate::call_writer::push_call;
use crate::draft::Draft;
use crate::sink::Sink;
use crate::words::{Word, end_line, push_last, push_name, push_spaced, push_word, push_words};
use arn_ids::IdKind;
use call_model::{Answer, Entry, Past, Reason, Ticket};
use std::alloc::{AllocError, Global};

/// Returns the bytes of the call with a ticket.
fn body_word<'a>(past: &Past<'a>, ticket: Ticket) -> Word<'a>
    ensures { word_text result ≡ spec.body_word (reverse past.now.entries.now.0) ticket }
{
    match past.body(ticket) {
        None => Word::Text(&[]),
        Some(body) => Word::Body(body),
    }
}

/// Returns the first word of an answer.
#[tactic(auto, unfolding(crate::specs::AnswerText::answer_words))]
fn first_word(answer: Answer) -> &'static str
    ensures { (salt : ℕ) (h : List Entry) (t : ℕ) → take 1 (answer_words salt h t answer) ≡ result.now ∷ [] }
{
    match answer {
        Answer::Delivered { .. } => "deliver",
        Answer::Told { .. } => "tell",
        Answer::Ending { .. } => "shutdown",
        Answer::Registered { .. } => "registered",
        Answer::Accepted => "accepted",
        Answer::Done => "done",
        Answer::Output { .. } => "output",
        Answer::Error { .. } => "error",
        Answer::TimedOut => "timeout",
        Answer::InitTimedOut => "init-timeout",
        Answer::OutputTooLarge => "too-large-output",
        Answer::Throttled(_) => "throttled",
        Answer::Stopped => "stopped",
        Answer::Withdrawn => "withdrawn",
        Answer::Refused(_) => "refused",
        Answer::Reserved { .. } => "reserved",
        Answer::Unreserved => "unreserved",
    }
}

fn push_delivery<W: Sink>(
    out: &mut W,
    past: &Past,
    invoke: Ticket,
    deadline: u64,
) -> Result<(), AllocError>
    ensures { let h = reverse past.now.entries.now.0 in
        Adds result (spaced (request_word past.now.salt h invoke ∷ decimal deadline
        ∷ spec.body_word h invoke ∷ [])) (W.text out.old) (W.text out.new) }
{
    let words = [
        Word::Identifier(past.request_id(invoke)),
        Word::Number(deadline),
        body_word(past, invoke),
    ];
    push_words(out, &words)
}

fn push_event<W: Sink>(
    out: &mut W,
    past: &Past,
    ticket: Ticket,
    invoke: Ticket,
    deadline: u64,
    event: u64,
) -> Result<(), AllocError>
    ensures { let h = reverse past.now.entries.now.0 in
        Adds result (spaced (env_word past.now.salt Event h ticket event
        ∷ request_word past.now.salt h invoke ∷ decimal deadline ∷ [])) (W.text out.old) (W.text out.new) }
{
    let words = [
        Word::Identifier(past.environment_id(IdKind::Event, ticket, event)),
        Word::Identifier(past.request_id(invoke)),
        Word::Number(deadline),
    ];
    push_words(out, &words)
}

fn push_ending<W: Sink>(
    out: &mut W,
    past: &Past,
    ticket: Ticket,
    reason: Reason,
    until: u64,
    event: u64,
) -> Result<(), AllocError>
    ensures { let h = reverse past.now.entries.now.0 in
        Adds result (spaced (env_word past.now.salt Event h ticket event
        ∷ reason_word reason ∷ decimal until ∷ [])) (W.text out.old) (W.text out.new) }
{
    let words = [
        Word::Identifier(past.environment_id(IdKind::Event, ticket, event)),
        Word::Plain(reason.as_str()),
        Word::Number(until),
    ];
    push_words(out, &words)
}

/// Adds the words of an answer after its first, each after a space.
#[tactic(auto, unfolding(crate::specs::AnswerText::answer_words))]
fn push_other_words<W: Sink>(
    out: &mut W,
    past: &Past,
    ticket: Ticket,
    answer: Answer,
) -> Result<(), AllocError>
    ensures { Adds result
        (spaced (drop 1 (answer_words past.now.salt (reverse past.now.entries.now.0) ticket answer)))
        (W.text out.old) (W.text out.new) }
{
    match answer {
        Answer::Delivered { invoke, deadline } => push_delivery(out, past, invoke, deadline),
        Answer::Told {
            invoke,
            deadline,
            event,
        } => push_event(out, past, ticket, invoke, deadline, event),
        Answer::Ending {
            reason,
            until,
            event,
        } => push_ending(out, past, ticket, reason, until, event),
        Answer::Registered { count } => {
            push_last(
                out,
                &Word::Identifier(past.environment_id(IdKind::Extension, ticket, count)),
            )
        }
        Answer::Output { source } => push_last(out, &body_word(past, source)),
        Answer::Error { source } => push_last(out, &body_word(past, source)),
        Answer::Throttled(reason) => push_name(out, reason.as_str()),
        Answer::Refused(refusal) => push_name(out, refusal.as_str()),
        Answer::Reserved { count } => push_last(out, &Word::Number(u64::from(count))),
        Answer::Accepted
        | Answer::Done
        | Answer::TimedOut
        | Answer::InitTimedOut
        | Answer::OutputTooLarge
        | Answer::Stopped
        | Answer::Withdrawn
        | Answer::Unreserved => Ok(()),
    }
}

/// Adds the words of an answer, each after a space.
fn push_answer_words<W: Sink>(
    out: &mut W,
    past: &Past,
    ticket: Ticket,
    answer: Answer,
) -> Result<(), AllocError>
    ensures { Adds result (spaced (answer_words past.now.salt (reverse past.now.entries.now.0) ticket answer))
        (W.text out.old) (W.text out.new) }
{
    push_spaced(out, &Word::Plain(first_word(answer)))?;
    push_other_words(out, past, ticket, answer)
}

/// Adds a mark, and the numbers at the start of an answer's line.
fn push_numbers<W: Sink>(
    out: &mut W,
    mark: &str,
    number: usize,
    ticket: Ticket,
) -> Result<(), AllocError>
    ensures { Adds result (mark.now ++ (decimal number ++ 32 ∷ decimal ticket)) (W.text out.old) (W.text out.new) }
{
    push_word(out, &Word::Plain(mark))?;
    push_word(out, &Word::Number(number as u64))?;
    push_spaced(out, &Word::Number(ticket))
}

/// Adds the line of an answer, after a mark.
fn push_answer<W: Sink>(
    out: &mut W,
    past: &Past,
    mark: &str,
    number: usize,
    ticket: Ticket,
    answer: Answer,
) -> Result<(), AllocError>
    ensures { Adds result
        (mark.now ++ answer_line past.now.salt (reverse past.now.entries.now.0) number ticket answer)
        (W.text out.old) (W.text out.new) }
{
    push_numbers(out, mark, number, ticket)?;
    push_answer_words(out, past, ticket, answer)?;
    end_line(out)
}

/// Adds the lines of answers, each after a mark.
fn push_lines<W: Sink>(
    out: &mut W,
    past: &Past,
    mark: &str,
    number: usize,
    answers: &[(Ticket, Answer)],
) -> Result<(), AllocError>
    ensures { Adds result (marked_lines past.now.salt (reverse past.now.entries.now.0) mark.now number answers.now)
        (W.text out.old) (W.text out.new) }
{
    for (ticket, answer) in answers {
        push_answer(out, past, mark, number, *ticket, *answer)?;
    }
    Ok(())
}

/// Adds the lines of the answers that the entry with a number gave, in rising ticket order: `E T
/// words` and a line feed, E the entry's number, T the ticket that was answered.
///
/// | Answer | Words |
/// |---|---|
/// | `Delivered` | `deliver REQ D =BODY`, REQ the request identifier, D the deadline in ms |
/// | `Told` | `tell EV REQ D`, EV the event identifier |
/// | `Ending` | `shutdown EV TIMEOUT U`, `.. FAILURE U` or `.. SPINDOWN U`, U in ms |
/// | `Registered` | `registered ID`, ID the extension identifier |
/// | `Output`, `Error` | `output =BODY`, `error =BODY` |
/// | `TimedOut`, `InitTimedOut`, `OutputTooLarge` | `timeout`, `init-timeout`, `too-large-output` |
/// | `Throttled` | `throttled REASON`, as Invoke names it |
/// | `Refused` | `refused KIND`, the refusal's name |
/// | `Reserved`, `Unreserved` | `reserved N`, `unreserved` |
/// | `Accepted`, `Done`, `Stopped`, `Withdrawn` | the same word in lower case |
///
/// In a body, the bytes below 0x21, `%` and the bytes above 0x7E are percent-encoded. If an identifier
/// cannot have its number or its count, a dash is written instead.
///
/// Only the entries that the answers name are read.
///
/// # Errors
/// Only if memory is refused; `out` is then as it was.
pub fn push_answers(out: &mut Vec<u8>, past: &Past, number: usize) -> Result<(), AllocError>
    requires { number < length past.now.entries.now.0 }
    ensures ok { OnOk result ((d : Entry) → out.new.items ≡ out.old.items
        ++ answer_lines past.now.salt (reverse past.now.entries.now.0) number
        (slice_index_or past.now.entries.now.0 number d)) }
    ensures err { OnErr result (out.new.items ≡ out.old.items) }
{
    let start = out.len();
    let entry = past.entries.at(number);
    match push_lines(out, past, "", number, entry.answers.as_slice()) {
        Ok(()) => Ok(()),
        Err(error) => {
            out.truncate(start);
            Err(error)
        }
    }
}

fn push_whole_entry<W: Sink>(
    out: &mut W,
    past: &Past,
    number: usize,
    entry: &Entry,
) -> Result<(), AllocError>
    ensures { Adds result (entry_text past.now.config.now past.now.salt (reverse past.now.entries.now.0) number
        entry.now) (W.text out.old) (W.text out.new) }
{
    push_call(out, past.config, entry.moment, &entry.call)?;
    end_line(out)?;
    push_lines(out, past, "# ", number, entry.answers.as_slice())
}

/// Returns the text of the entry with a number, as a history has it, before its bodies are escaped: the
/// line of its call, as `read_call` reads it, and the lines of its answers as `push_answers` writes them,
/// each after `# `. An expiry isn't a call: it is the comment `## M expire E`.
///
/// # Errors
/// Only if memory is refused.
pub fn draft_entry(alloc: Global, past: &Past, number: usize) -> Result<Draft, AllocError>
    requires { number < length past.now.entries.now.0 }
    ensures { IfOk result (λ draft. (d : Entry) → draft
        ≡ entry_text past.now.config.now past.now.salt (reverse past.now.entries.now.0) number
        (slice_index_or past.now.entries.now.0 number d)) }
{
    let mut draft = Draft::new(alloc);
    push_whole_entry(&mut draft, past, number, past.entries.at(number))?;
    Ok(draft)
}
