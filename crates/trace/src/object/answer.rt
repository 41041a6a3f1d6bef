//! The object of an answer.

ghost use Rattle.std.specs.Prelude.{◌∷◌, [], codes, reverse};
ghost use Rattle.arn_ids.specs.declared.identifiers.IdKind.TheVariants.{Extension, Event};
ghost use Rattle.call_types.specs.Words.{reason_word};
ghost use Rattle.call_model.specs.Identifiers as words;
ghost use Rattle.trace.specs.AnswerObject.{answer_object};
ghost use Rattle.trace.specs.AnswerObject as spec;
ghost use Rattle.trace.specs.Members.{object, number_member, text_member};
ghost use Rattle.trace.specs.Telling.{Tells};

use crate::draft::{Part, Teller};
use arn_ids::IdKind;
use call_model::{Answer, Past, Reason, Ticket};

fn say_bare(teller: &mut Teller, word: &'static str, ticket: Ticket)
    ensures { Tells (spec.bare word.now ticket) teller.old teller.new }
{
    teller.say_all(&[
        Part::Open,
        Part::Key("answer"),
        Part::Word(word),
        Part::Key("ticket"),
        Part::Number(ticket),
        Part::Close,
    ]);
}

fn say_reasoned(teller: &mut Teller, word: &'static str, reason: &'static str, ticket: Ticket)
    ensures { Tells (spec.reasoned word.now reason.now ticket) teller.old teller.new }
{
    teller.say_all(&[
        Part::Open,
        Part::Key("answer"),
        Part::Word(word),
        Part::Key("reason"),
        Part::Word(reason),
        Part::Key("ticket"),
        Part::Number(ticket),
        Part::Close,
    ]);
}

fn say_carried(
    teller: &mut Teller,
    past: &Past,
    bodies: bool,
    word: &'static str,
    source: Ticket,
    ticket: Ticket,
)
    ensures { Tells (spec.carried bodies (reverse past.now.entries.now.0) word.now source ticket)
        teller.old teller.new }
{
    teller.say_around(
        &[Part::Open, Part::Key("answer"), Part::Word(word)],
        bodies,
        past.body(source),
        &[
            Part::Key("source"),
            Part::Number(source),
            Part::Key("ticket"),
            Part::Number(ticket),
            Part::Close,
        ],
    );
}

fn say_delivery(
    teller: &mut Teller,
    past: &Past,
    bodies: bool,
    invoke: Ticket,
    deadline: u64,
    ticket: Ticket,
)
    ensures { let h = reverse past.now.entries.now.0 in
        Tells (object (spec.answer (codes "deliver") ∷ spec.body_at bodies h invoke
        ∷ number_member (codes "deadline") deadline ∷ number_member (codes "invoke") invoke
        ∷ text_member (codes "request") (words.request_word past.now.salt h invoke) ∷ spec.ticket ticket ∷ []))
        teller.old teller.new }
{
    teller.say_around(
        &[Part::Open, Part::Key("answer"), Part::Word("deliver")],
        bodies,
        past.body(invoke),
        &[
            Part::Key("deadline"),
            Part::Number(deadline),
            Part::Key("invoke"),
            Part::Number(invoke),
            Part::Key("request"),
            Part::Identifier(past.request_id(invoke)),
            Part::Key("ticket"),
            Part::Number(ticket),
            Part::Close,
        ],
    );
}

fn say_notice(
    teller: &mut Teller,
    past: &Past,
    invoke: Ticket,
    deadline: u64,
    event: u64,
    ticket: Ticket,
)
    ensures { let h = reverse past.now.entries.now.0 in
        Tells (object (spec.answer (codes "tell") ∷ number_member (codes "deadline") deadline
        ∷ text_member (codes "event") (words.env_word past.now.salt Event h ticket event)
        ∷ number_member (codes "invoke") invoke
        ∷ text_member (codes "request") (words.request_word past.now.salt h invoke) ∷ spec.ticket ticket ∷ []))
        teller.old teller.new }
{
    teller.say_all(&[
        Part::Open,
        Part::Key("answer"),
        Part::Word("tell"),
        Part::Key("deadline"),
        Part::Number(deadline),
        Part::Key("event"),
        Part::Identifier(past.environment_id(IdKind::Event, ticket, event)),
        Part::Key("invoke"),
        Part::Number(invoke),
        Part::Key("request"),
        Part::Identifier(past.request_id(invoke)),
        Part::Key("ticket"),
        Part::Number(ticket),
        Part::Close,
    ]);
}

fn say_ending(
    teller: &mut Teller,
    past: &Past,
    reason: Reason,
    until: u64,
    event: u64,
    ticket: Ticket,
)
    ensures { let h = reverse past.now.entries.now.0 in
        Tells (object (spec.answer (codes "shutdown") ∷ number_member (codes "deadline") until
        ∷ text_member (codes "event") (words.env_word past.now.salt Event h ticket event)
        ∷ text_member (codes "reason") (reason_word reason) ∷ spec.ticket ticket ∷ [])) teller.old teller.new }
{
    teller.say_all(&[
        Part::Open,
        Part::Key("answer"),
        Part::Word("shutdown"),
        Part::Key("deadline"),
        Part::Number(until),
        Part::Key("event"),
        Part::Identifier(past.environment_id(IdKind::Event, ticket, event)),
        Part::Key("reason"),
        Part::Word(reason.as_str()),
        Part::Key("ticket"),
        Part::Number(ticket),
        Part::Close,
    ]);
}

fn say_registered(teller: &mut Teller, past: &Past, count: u64, ticket: Ticket)
    ensures { let h = reverse past.now.entries.now.0 in
        Tells (object (spec.answer (codes "registered")
        ∷ text_member (codes "extension") (words.env_word past.now.salt Extension h ticket count)
        ∷ spec.ticket ticket ∷ [])) teller.old teller.new }
{
    teller.say_all(&[
        Part::Open,
        Part::Key("answer"),
        Part::Word("registered"),
        Part::Key("extension"),
        Part::Identifier(past.environment_id(IdKind::Extension, ticket, count)),
        Part::Key("ticket"),
        Part::Number(ticket),
        Part::Close,
    ]);
}

fn say_reserved(teller: &mut Teller, count: u32, ticket: Ticket)
    ensures { Tells (object (spec.answer (codes "reserved") ∷ number_member (codes "count") count
        ∷ spec.ticket ticket ∷ [])) teller.old teller.new }
{
    teller.say_all(&[
        Part::Open,
        Part::Key("answer"),
        Part::Word("reserved"),
        Part::Key("count"),
        Part::Number(u64::from(count)),
        Part::Key("ticket"),
        Part::Number(ticket),
        Part::Close,
    ]);
}

/// Tells the object of the answer to a ticket.
#[tactic(auto, unfolding(crate::specs::AnswerObject::answer_object))]
pub(crate) fn say_answer(
    teller: &mut Teller,
    past: &Past,
    bodies: bool,
    ticket: Ticket,
    answer: Answer,
)
    ensures { Tells (answer_object bodies past.now.salt (reverse past.now.entries.now.0) ticket answer)
        teller.old teller.new }
{
    match answer {
        Answer::Delivered { invoke, deadline } => {
            say_delivery(teller, past, bodies, invoke, deadline, ticket)
        }
        Answer::Told {
            invoke,
            deadline,
            event,
        } => say_notice(teller, past, invoke, deadline, event, ticket),
        Answer::Ending {
            reason,
            until,
            event,
        } => say_ending(teller, past, reason, until, event, ticket),
        Answer::Registered { count } => say_registered(teller, past, count, ticket),
        Answer::Accepted => say_bare(teller, "accepted", ticket),
        Answer::Done => say_bare(teller, "done", ticket),
        Answer::Output { source } => say_carried(teller, past, bodies, "output", source, ticket),
        Answer::Error { source } => say_carried(teller, past, bodies, "error", source, ticket),
        Answer::TimedOut => say_bare(teller, "timeout", ticket),
        Answer::InitTimedOut => say_bare(teller, "init-timeout", ticket),
        Answer::OutputTooLarge => say_bare(teller, "too-large-output", ticket),
        Answer::Throttled(reason) => say_reasoned(teller, "throttled", reason.as_str(), ticket),
        Answer::Stopped => say_bare(teller, "stopped", ticket),
        Answer::Withdrawn => say_bare(teller, "withdrawn", ticket),
        Answer::Refused(refusal) => say_reasoned(teller, "refused", refusal.as_str(), ticket),
        Answer::Reserved { count } => say_reserved(teller, count, ticket),
        Answer::Unreserved => say_bare(teller, "unreserved", ticket),
    }
}
