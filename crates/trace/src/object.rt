//! The object of an entry.

mod answer;
mod call;
mod phase;

ghost use Rattle.std.specs.Prelude.{◌≡◌, ◌+◌, ◌<◌, length, map, reverse, slice_index_or, IfOk};
ghost use Rattle.std.specs.List.{flat_map};
ghost use Rattle.call_types.specs.declared.call.Entry.{Entry};
ghost use Rattle.trace.specs.AnswerObject.{answer_object};
ghost use Rattle.trace.specs.Members.{object};
ghost use Rattle.fleet.specs.Reaches.{before};
ghost use Rattle.trace.specs.Object.{charged_at, expired, object_tokens};
ghost use Rattle.trace.specs.Object.{released, request_if, told};
ghost use Rattle.trace.specs.Sites.{sites as sites_in, turn_of};
ghost use Rattle.trace.specs.Telling.{Tells};

use crate::draft::{Part, Teller, widened};
use crate::follower::Followed;
use crate::{Draft, Follower};
use answer::say_answer;
use arn_ids::EnvNo;
use call::say_call;
use call_model::{Answer, Call, Entry, Past, Ticket};
pub(crate) use phase::{bound_of, phase_word, say_reason_if, served_by};
use phase::{say_all_released, say_phases};
use std::alloc::AllocError;

fn say_answers(teller: &mut Teller, past: &Past, bodies: bool, answers: &[(Ticket, Answer)])
    ensures { Tells (flat_map (λ a. answer_object bodies past.now.salt (reverse past.now.entries.now.0) a.0 a.1)
        answers.now) teller.old teller.new }
{
    for (ticket, answer) in answers {
        say_answer(teller, past, bodies, *ticket, *answer);
    }
}

fn charged_at(ticket: Ticket, place: Option<EnvNo>) -> Option<Ticket>
    ensures { result ≡ charged_at ticket place }
{
    match place {
        None => None,
        Some(_) => Some(ticket),
    }
}

fn expired(call: &Call) -> Option<u64>
    ensures { result ≡ expired call.now }
{
    match call {
        Call::Expire { env } => Some(u64::from(*env)),
        _ => None,
    }
}

fn say_request_if(teller: &mut Teller, past: &Past, ticket: Ticket, call: &Call)
    ensures { Tells (request_if past.now.salt (reverse past.now.entries.now.0) ticket call.now)
        teller.old teller.new }
{
    if call.is_invoke() {
        teller.say_all(&[
            Part::Key("request"),
            Part::Identifier(past.request_id(ticket)),
        ]);
    }
}

/// Tells the object of an entry, given the environments after it that it reached.
#[tactic(auto, unfolding(crate::specs::Object::told))]
fn say_entry(
    teller: &mut Teller,
    past: &Past,
    bodies: bool,
    ticket: Ticket,
    entry: &Entry,
    sites: &[Followed],
)
    ensures { Tells (told bodies past.now.config.now past.now.salt (reverse past.now.entries.now.0) ticket
        entry.now (map turn_of sites.now)) teller.old teller.new }
{
    teller.say_all(&[Part::Open, Part::Key("answers"), Part::OpenList]);
    say_answers(teller, past, bodies, entry.answers.as_slice());
    teller.say_all(&[Part::CloseList, Part::Key("call")]);
    say_call(teller, past.config, bodies, &entry.call);
    teller.say_number_if("charged", charged_at(ticket, entry.place));
    teller.say_number_if("expires", expired(&entry.call));
    teller.say_all(&[
        Part::Key("moment"),
        Part::Number(entry.moment),
        Part::Key("phases"),
        Part::OpenList,
    ]);
    say_phases(teller, sites);
    teller.say_all(&[Part::CloseList]);
    teller.say_number_if("place", widened(entry.place));
    teller.say_all(&[Part::Key("released"), Part::OpenList]);
    say_all_released(teller, sites);
    teller.say_all(&[Part::CloseList]);
    say_request_if(teller, past, ticket, &entry.call);
    teller.say_all(&[Part::Key("ticket"), Part::Number(ticket), Part::Close]);
}

impl Follower {
    /// Returns the object of the entry with a ticket, the newest that this follower has followed; the members
    /// are in the order of their names' bytes. With `bodies`, payloads, outputs and reports are members:
    /// `body` if they are UTF-8, otherwise `bodyBase64`. They are shared with the history, not copied.
    /// Without, `bodyLength` has the number of their bytes.
    ///
    /// # Errors
    /// Only if memory is refused.
    pub fn draft(&self, past: &Past, bodies: bool, ticket: Ticket) -> Result<Draft, AllocError>
        requires there { ticket < length past.now.entries.now.0 }
        requires at { self.now
            ≡ sites_in past.now.config.now (before (reverse past.now.entries.now.0) (ticket + 1)) }
        ensures { let h = reverse past.now.entries.now.0 in IfOk result (λ draft. (d : Entry)
            → draft ≡ object_tokens bodies past.now.config.now past.now.salt h (before h ticket)
            (slice_index_or past.now.entries.now.0 ticket d)) }
    {
        let entry = past.entries.at(ticket as usize);
        let mut teller = Teller::new(self.alloc)?;
        say_entry(&mut teller, past, bodies, ticket, entry, self.reached());
        teller.finish()
    }
}
