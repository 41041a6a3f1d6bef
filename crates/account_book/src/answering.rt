//! What a call changes in the lists that a journal keeps beside its entries.

ghost use Rattle.std.specs.Prelude.{◌≡◌, ◌<◌, ◌^◌, length, reverse};
ghost use Rattle.call_model.specs.Answers.{answers as answers_to};
ghost use Rattle.call_model.specs.Next.{entry_of, entered};
ghost use Rattle.concurrency_pool.specs.Meets.{numbers};
ghost use Rattle.call_model.specs.CallCounts.{request_count};
ghost use Rattle.account_book.specs.Reserving.{in_force, IsInOrder};
ghost use Rattle.account_book.specs.Arriving.{IsArriving, IsMoved};
ghost use Rattle.account_book.specs.Fleets.{flown};
ghost use Rattle.account_book.specs.OwnAnswers.{book_answer, homed};
ghost use Rattle.account_book.specs.Taking.{IsKnown, request_counts};

use crate::crew::{Arrival, Fleet};
use crate::room::Roomy;
use arn_ids::{Checked, EnvNo};
use call_model::{Answer, Call, Entry, Ticket};
use entry_blocks::Blocks;
use fleet::Reach;

/// Counts an Invoke for its function. Returns the count in its request identifier, 0 for another call.
pub fn count_call(
    config: &Checked,
    entries: &Blocks<Entry>,
    requests: &mut [u64],
    moment: u64,
    call: &Call,
) -> u64
    requires known { IsKnown config.now call.now }
    requires short { length entries.now.0 < 2 ^ 32 }
    requires counts { requests.old ≡ request_counts config.now (reverse entries.now.0) }
    ensures counts { requests.new
        ≡ request_counts config.now (entered config.now (reverse entries.now.0) moment call.now) }
    ensures count { result ≡ request_count (entered config.now (reverse entries.now.0) moment call.now) call.now }
{
    match call {
        Call::Invoke {
            function,
            qualified: _,
            trace: _,
            body: _,
        } => {
            let index = (*function - 1) as usize;
            let count = requests[index] + 1;
            requests[index] = count;
            count
        }
        _ => 0,
    }
}

/// Answers a call that goes to `place`, if to any environment: hands it to the environments that it
/// concerns, and adds the book's own answer, if there is one.
pub fn answer_call(
    config: &Checked,
    entries: &Blocks<Entry>,
    fleet: &mut Fleet,
    arrival: &Arrival<'_>,
    place: Option<EnvNo>,
    own: Option<Answer>,
    answers: &mut Roomy<(Ticket, Answer)>,
)
    requires arriving { IsArriving config.now entries.now.0 arrival.now place fleet.old answers.old }
    requires own { own ≡ book_answer config.now (reverse entries.now.0) arrival.now.call.now }
    ensures moved { IsMoved config.now (reverse entries.now.0) arrival.now fleet.old fleet.new }
    ensures pool { fleet.new.pool
        ≡ numbers config.now (entered config.now (reverse entries.now.0) arrival.now.moment arrival.now.call.now) }
    ensures answers { answers.new.0
        ≡ answers_to config.now (reverse entries.now.0) arrival.now.moment arrival.now.call.now }
{
    visit_environments(config, entries, fleet, arrival, place, answers);
    put_in_force(fleet, arrival.call, own);
    if let Some(own) = own {
        answers.push((arrival.ticket, own));
    }
}

/// Hands a call to the environments that it concerns.
fn visit_environments(
    config: &Checked,
    entries: &Blocks<Entry>,
    fleet: &mut Fleet,
    arrival: &Arrival<'_>,
    place: Option<EnvNo>,
    answers: &mut Roomy<(Ticket, Answer)>,
)
    requires arriving { IsArriving config.now entries.now.0 arrival.now place fleet.old answers.old }
    ensures moved { IsMoved config.now (reverse entries.now.0) arrival.now fleet.old fleet.new }
    ensures pool { fleet.new.pool ≡ flown fleet.new.sites fleet.old.pool }
    ensures answers { answers.new.0
        ≡ homed (reverse entries.now.0)
        (entry_of config.now (reverse entries.now.0) arrival.now.moment arrival.now.call.now) }
    ensures room { 0 < answers.new.1 }
{
    fleet.facts();
    match Reach::of_next(entries, place, arrival.call) {
        Reach::Nowhere => {}
        Reach::At(env) => fleet.take_at(env, arrival, answers),
        Reach::Everywhere => fleet.take_all(arrival, answers),
    }
}

/// Puts the reservation of an accepted Reserve in force.
fn put_in_force(fleet: &mut Fleet, call: &Call, own: Option<Answer>)
    requires { IsInOrder fleet.old.pool call.now own }
    ensures { fleet.new ≡ record fleet.old { pool = in_force call.now own fleet.old.pool } }
{
    if let Call::Reserve { function, count } = call {
        match own {
            Some(Answer::Reserved { count: _ } | Answer::Unreserved) => {
                fleet.reserve(*function, *count);
            }
            _ => {}
        }
    }
}
