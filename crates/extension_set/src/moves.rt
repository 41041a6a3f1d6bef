//! The answers that an entry gives to the tickets of one environment.

ghost use Rattle.std.specs.Prelude.{◌≡◌, ◌+◌, ◌<◌, ◌≤◌, ◌^◌, length, [], if◌then◌else◌};
ghost use Rattle.environment_step.specs.After.{give, put, numbered_from, events_of};
ghost use Rattle.call_model.specs.Answers.{with_event};
ghost use Rattle.call_model.specs.Life.{is_event};

use call_model::{Answer, Ticket};
use std::marker::Model;

/// Answers with the tickets that get them, in rising order of tickets. There is room for 32. A call
/// gives fewer at an environment in any state: at most 24, with ten extensions. So no method
/// allocates memory.
#[derive(Drop)]
pub struct Moves {
    pairs: [(Ticket, Answer); 32],
    count: usize,
}

impl Model for Moves {
    ghost use Rattle.std.specs.Prelude.{ℕ, List, take, ◌≤◌};
    ghost use Rattle.call_types.specs.declared.answer.Answer.{Answer};

    ghost Value = { List (ℕ × Answer) };

    ghost view = { λ m. take m.count m.pairs };

    ghost invariant = { λ m. m.count ≤ 32 };
}

/// Returns the answer, with this number if it is an event.
fn with_number(answer: Answer, number: u64) -> Answer
    ensures { result ≡ with_event number answer }
{
    match answer {
        Answer::Told {
            invoke,
            deadline,
            event: _,
        } => Answer::Told {
            invoke,
            deadline,
            event: number,
        },
        Answer::Ending {
            reason,
            until,
            event: _,
        } => Answer::Ending {
            reason,
            until,
            event: number,
        },
        _ => answer,
    }
}

/// Returns 1 if the answer is an event, and 0 otherwise.
fn events_in_answer(answer: Answer) -> u64
    ensures { result ≡ if is_event answer then 1 else 0 }
{
    match answer {
        Answer::Told {
            invoke: _,
            deadline: _,
            event: _,
        }
        | Answer::Ending {
            reason: _,
            until: _,
            event: _,
        } => 1,
        _ => 0,
    }
}

impl Moves {
    /// Returns no answers.
    pub fn new() -> Moves
        ensures { result ≡ [] }
    {
        Moves {
            pairs: [(0, Answer::Done); 32],
            count: 0,
        }
    }

    /// Removes all answers. Reusing a `Moves` costs less than making a new one, which first fills
    /// its slots.
    pub fn clear(&mut self)
        ensures { self.new ≡ [] }
    {
        self.count = 0;
    }

    /// Inserts an answer before those to greater tickets.
    pub fn put(&mut self, ticket: Ticket, answer: Answer)
        requires { length self.old < 32 }
        ensures { self.new ≡ put (ticket, answer) self.old }
    {
        let mut carried = (ticket, answer);
        for place in 0..self.count {
            if carried.0 < self.pairs[place].0 {
                let next = self.pairs[place];
                self.pairs[place] = carried;
                carried = next;
            }
        }
        self.pairs[self.count] = carried;
        self.count += 1;
    }

    /// Inserts an answer, if there are both an answer and a ticket that gets it.
    #[tactic(auto, using(crate::proofs::Lengths::put_length))]
    pub fn give(&mut self, ticket: Option<Ticket>, answer: Option<Answer>)
        requires { length self.old < 32 }
        ensures given { self.new ≡ give ticket answer self.old }
        ensures few { length self.new ≤ length self.old + 1 }
    {
        if let (Some(ticket), Some(answer)) = (ticket, answer) {
            self.put(ticket, answer);
        }
    }

    /// Numbers the events in the order of their tickets, from `events` + 1, and returns the number
    /// of the last event so far (Extensions API: `Lambda-Extension-Event-Identifier`).
    pub fn number(&mut self, events: u64) -> u64
        requires { events < 2 ^ 63 }
        ensures numbered { self.new ≡ numbered_from events self.old }
        ensures counted { result ≡ events_of self.old + events }
    {
        let mut last = events;
        for place in 0..self.count {
            let (ticket, answer) = self.pairs[place];
            self.pairs[place] = (ticket, with_number(answer, last + 1));
            last += events_in_answer(answer);
        }
        last
    }

    /// Returns the answers with their tickets.
    pub fn as_slice(&self) -> &[(Ticket, Answer)]
        ensures { result.now ≡ self.now }
    {
        &self.pairs[..self.count]
    }
}
