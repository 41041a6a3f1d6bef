//! What follows every entry: the phase, the answers to parked Nexts, and the events.

ghost use Rattle.std.specs.Prelude.{◌≡◌, ◌+◌, ◌<◌, ◌≤◌, ◌^◌, length, Some, None, map};
ghost use Rattle.arn_ids.specs.Limits.{most_extensions};
ghost use Rattle.call_types.specs.declared.answer.Answer.TheVariants.{Delivered};
ghost use Rattle.call_model.specs.Generation.{ready};
ghost use Rattle.call_model.specs.Polls.{begun, delivered};
ghost use Rattle.call_model.specs.Stand.{RuntimePoll};
ghost use Rattle.environment_step.specs.After.{with_events, finished, finished_moves, turned, turned_moves};
ghost use Rattle.environment_step.specs.After.{closing_ends, restarted, settled_stand, settled_phase, served_moves};
ghost use Rattle.environment_step.specs.After.{left, member_second, give};

use super::Environment;
use crate::phases::{at_hand, begin_again, begun, bound_of, is_closing, settle};
use call_model::{Answer, Phase, Ticket};
use extension_set::Moves;

impl Environment {
    /// Begins the next generation, in which every extension registers again.
    /// (life cycle: Shutdown phase, Init phase)
    fn restart(&mut self, now: u64)
        requires { now < 2 ^ 53 }
        ensures { self.new ≡ record { fixed = self.old.fixed; stand = restarted now self.old.stand } }
    {
        self.phase = begin_again(self.stopped, now, bound_of(self.phase));
        self.runtime = None;
        self.extensions.clear();
        if at_hand(self.phase).is_none() {
            self.request = None;
        }
    }

    /// Whether the runtime and all extensions, the expected ones included, have asked for Next.
    /// (life cycle: Init phase, Invoke phase)
    fn is_ready(&self) -> bool
        ensures { result ≡ ready self.now.stand.runtime self.now.stand.members self.now.fixed.expected }
    {
        self.runtime.is_some()
            && self.extensions.silent() == 0
            && self.extensions.unregistered(self.expected.as_slice()) == 0
    }

    /// Answers the parked Nexts if a Busy begins.
    #[tactic(auto, using(crate::proofs::NoneServed::none_served))]
    fn serve(&mut self, begins: Option<(Ticket, u64)>, moves: &mut Moves)
        requires room { length self.old.stand.members + length moves.old < 31 }
        ensures stand { self.new
            ≡ record {
              fixed = self.old.fixed;
              stand = record self.old.stand {
                runtime = left (delivered begins RuntimePoll) self.old.stand.runtime;
                members = map (member_second begins) self.old.stand.members;
              };
            } }
        ensures given { moves.new ≡ served_moves begins self.old.stand moves.old }
    {
        match begins {
            None => {}
            Some((invoke, deadline)) => {
                self.deliver(invoke, deadline, moves);
                self.extensions.take_invoke(invoke, deadline, moves);
            }
        }
    }

    /// Gives the invocation to the runtime's parked Next. (Runtime API: Next invocation)
    #[tactic(auto, using(extension_set::proofs::Lengths::put_length))]
    fn deliver(&mut self, invoke: Ticket, deadline: u64, moves: &mut Moves)
        requires room { length moves.old < 32 }
        ensures stand { self.new ≡ record { fixed = self.old.fixed; stand = record self.old.stand { runtime = None } } }
        ensures given { moves.new ≡ give self.old.stand.runtime (Some (Delivered invoke deadline)) moves.old }
        ensures few { length moves.new ≤ length moves.old + 1 }
    {
        if let Some(ticket) = self.runtime {
            moves.put(ticket, Answer::Delivered { invoke, deadline });
        }
        self.runtime = None;
    }

    /// Does what follows an entry that ends no Closing; `before` is the phase before that entry.
    fn settle(&mut self, now: u64, before: Phase, moves: &mut Moves)
        requires moment { now < 2 ^ 53 }
        requires room { length self.old.stand.members + length moves.old < 31 }
        ensures stand { self.new
            ≡ record { fixed = self.old.fixed; stand = settled_stand self.old.fixed now before self.old.stand } }
        ensures given { moves.new
            ≡ served_moves (begun before (settled_phase self.old.fixed now self.old.stand)) self.old.stand moves.old }
    {
        let ready = self.is_ready();
        let phase = settle(self.phase, ready, self.request.is_some(), self.limit(now));
        self.serve(begun(before, phase), moves);
        self.phase = phase;
        if at_hand(phase).is_none() {
            self.request = None;
        }
    }

    /// Whether a Closing ends: it waits for no extension, or its time is over.
    fn ends(&self, expires: bool) -> bool
        ensures { result ≡ closing_ends expires self.now.stand }
    {
        is_closing(self.phase) && (self.extensions.waiting() == 0 || expires)
    }

    /// Does what follows every entry, except that it does not number the events.
    #[tactic(auto, unfolding(environment_step::specs::After::turned, environment_step::specs::After::turned_moves))]
    fn turn(&mut self, now: u64, expires: bool, before: Phase, moves: &mut Moves)
        requires moment { now < 2 ^ 53 }
        requires room { length self.old.stand.members + length moves.old < 31 }
        ensures stand { self.new
            ≡ record { fixed = self.old.fixed; stand = turned self.old.fixed now expires before self.old.stand } }
        ensures given { moves.new ≡ turned_moves self.old.fixed now expires before self.old.stand moves.old }
    {
        if self.ends(expires) {
            self.restart(now);
        } else {
            self.settle(now, before, moves);
        }
    }

    /// Ends an entry: does what follows every entry, and numbers its events. `before` is the phase before
    /// the entry; `expires` says whether the entry ended a Closing whose time is over.
    #[tactic(auto, unfolding(environment_step::specs::After::finished, environment_step::specs::After::finished_moves))]
    pub(super) fn finish(&mut self, now: u64, expires: bool, before: Phase, moves: &mut Moves)
        requires moment { now < 2 ^ 53 }
        requires few { self.old.stand.events < 2 ^ 53 }
        requires room { length self.old.stand.members + length moves.old < 31 }
        ensures stand { self.new
            ≡ record {
              fixed = self.old.fixed;
              stand = finished self.old.fixed now expires before self.old.stand moves.old;
            } }
        ensures given { moves.new ≡ finished_moves self.old.fixed now expires before self.old.stand moves.old }
        ensures ten { length self.new.stand.members ≤ most_extensions }
    {
        let events = self.events;
        self.turn(now, expires, before, moves);
        let last = moves.number(events);
        self.count_events(last);
    }

    /// Notes how many events extensions were sent.
    fn count_events(&mut self, events: u64)
        ensures stand { self.new ≡ record { fixed = self.old.fixed; stand = with_events events self.old.stand } }
        ensures ten { length self.new.stand.members ≤ most_extensions }
    {
        self.events = events;
    }
}
