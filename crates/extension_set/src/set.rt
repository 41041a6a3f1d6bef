//! The extensions of one generation of an environment.

ghost use Rattle.std.specs.Prelude.{◌≡◌, ◌+◌, ◌<◌, ◌≤◌, ◌^◌, ◌∷◌, length, [], map, reverse, Some, count_by};
ghost use Rattle.std.specs.Prelude.{IfOk, OnOk, OnErr};
ghost use Rattle.std.specs.List.{list_any, find};
ghost use Rattle.arn_ids.specs.Limits.{most_extensions};
ghost use Rattle.call_model.specs.Generation.{has_count, awaited, missing};
ghost use Rattle.call_model.specs.Polls.{delivered};
ghost use Rattle.call_model.specs.Stand.{ExtensionPoll};
ghost use Rattle.environment_step.specs.After.{give_each, member_second};
ghost use Rattle.extension_set.specs.Names.{lacks};
ghost use Rattle.extension_set.specs.Registering.{admits, owes_end, registered};
ghost use Rattle.extension_set.specs.Turns.{member_after, poll_gets_by_turn};

use crate::member::Member;
use crate::{Moves, RegisterFault, Turn};
use arn_ids::{MOST_EXTENSIONS, Text};
use call_model::{Call, Ticket};
use std::alloc::{AllocError, Global};
use std::marker::Model;

/// The extensions of one generation, seen as a list with the newest first.
#[derive(Drop)]
pub struct ExtensionSet {
    /// The members, the newest last.
    members: Vec<Member>,
}

impl Model for ExtensionSet {
    ghost use Rattle.std.specs.Prelude.{List, reverse, ◌≤◌, vec_len, vec_capacity};
    ghost use Rattle.arn_ids.specs.Limits.{most_extensions};
    ghost use Rattle.call_model.specs.Generation.{Member as TheMember};

    ghost Value = { List TheMember };

    ghost view = { λ s. reverse s.members.items };

    ghost invariant = { λ s. (vec_len s.members ≤ most_extensions) × (most_extensions ≤ vec_capacity s.members) };
}

impl ExtensionSet {
    /// Returns a set without extensions and with room for ten, so that no other call allocates
    /// memory.
    pub fn open(alloc: Global) -> Result<ExtensionSet, AllocError>
        ensures { IfOk result (λ s. s ≡ []) }
    {
        Ok(ExtensionSet {
            members: Vec::with_capacity(alloc, MOST_EXTENSIONS)?,
        })
    }

    /// Returns the number of extensions, at most ten.
    pub fn len(&self) -> usize
        ensures count { result ≡ length self.now }
        ensures few { length self.now ≤ most_extensions }
    {
        self.members.len()
    }

    /// Returns the extensions in the order in which they registered.
    pub fn members(&self) -> &[Member]
        ensures { result.now ≡ reverse self.now }
    {
        &self.members
    }

    /// Whether an extension with this name may be registered (Extensions API: Register).
    pub fn admits(&self, name: &Text) -> Result<(), RegisterFault>
        ensures { result ≡ admits self.now name.now }
    {
        if !self.lacks(name) {
            Err(RegisterFault::NameInUse)
        } else if self.members.len() >= MOST_EXTENSIONS {
            Err(RegisterFault::TooMany)
        } else {
            Ok(())
        }
    }

    /// Registers an extension with the count in its identifier, if its name is free and fewer than
    /// ten are registered; otherwise the set is unchanged. The name, of at most 128 bytes, is
    /// copied (Extensions API: Register).
    pub fn register(
        &mut self,
        name: &Text,
        invoke: bool,
        shutdown: bool,
        count: u64,
    ) -> Result<(), RegisterFault>
        requires short { length name.now ≤ 128 }
        ensures verdict { result ≡ admits self.old name.now }
        ensures added { OnOk result (self.new ≡ registered (record {
          count = count;
          name = name.now;
          invoke = invoke;
          shutdown = shutdown;
        }) ∷ self.old) }
        ensures kept { OnErr result (self.new ≡ self.old) }
    {
        self.admits(name)?;
        match self
            .members
            .push(Member::registered(count, name, invoke, shutdown))
        {
            Ok(()) => Ok(()),
            Err(_full) => unreachable!(),
        }
    }

    /// Whether the Next of the extension with this count in a Closing is answered with the end of
    /// its environment (Extensions API: Shutdown event).
    pub fn owes_end(&self, count: u64) -> bool
        ensures { result ≡ owes_end (find (has_count count) self.now) }
    {
        let mut owes = false;
        for member in &self.members {
            if member.has_count(count) {
                owes = member.is_owed_end();
            }
        }
        owes
    }

    /// Whether an extension whose identifier has this count is registered (Extensions API:
    /// `Lambda-Extension-Identifier`).
    pub fn is_known(&self, count: u64) -> bool
        ensures { result ≡ list_any (has_count count) self.now }
    {
        let mut found = false;
        for member in &self.members {
            if member.has_count(count) {
                found = true;
            }
        }
        found
    }

    /// Returns the number of extensions that a Closing waits for: those that registered for
    /// SHUTDOWN, have not exited, and have not both been notified of the end and asked again
    /// (Lambda execution environment lifecycle: Shutdown phase).
    pub fn waiting(&self) -> u64
        ensures { result ≡ length (awaited self.now) }
    {
        let mut waiting = 0;
        for member in &self.members {
            if member.is_awaited() {
                waiting += 1;
            }
        }
        waiting
    }

    /// Returns the number of extensions without a parked Next.
    pub fn silent(&self) -> u64
        ensures { result ≡ missing self.now [] }
    {
        let mut silent = 0;
        for member in &self.members {
            if member.is_silent() {
                silent += 1;
            }
        }
        silent
    }

    /// Whether no extension has this name.
    pub fn lacks(&self, name: &Text) -> bool
        ensures { result ≡ lacks self.now name.now }
    {
        let mut missing = true;
        for member in &self.members {
            if member.is_named(name) {
                missing = false;
            }
        }
        missing
    }

    /// Returns how many of these names no extension has.
    pub fn unregistered(&self, names: &[Text]) -> u64
        ensures { result ≡ count_by (lacks self.now) names.now }
    {
        let mut count = 0;
        for name in names {
            if self.lacks(name) {
                count += 1;
            }
        }
        count
    }

    /// Applies a call: answers the parked Nexts, and updates each extension (Extensions API: Next,
    /// Invoke event, Shutdown event).
    pub fn take(&mut self, turn: Turn, call: &Call, moves: &mut Moves)
        requires moment { turn.now < 2 ^ 53 }
        requires room { length self.old + length moves.old < 32 }
        ensures after { self.new ≡ map (member_after turn call.now) self.old }
        ensures given { moves.new
            ≡ give_each (λ x. poll_gets_by_turn turn call.now (ExtensionPoll x) x.next) self.old moves.old }
        ensures few { length moves.new ≤ length self.old + length moves.old }
    {
        for member in self.members.iter_mut() {
            member.take(turn, call, moves);
        }
    }

    /// Removes all extensions, since the next generation begins without any.
    pub fn clear(&mut self)
        ensures { self.new ≡ [] }
    {
        self.members.clear();
    }

    /// Answers the parked Nexts of the extensions that registered for INVOKE when a Busy begins,
    /// with its Invoke and its deadline in milliseconds (Extensions API: Invoke event).
    pub fn take_invoke(&mut self, invoke: Ticket, deadline: u64, moves: &mut Moves)
        requires { length self.old + length moves.old < 32 }
        ensures told { self.new ≡ map (member_second (Some (invoke, deadline))) self.old }
        ensures given { moves.new
            ≡ give_each (λ x. delivered (Some (invoke, deadline)) (ExtensionPoll x)) self.old moves.old }
    {
        for member in self.members.iter_mut() {
            member.offer(invoke, deadline, moves);
        }
    }
}
