//! The calls of a history and their counts, by ticket.

ghost use Rattle.std.specs.Prelude.{◌≡◌, [], reverse, MatchOption, option_map, unwrap_or};
ghost use Rattle.call_types.specs.Calls.{body_of};
ghost use Rattle.call_types.specs.declared.call.Call.TheVariants.{Expire as NoCall};
ghost use Rattle.call_model.specs.History.{call_of, upto};
ghost use Rattle.call_model.specs.CallCounts.{call_counts, request_count};
ghost use Rattle.call_model.specs.Identifiers.{id_text, request_word, env_word};

use crate::readers::identifier;
use arn_ids::{Checked, IdKind};
use bytes::Bytes;
use call_types::{Call, Entry, Ticket};
use entry_blocks::Blocks;
use uuid::Uuid;

/// The entries of a history, the oldest first, with the count in the request identifier of each Invoke.
#[derive(Clone, Copy)]
pub struct Past<'a> {
    /// The configuration.
    pub config: &'a Checked,
    /// The salt of the configuration, which is in every identifier.
    pub salt: u64,
    /// The entries, the oldest first.
    pub entries: &'a Blocks<Entry>,
    /// For each entry, the count in its request identifier; 0 if its call is not an Invoke.
    pub counts: &'a Blocks<u64>,
    ghost counted: { reverse counts.now.0 ≡ call_counts (reverse entries.now.0) },
}

impl<'a> Past<'a> {
    /// Returns the call with a ticket, or `None` if the history has no such ticket.
    #[tactic(auto, using(crate::proofs::PastLemmas::no_call_here))]
    pub fn call(&self, ticket: Ticket) -> Option<&'a Call>
        ensures { MatchOption result (call_of (reverse self.now.entries.now.0) ticket ≡ NoCall 0)
            (λ call. call.now ≡ call_of (reverse self.now.entries.now.0) ticket) }
    {
        let place = ticket as usize;
        if place >= self.entries.len() {
            return None;
        }
        Some(&self.entries.at(place).call)
    }

    /// Returns the count in the request identifier of the Invoke with a ticket, or 0 if there is no such Invoke.
    #[tactic(auto, using(crate::proofs::PastLemmas::no_count_here))]
    pub fn count(&self, ticket: Ticket) -> u64
        ensures { let h = reverse self.now.entries.now.0 in result ≡ request_count (upto h ticket) (call_of h ticket) }
    {
        let place = ticket as usize;
        if place >= self.counts.len() {
            return 0;
        }
        *self.counts.at(place)
    }

    /// Returns the body of the call with a ticket, or `None` if it carries none.
    pub fn body(&self, ticket: Ticket) -> Option<&'a Bytes>
        ensures { unwrap_or (option_map (λ body. body.now) result) []
            ≡ body_of (call_of (reverse self.now.entries.now.0) ticket) }
    {
        match self.call(ticket) {
            None => None,
            Some(call) => call.body(),
        }
    }

    /// Returns the request identifier of the Invoke with a ticket, or `None` if it has none.
    pub fn request_id(&self, ticket: Ticket) -> Option<Uuid>
        ensures { id_text result ≡ request_word self.now.salt (reverse self.now.entries.now.0) ticket }
    {
        let function = match self.call(ticket) {
            None => 0,
            Some(call) => call.function().unwrap_or(0),
        };
        identifier(self.salt, IdKind::Request, function, self.count(ticket))
    }

    /// Returns the identifier of an event or an extension of the environment that the call with a ticket names,
    /// or `None` if it has none.
    pub fn environment_id(&self, kind: IdKind, ticket: Ticket, count: u64) -> Option<Uuid>
        ensures { id_text result ≡ env_word self.now.salt kind (reverse self.now.entries.now.0) ticket count }
    {
        let env = match self.call(ticket) {
            None => 0,
            Some(call) => call.environment().unwrap_or(0),
        };
        identifier(self.salt, kind, env, count)
    }
}
