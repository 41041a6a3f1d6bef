//! The object of the environments of an account.

mod environment;

ghost use Rattle.std.specs.Prelude.{◌≡◌, ◌+◌, ◌≤◌, ℕ, List, length, IfOk};
ghost use Rattle.arn_ids.specs.Environments.{owners};
ghost use Rattle.arn_ids.specs.declared.config.Config.{Config};
ghost use Rattle.call_types.specs.declared.call.Entry.{Entry};
ghost use Rattle.env_phase.specs.Meeting.{known_at};
ghost use Rattle.trace.specs.EnvironmentObject.{environments_object};
ghost use Rattle.trace.specs.Listings.{HasListed};

use crate::Draft;
use crate::draft::{Part, Teller};
use arn_ids::{Checked, EnvNo};
use env_phase::Environment;
use environment::say_environment;
use std::alloc::{AllocError, Global};
use std::marker::Model;

/// The object of the environments of an account after a history, as far as it is told. If memory runs out,
/// that is reported at the end.
#[derive(Drop)]
pub struct Listing {
    teller: Teller,
}

impl Model for Listing {
    ghost use Rattle.trace.specs.Listings.{Listed};
    ghost use Rattle.trace.specs.Telling.{tokens_of};

    ghost Value = { Listed };

    ghost view = { λ l. record {
      is_cut = l.teller.is_cut;
      tokens = tokens_of l.teller.runs.items l.teller.parts.items;
    } };
}

impl Listing {
    /// Returns the object before its first environment, after a history of this many entries.
    ///
    /// # Errors
    /// Only if memory is refused.
    pub fn open(alloc: Global, entries: u64) -> Result<Listing, AllocError>
        ensures { IfOk result (λ listing. (config : Config) (salt : ℕ) (h : List Entry) → entries ≡ length h
            → HasListed config salt h 0 listing) }
    {
        let mut teller = Teller::new(alloc)?;
        teller.say_all(&[
            Part::Open,
            Part::Key("entries"),
            Part::Number(entries),
            Part::Key("environments"),
            Part::OpenList,
        ]);
        Ok(Listing { teller })
    }

    /// Adds the environment with the next number, in its state after the history.
    pub fn add(&mut self, config: &Checked, salt: u64, env: EnvNo, environment: &Environment)
        requires from_one { 1 ≤ env }
        requires there { env ≤ length (owners config.now) }
        ensures { (h : List Entry) (n : ℕ) → env ≡ n + 1 → environment.now ≡ known_at config.now h env
            → HasListed config.now salt h n self.old → HasListed config.now salt h env self.new }
    {
        say_environment(&mut self.teller, config, salt, env, environment);
    }

    /// Returns the object of all environments.
    ///
    /// # Errors
    /// Only if memory ran out.
    pub fn finish(self) -> Result<Draft, AllocError>
        ensures { IfOk result (λ object. (config : Config) (salt : ℕ) (h : List Entry)
            → HasListed config salt h (length (owners config)) self
            → object ≡ environments_object config salt h) }
    {
        let mut teller = self.teller;
        teller.say_all(&[Part::CloseList, Part::Close]);
        teller.finish()
    }
}
