//! The environments of one function that take an invocation.

ghost use Rattle.std.specs.Prelude.{◌≢◌, ℕ, ◌-◌, ◌<◌, ◌≤◌};
ghost use Rattle.arn_ids.specs.Limits.{most_environments};
ghost use Rattle.placement.specs.Sets.{IsWhole, HasClass, SameAt};
ghost use Rattle.placement.specs.declared.class.Class.TheVariants.{Taken};

use crate::Class;
use crate::env_set::EnvSet;
use arn_ids::EnvNo;

/// The environments of a function that take an invocation, a set for each of their classes.
#[derive(Clone, Copy)]
pub(crate) struct Free {
    /// Those that are ready.
    pub(crate) idle: EnvSet,
    /// Those that start, with nothing bound.
    pub(crate) starting: EnvSet,
    /// Those that close, with nothing bound.
    pub(crate) closing: EnvSet,
}

impl Free {
    /// Returns the sets without an environment.
    pub(crate) fn none() -> Free
        ensures whole { IsWhole result }
        ensures none { (i : ℕ) → i < most_environments → HasClass result i Taken }
    {
        Free {
            idle: EnvSet::empty(),
            starting: EnvSet::empty(),
            closing: EnvSet::empty(),
        }
    }

    /// Sets an environment's class.
    pub(crate) fn note(&mut self, env: EnvNo, class: Class)
        requires whole { IsWhole self.old }
        requires from_one { 1 ≤ env }
        requires within { env ≤ most_environments }
        ensures whole { IsWhole self.new }
        ensures here { HasClass self.new (env - 1) class }
        ensures others { (i : ℕ) → i < most_environments → i ≢ env - 1 → SameAt self.old self.new i }
    {
        self.idle.put(env, class.is(Class::Idle));
        self.starting.put(env, class.is(Class::StartingFree));
        self.closing.put(env, class.is(Class::ClosingFree));
    }
}
