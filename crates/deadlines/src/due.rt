//! The deadline of each environment.

ghost use Rattle.std.specs.Prelude.{◌≡◌, ◌+◌, ◌-◌, ◌*◌, ◌<◌, ◌≤◌, ◌^◌, length, replicate, slice_set, IfOk};
ghost use Rattle.deadlines.specs.Due.{first_due};
ghost use Rattle.deadlines.specs.Tree.{sooner, first_of, first_below, IsMended, IsMendedBut};

use arn_ids::EnvNo;
use std::alloc::{AllocError, Global};
use std::marker::Model;

/// The deadline of each environment in milliseconds, or `None` if its phase has none. It is seen as
/// the list of these, in the order of the environments' numbers.
///
/// Beside the list is a tree, so the search for the first deadline reads its root alone. Node 1 is
/// the root, nodes 2i and 2i + 1 are the children of node i, and the leaves, one for each
/// environment, are numbered after the inner nodes. Such a tree exists for any number of
/// environments.
#[derive(Drop)]
pub struct Due {
    deadlines: Vec<Option<u64>>,
    /// For each inner node, the first environment below it; index 0 is unused.
    firsts: Vec<Option<(u64, EnvNo)>>,
}

impl Model for Due {
    ghost use Rattle.std.specs.Prelude.{◌≡◌, ℕ, List, Option, ◌<◌, ◌^◌, length};
    ghost use Rattle.deadlines.specs.Tree.{IsMended};

    ghost Value = { List (Option ℕ) };

    ghost view = { λ due. due.deadlines.items };

    ghost invariant = { λ due. (length due.deadlines.items < 2 ^ 32)
        × (length due.firsts.items ≡ length due.deadlines.items)
        × IsMended due.deadlines.items due.firsts.items };
}

impl Due {
    /// Returns the deadlines of environments 1 to `environments`, none of which has one.
    ///
    /// # Errors
    /// If memory is refused.
    pub fn open(alloc: Global, environments: u32) -> Result<Due, AllocError>
        ensures { IfOk result (λ due. due ≡ replicate environments None) }
    {
        let deadlines = Vec::from_elem(alloc, None, environments as usize)?;
        let firsts = Vec::from_elem(alloc, None, environments as usize)?;
        Ok(Due { deadlines, firsts })
    }

    /// Returns the number of environments.
    pub fn environments(&self) -> u32
        ensures { result ≡ length self.now }
    {
        self.deadlines.len() as u32
    }

    /// Sets an environment's deadline, or removes it.
    pub fn set(&mut self, env: EnvNo, deadline: Option<u64>)
        requires from_one { 1 ≤ env }
        requires there { env ≤ length self.old }
        ensures { self.new ≡ slice_set self.old (env - 1) deadline }
    {
        self.deadlines[env as usize - 1] = deadline;
        mend_above(
            &self.deadlines,
            &mut self.firsts,
            self.deadlines.len() + env as usize - 1,
        );
    }

    /// Returns the environment whose deadline came first, up to this moment, and of equal deadlines
    /// the one with the lowest number; `None` if no deadline has come.
    #[tactic(auto, using(crate::proofs::Order::due_is))]
    pub fn first_due(&self, now: u64) -> Option<EnvNo>
        ensures { result ≡ first_due now self.now }
    {
        match self.first() {
            Some((deadline, env)) if deadline <= now => Some(env),
            _ => None,
        }
    }

    /// Returns the first of all the environments that have a deadline.
    #[tactic(auto, using(crate::proofs::Tree::root_is))]
    fn first(&self) -> Option<(u64, EnvNo)>
        ensures { result ≡ first_of 1 self.now }
    {
        if self.deadlines.is_empty() {
            return None;
        }
        first_below(&self.deadlines, &self.firsts, 1)
    }
}

/// Restores the ancestors of a node that has changed.
fn mend_above(deadlines: &[Option<u64>], firsts: &mut [Option<(u64, EnvNo)>], changed: usize)
    requires small { length deadlines.now < 2 ^ 32 }
    requires row { length firsts.old ≡ length deadlines.now }
    requires node { 1 ≤ changed }
    requires there { changed < 2 * length deadlines.now }
    requires others { IsMendedBut deadlines.now firsts.old changed }
    ensures row { length firsts.new ≡ length firsts.old }
    ensures mended { IsMended deadlines.now firsts.new }
{
    let mut node = changed;
    while node > 1 {
        node /= 2;
        firsts[node] = sooner(
            first_below(deadlines, firsts, 2 * node),
            first_below(deadlines, firsts, 2 * node + 1),
        );
    }
}

/// Returns the first of the environments below a node; for a leaf, its own environment, if it has a
/// deadline.
fn first_below(
    deadlines: &[Option<u64>],
    firsts: &[Option<(u64, EnvNo)>],
    node: usize,
) -> Option<(u64, EnvNo)>
    requires small { length deadlines.now < 2 ^ 32 }
    requires row { length firsts.now ≡ length deadlines.now }
    requires there { node < 2 * length deadlines.now }
    ensures { result ≡ first_below deadlines.now firsts.now node }
{
    if node < firsts.len() {
        return firsts[node];
    }
    let index = node - firsts.len();
    Some((deadlines[index]?, index as u32 + 1))
}

/// Returns the one of two that comes first: the one with the earlier deadline, and of equal
/// deadlines the one with the lower number.
fn sooner(one: Option<(u64, EnvNo)>, other: Option<(u64, EnvNo)>) -> Option<(u64, EnvNo)>
    ensures { result ≡ sooner one other }
{
    match (one, other) {
        (Some(a), Some(b)) if b.0 < a.0 || b.0 == a.0 && b.1 < a.1 => other,
        (None, _) => other,
        _ => one,
    }
}
