//! A follower of a history: the environments after the entries that it has followed.

mod arrival;
mod followed;
mod reached;

ghost use Rattle.std.specs.Prelude.{◌≡◌, ◌+◌, ◌-◌, ◌<◌, ◌≤◌, ◌^◌, [], List, length, map, reverse, All, IfOk, None};
ghost use Rattle.std.specs.List.{flat_map};
ghost use Rattle.arn_ids.specs.Environments.{owners};
ghost use Rattle.arn_ids.specs.Faults.{first_fault};
ghost use Rattle.call_model.specs.Next.{IsLegal};
ghost use Rattle.env_phase.specs.Taking.{registered_name, IsShort};
ghost use Rattle.json.specs.Token.{Token};
ghost use Rattle.fleet.specs.Reaches.{before};
ghost use Rattle.trace.specs.Sites as spec;
ghost use Rattle.trace.specs.Sites.{sites as sites_in, visited, IsFew, IsFit, IsNumbered};

use arn_ids::{Checked, EnvNo};
use arrival::Arrival;
use call_model::{Past, Phase, Ticket};
use extension_set::Moves;
use fleet::{Reach, Site};
pub(crate) use followed::Followed;
use reached::{count_all, take_within, within};
use std::alloc::{AllocError, Global};
use std::marker::Model;

/// The environments after the first entries of a history, with their phases before the newest of these.
/// Only `open` allocates, and to follow an entry looks at no environment but those that it reaches, and
/// for an Invoke at the counts of all.
#[derive(Drop)]
pub struct Follower {
    pub(crate) alloc: Global,
    sites: Vec<Followed>,
    // The environments that the newest entry reached.
    reach: Reach,
    moves: Moves,
}

impl Model for Follower {
    ghost use Rattle.std.specs.Prelude.{List, map};
    ghost use Rattle.trace.specs.declared.follower.followed.Followed.{Followed};
    ghost use Rattle.trace.specs.Sites.{seen};

    ghost Value = { List Followed };

    ghost view = { λ f. map (seen f.reach) f.sites.items };
}

/// Returns an environment before any call.
fn open_site(alloc: Global, config: &Checked, env: EnvNo) -> Result<Followed, AllocError>
    requires sound { first_fault config.now ≡ None }
    requires low { 1 ≤ env }
    requires high { env ≤ length (owners config.now) }
    ensures { IfOk result (λ site. site ≡ spec.site config.now [] env) }
{
    Ok(Followed {
        number: env,
        requests: 0,
        before: Phase::Starting {
            deadline: None,
            bound: None,
        },
        site: Site::open(alloc, config, env)?,
    })
}

/// Returns the environments before any call.
fn open_sites(alloc: Global, config: &Checked) -> Result<Vec<Followed>, AllocError>
    requires { first_fault config.now ≡ None }
    ensures { IfOk result (λ sites. sites.items ≡ sites_in config.now []) }
{
    let mut sites = Vec::with_capacity(alloc, config.environments() as usize)?;
    for index in 0..config.environments() {
        sites.push(open_site(alloc, config, index + 1)?)?;
    }
    Ok(sites)
}

impl Follower {
    /// Returns a follower of the empty history.
    ///
    /// # Errors
    /// Only if memory is refused.
    pub fn open(alloc: Global, config: &Checked) -> Result<Follower, AllocError>
        ensures { IfOk result (λ follower. follower ≡ sites_in config.now []) }
    {
        // A checked configuration has no fault: its functions say so.
        let _functions = config.functions();
        Ok(Follower {
            alloc,
            sites: open_sites(alloc, config)?,
            reach: Reach::Nowhere,
            moves: Moves::new(),
        })
    }

    /// Follows the entry with a ticket, after all entries before it. It allocates nothing, and looks at no
    /// entry but this one and, for a Withdraw, that of the Next.
    pub fn follow(&mut self, past: &Past, ticket: Ticket)
        requires legal { IsLegal past.now.config.now (reverse past.now.entries.now.0) }
        requires there { ticket < length past.now.entries.now.0 }
        requires few { length past.now.entries.now.0 ≤ 2 ^ 32 }
        requires fit { All IsFit past.now.entries.now.0 }
        requires at { self.old ≡ sites_in past.now.config.now (before (reverse past.now.entries.now.0) ticket) }
        ensures { self.new
            ≡ sites_in past.now.config.now (before (reverse past.now.entries.now.0) (ticket + 1)) }
    {
        let entry = past.entries.at(ticket as usize);
        let arrival = Arrival {
            ticket,
            moment: entry.moment,
            reach: Reach::of(past.entries, ticket, entry.place, &entry.call),
            call: &entry.call,
        };
        self.take(&arrival);
    }

    /// Returns the environments that the newest entry reached, in the order of their numbers: it moved no
    /// other.
    pub(crate) fn reached(&self) -> &[Followed]
        requires { IsNumbered self.now }
        ensures { (f : Followed → List Token) → ((s : Followed) → s.before ≡ s.site.environment.stand.phase → f s ≡ [])
            → flat_map f result.now ≡ flat_map f self.now }
    {
        within(&self.sites, self.reach)
    }

    /// Counts a call, and lets the environments that it reaches take it.
    fn take(&mut self, arrival: &Arrival<'_>)
        requires numbered { IsNumbered self.old }
        requires moment { arrival.now.moment < 2 ^ 53 }
        requires few { All IsFew self.old }
        requires short { IsShort (registered_name arrival.now.call.now) }
        ensures { self.new ≡ map (visited arrival.now) self.old }
    {
        let sites = self.sites.as_mut_slice();
        count_all(sites, arrival.call);
        take_within(sites, arrival, &mut self.moves);
        self.reach = arrival.reach;
    }
}
