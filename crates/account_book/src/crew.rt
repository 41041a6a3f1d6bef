//! The environments of an account, and what is kept beside them: their deadlines, where invocations
//! go, and what is in flight.

ghost use Rattle.std.specs.Prelude.{◌≡◌, ◌+◌, ◌-◌, ◌*◌, ◌<◌, ◌≤◌, ◌^◌, length, map, slice_set, All, true, false, None};
ghost use Rattle.std.specs.Prelude.{cond, [], count_by, IfOk, MatchResult, ◌&&◌};
ghost use Rattle.std.specs.List.{list_all, list_any};
ghost use Rattle.arn_ids.specs.Limits.{most_environments, most_extensions};
ghost use Rattle.arn_ids.specs.Faults.{first_fault};
ghost use Rattle.call_types.specs.Calls.{is_invoke};
ghost use Rattle.call_model.specs.Limits.{Admits, Refuses};
ghost use Rattle.concurrency_pool.specs.Meets.{numbers, by_throttle};
ghost use Rattle.concurrency_pool.specs.Pools.{usage_at, throttle, with_in_flight, in_flight_in_all, may_reserve};
ghost use Rattle.concurrency_pool.specs.Pools.{with_reserved};
ghost use Rattle.deadlines.specs.Due.{first_due};
ghost use Rattle.placement.specs.Places.{place_among};
ghost use Rattle.account_book.specs.Answering.{most_of_one};
ghost use Rattle.fleet.specs.Sites.{sites as sites_in};
ghost use Rattle.env_phase.specs.Taking.{registered_name, IsShort, is_off, has_answered};
ghost use Rattle.account_book.specs.Fleets.{site_at, moved_by, moves_by, put_all, merged, flown, deadline_at, site_place};
ghost use Rattle.fleet.specs.Sites.{IsFew};
ghost use Rattle.account_book.specs.Fleets.{is_site_due};
ghost use Rattle.account_book.specs.Premature.{in_way};

use crate::opening::open_sites;
use crate::premature::has_answered_in_way;
use crate::room::Roomy;
use crate::site::{is_due, take};
use arn_ids::{Checked, EnvNo, FnNo};
use call_model::{Answer, Call, Throttle, Ticket};
use concurrency_pool::Pool;
use deadlines::Due;
use env_phase::{Environment, Step};
use extension_set::Moves;
use fleet::Site;
use placement::{Class, Places};
use std::alloc::{AllocError, Global};
use std::marker::Model;

/// The environments in the order of their numbers.
#[derive(Drop)]
pub struct Fleet {
    sites: Vec<Site>,
    due: Due,
    places: Places,
    pool: Pool,
    /// The most extensions that any environment has had at once.
    widest: usize,
    /// Where the answers of one environment are gathered. It is used again, since a new one for each call
    /// would have to be filled first.
    moves: Moves,
}

impl Model for Fleet {
    ghost use Rattle.account_book.specs.Crew.{Crew};
    ghost use Rattle.account_book.specs.Fleets.{crew, IsFleet};

    ghost Value = { Crew };

    ghost view = { crew };

    ghost invariant = { IsFleet };
}

/// A call on its way to the environments that it concerns.
#[derive(Clone, Copy)]
pub struct Arrival<'a> {
    /// The call's ticket.
    pub ticket: Ticket,
    /// The moment in milliseconds, below 2^53.
    pub moment: u64,
    /// How many Invokes each function has had, this call included.
    pub requests: &'a [u64],
    /// The call.
    pub call: &'a Call,
}

/// Updates what a function has in flight, given whether an environment of it was and is taken.
#[tactic(auto, using(crate::proofs::Flown::same_count))]
fn recount(pool: &mut Pool, function: FnNo, was: bool, is: bool)
    requires from_one { 1 ≤ function }
    requires there { function ≤ length pool.old.functions }
    requires charged { was ≡ true → 0 < (usage_at pool.old function).in_flight }
    requires admitted { was ≡ false → is ≡ true → throttle pool.old function ≡ None }
    ensures { pool.new
        ≡ with_in_flight pool.old function (((usage_at pool.old function).in_flight + cond is 1 0) - cond was 1 0) }
{
    if was == is {
        return;
    }
    if was {
        pool.release(function);
    } else {
        pool.charge(function);
    }
}

impl Fleet {
    /// The environments of a configuration before any call.
    pub fn open(alloc: Global, config: &Checked) -> Result<Fleet, AllocError>
        requires { first_fault config.now ≡ None }
        ensures { IfOk result
            (λ fleet. fleet ≡ record { sites = sites_in config.now []; pool = numbers config.now []; widest = 0 }) }
    {
        Ok(Fleet {
            sites: open_sites(alloc, config)?,
            due: Due::open(alloc, config.environments())?,
            places: Places::open(alloc, config)?,
            pool: Pool::open(alloc, config)?,
            widest: 0,
            moves: Moves::new(),
        })
    }

    /// How many environments there are, at most `MOST_ENVIRONMENTS`.
    pub fn environments(&self) -> u32
        ensures value { result ≡ length self.now.sites }
        ensures few { result ≤ most_environments }
    {
        self.sites.len() as u32
    }

    /// The environment with a number.
    pub fn environment(&self, env: EnvNo) -> &Environment
        requires from_one { 1 ≤ env }
        requires there { env ≤ length self.now.sites }
        ensures { result.now ≡ (site_at self.now.sites env).environment }
    {
        &self.sites[env as usize - 1].environment
    }

    /// The most extensions that any environment has had at once, at most `MOST_EXTENSIONS`.
    pub fn widest(&self) -> usize
        ensures value { result ≡ self.now.widest }
        ensures ten { result ≤ most_extensions }
    {
        self.widest
    }

    /// What holds of the environments: none has more extensions than the widest.
    pub fn facts(&self)
        ensures narrow { All (λ site. length site.environment.stand.members ≤ self.now.widest) self.now.sites }
        ensures ten { self.now.widest ≤ most_extensions }
    {
        let _widest = self.widest;
    }

    /// The environment that is due first, by deadline and number.
    pub fn first_due(&self, now: u64) -> Option<EnvNo>
        ensures { result ≡ first_due now (map deadline_at self.now.sites) }
    {
        self.due.first_due(now)
    }

    /// How many environments are due.
    pub fn count_due(&self, now: u64) -> usize
        ensures value { result ≡ count_by (is_site_due now) self.now.sites }
        ensures few { result ≤ most_environments }
    {
        if self.due.first_due(now).is_none() {
            return 0;
        }
        count_due(&self.sites, now)
    }

    /// Whether every environment is shut down for good.
    pub fn is_off(&self) -> bool
        ensures { result ≡ list_all (λ site. is_off site.environment.stand.phase) self.now.sites }
    {
        self.sites.iter().all(|site| site.environment.is_off())
    }

    /// The environment that an Invoke of a function goes to if the limits admit it, else why they do not.
    /// (Invoke: TooManyRequestsException)
    pub fn admit(&self, function: FnNo) -> Result<EnvNo, Throttle>
        requires from_one { 1 ≤ function }
        requires there { function ≤ length self.now.pool.functions }
        ensures { MatchResult result
            (λ e. by_throttle (throttle self.now.pool function)
            (place_among (map site_place self.now.sites) function) ≡ Admits e)
            (λ reason. by_throttle (throttle self.now.pool function)
            (place_among (map site_place self.now.sites) function) ≡ Refuses reason) }
    {
        self.pool.may_admit(function)?;
        self.places.choose(function).ok_or(Throttle::Environments)
    }

    /// Whether an environment in the way of an Invoke that is refused for this reason has answered its
    /// invocation and is not ready again.
    pub fn has_answered_in_way(&self, reason: Throttle, function: FnNo) -> bool
        ensures { result
            ≡ list_any (λ site. has_answered site.environment.stand
            && in_way reason function (usage_at self.now.pool site.function).reserved site.function) self.now.sites }
    {
        has_answered_in_way(&self.sites, &self.pool, reason, function)
    }

    /// A function's reservation in force.
    pub fn reservation(&self, function: FnNo) -> Option<u32>
        requires from_one { 1 ≤ function }
        requires there { function ≤ length self.now.pool.functions }
        ensures { result ≡ (usage_at self.now.pool function).reserved }
    {
        self.pool.reservation(function)
    }

    /// Whether a function may have this reservation. (PutFunctionConcurrency)
    pub fn may_reserve(&self, function: FnNo, count: Option<u32>) -> bool
        requires from_one { 1 ≤ function }
        requires there { function ≤ length self.now.pool.functions }
        ensures { result ≡ may_reserve self.now.pool function count }
    {
        self.pool.may_reserve(function, count)
    }

    /// Puts a reservation in force, or removes it.
    /// (PutFunctionConcurrency, DeleteFunctionConcurrency)
    pub fn reserve(&mut self, function: FnNo, count: Option<u32>)
        requires from_one { 1 ≤ function }
        requires there { function ≤ length self.old.pool.functions }
        requires allowed { may_reserve self.old.pool function count ≡ true }
        ensures { self.new ≡ record self.old { pool = with_reserved self.old.pool function count } }
    {
        self.pool.reserve(function, count);
    }

    /// How many invocations are in flight.
    pub fn in_flight(&self) -> u64
        ensures { result ≡ in_flight_in_all self.now.pool }
    {
        self.pool.in_flight_in_all()
    }

    /// Hands a call that brings no invocation and no extension to every environment, one after the other,
    /// and puts their answers in their places among the others.
    pub fn take_all(&mut self, arrival: &Arrival<'_>, answers: &mut Roomy<(Ticket, Answer)>)
        requires moment { arrival.now.moment < 2 ^ 53 }
        requires counted { length arrival.now.requests.now ≡ length self.old.pool.functions }
        requires few { All IsFew self.old.sites }
        requires unnamed { registered_name arrival.now.call.now ≡ None }
        requires gives_few { All
            (λ site. length (moves_by arrival.now site) ≤ most_of_one most_extensions) self.old.sites }
        requires room { most_of_one most_extensions * length self.old.sites ≤ answers.old.1 }
        requires brings_none { is_invoke arrival.now.call.now ≡ false }
        ensures sites { self.new.sites ≡ map (moved_by arrival.now) self.old.sites }
        ensures pool { self.new.pool ≡ flown self.new.sites self.old.pool }
        ensures widest { self.new.widest ≡ self.old.widest }
        ensures answers { answers.new.0 ≡ merged (moves_by arrival.now) self.old.sites answers.old.0 }
        ensures room { answers.old.1 ≤ answers.new.1 + most_of_one most_extensions * length self.old.sites }
    {
        for index in 0..self.sites.as_slice().len() {
            self.take_at(index as u32 + 1, arrival, answers);
        }
    }

    /// Hands a call to one environment, and puts its answers in their places among the others.
    pub fn take_at(
        &mut self,
        env: EnvNo,
        arrival: &Arrival<'_>,
        answers: &mut Roomy<(Ticket, Answer)>,
    )
        requires from_one { 1 ≤ env }
        requires there { env ≤ length self.old.sites }
        requires moment { arrival.now.moment < 2 ^ 53 }
        requires short { IsShort (registered_name arrival.now.call.now) }
        requires counted { length arrival.now.requests.now ≡ length self.old.pool.functions }
        requires few { IsFew (site_at self.old.sites env) }
        requires room { length (moves_by arrival.now (site_at self.old.sites env)) ≤ answers.old.1 }
        requires admitted { is_invoke arrival.now.call.now ≡ true
            → throttle self.old.pool (site_at self.old.sites env).function ≡ None }
        ensures sites { self.new.sites
            ≡ slice_set self.old.sites (env - 1) (moved_by arrival.now (site_at self.old.sites env)) }
        ensures pool { self.new.pool ≡ flown self.new.sites self.old.pool }
        ensures widest { registered_name arrival.now.call.now ≡ None → self.new.widest ≡ self.old.widest }
        ensures answers { answers.new.0
            ≡ put_all (moves_by arrival.now (site_at self.old.sites env)) answers.old.0 }
        ensures room { answers.new.1 + length (moves_by arrival.now (site_at self.old.sites env)) ≡ answers.old.1 }
    {
        let site = &mut self.sites[env as usize - 1];
        let step = Step {
            ticket: arrival.ticket,
            now: arrival.moment,
            count: arrival.requests[site.function as usize - 1],
        };
        let was = site.environment.is_taken();
        take(site, step, arrival.call, &mut self.moves, answers);
        let is = site.environment.is_taken();
        self.due.set(env, site.environment.deadline());
        self.places.note(env, Class::of(site.environment.phase()));
        recount(&mut self.pool, site.function, was, is);
        self.widest = self.widest.max(site.environment.members());
    }
}

/// How many environments are due.
fn count_due(sites: &[Site], now: u64) -> usize
    ensures value { result ≡ count_by (is_site_due now) sites.now }
    ensures few { result ≤ length sites.now }
{
    let mut count = 0;
    for site in sites {
        if is_due(site, now) {
            count += 1;
        }
    }
    count
}
