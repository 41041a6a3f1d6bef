//! The limits of an account's functions and what they have in flight, with their totals, so that no
//! question or change visits another function.

ghost use Rattle.std.specs.Prelude.{◌≡◌, ◌+◌, ◌-◌, ◌*◌, ◌^◌, ◌<◌, ◌≤◌, length, slice_set, MatchResult, IfOk, None};
ghost use Rattle.std.specs.Prelude.{Some, true};
ghost use Rattle.concurrency_pool.specs.Usages.{usage_of, reserved_by, unreserved_by};
ghost use Rattle.concurrency_pool.specs.Pools.{usage_at, opened, reserved_in_all, remainder, in_flight_in_all};
ghost use Rattle.concurrency_pool.specs.Pools.{throttle, taken_with, may_reserve, with_in_flight, with_reserved};

use arn_ids::{Checked, FnNo, Function};
use call_model::Throttle;
use std::alloc::{AllocError, Global};
use std::marker::Model;

/// A function's limits, and what it has in flight.
#[derive(Clone, Copy)]
pub struct Usage {
    /// How many environments it has.
    pub environments: usize,
    /// Its reservation in force, if it has one.
    pub reserved: Option<u32>,
    /// How many of its invocations are charged.
    pub in_flight: u32,
}

/// An account's invocations in flight, by function, and what limits them: the account's limit, the
/// least remainder and the reservations in force.
/// (Lambda Developer Guide, "Understanding Lambda function scaling", "Configuring reserved
/// concurrency for a function")
///
/// Contracts see a record of the limits and of the functions in the order of their numbers. The
/// totals are the sums over the functions. Only [`Pool::open`] visits all functions and takes memory.
#[derive(Drop)]
pub struct Pool {
    account_limit: u32,
    least_remainder: u32,
    functions: Vec<Usage>,
    /// All reservations in force together.
    reserved: u64,
    /// What the functions without a reservation have in flight together.
    unreserved: u64,
    /// What all functions have in flight together.
    in_flight: u64,
}

impl Model for Pool {
    ghost use Rattle.concurrency_pool.specs.Numbers.{Numbers};

    ghost Value = { Numbers };

    ghost use Rattle.concurrency_pool.specs.Totals.{AreTotals};

    ghost view = { λ pool. record {
      account_limit = pool.account_limit;
      least_remainder = pool.least_remainder;
      functions = pool.functions.items;
    } };

    ghost invariant = { λ pool. AreTotals (record {
      account_limit = pool.account_limit;
      least_remainder = pool.least_remainder;
      functions = pool.functions.items;
    }) pool.reserved pool.unreserved pool.in_flight };
}

impl Usage {
    /// Returns what it takes of the account's limit.
    fn taken_of_limit(&self) -> u32
        ensures { result ≡ reserved_by self.now }
    {
        self.reserved.unwrap_or(0)
    }

    /// Returns what it has in flight of the remainder.
    fn taken_of_remainder(&self) -> u32
        ensures { result ≡ unreserved_by self.now }
    {
        if self.reserved.is_none() {
            self.in_flight
        } else {
            0
        }
    }
}

/// Returns the usage of a function before any invocation.
fn unused(function: &Function) -> Usage
    ensures { result ≡ usage_of function.now }
{
    Usage {
        environments: function.slots.as_slice().len(),
        reserved: function.reserved,
        in_flight: 0,
    }
}

/// Returns a total in which a part is replaced.
fn moved(total: u64, last: u32, part: u32) -> u64
    requires within { last ≤ total }
    requires fits { total ≤ 64 * 2 ^ 32 }
    ensures { result + last ≡ total + part }
{
    total - u64::from(last) + u64::from(part)
}

impl Pool {
    /// Returns the pool of a configuration, with its reservations and nothing in flight.
    ///
    /// # Errors
    /// Only if memory is refused.
    pub fn open(alloc: Global, config: &Checked) -> Result<Pool, AllocError>
        ensures { IfOk result (λ pool. pool ≡ opened config.now) }
    {
        let mut functions = Vec::with_capacity(alloc, config.functions().len())?;
        let mut reserved = 0;
        for function in config.functions() {
            let usage = unused(function);
            reserved += u64::from(usage.taken_of_limit());
            functions.push(usage)?;
        }
        Ok(Pool {
            account_limit: config.account_limit(),
            least_remainder: config.least_remainder(),
            functions,
            reserved,
            unreserved: 0,
            in_flight: 0,
        })
    }

    /// Returns the number of functions.
    pub fn functions(&self) -> u32
        ensures { result ≡ length self.now.functions }
    {
        self.functions.len() as u32
    }

    /// Tests whether the limits admit one more invocation of a function, in constant time.
    ///
    /// # Errors
    /// [`Throttle::Function`] if the function has a reservation and at least that many in flight;
    /// [`Throttle::Account`] if it has none, and the functions without one together have at least as
    /// many in flight as the reservations leave of the account's limit.
    #[tactic(auto, unfolding(crate::specs::Pools::throttle))]
    pub fn may_admit(&self, function: FnNo) -> Result<(), Throttle>
        requires from_one { 1 ≤ function }
        requires there { function ≤ length self.now.functions }
        ensures { MatchResult result (λ _. throttle self.now function ≡ None)
            (λ reason. throttle self.now function ≡ Some reason) }
    {
        let usage = self.usage(function);
        match usage.reserved {
            Some(limit) if limit <= usage.in_flight => Err(Throttle::Function),
            None if self.remainder() <= self.unreserved => Err(Throttle::Account),
            _ => Ok(()),
        }
    }

    /// Counts one more invocation of a function, which the limits admit.
    pub fn charge(&mut self, function: FnNo)
        requires from_one { 1 ≤ function }
        requires there { function ≤ length self.old.functions }
        requires admitted { throttle self.old function ≡ None }
        ensures { self.new ≡ with_in_flight self.old function ((usage_at self.old function).in_flight + 1) }
    {
        let usage = self.usage(function);
        let one_more = Usage {
            in_flight: usage.in_flight + 1,
            ..usage
        };
        self.put(function, one_more);
    }

    /// Counts one invocation less of a function that has at least one in flight.
    pub fn release(&mut self, function: FnNo)
        requires from_one { 1 ≤ function }
        requires there { function ≤ length self.old.functions }
        requires charged { 0 < (usage_at self.old function).in_flight }
        ensures { self.new ≡ with_in_flight self.old function ((usage_at self.old function).in_flight - 1) }
    {
        let usage = self.usage(function);
        let one_less = Usage {
            in_flight: usage.in_flight - 1,
            ..usage
        };
        self.put(function, one_less);
    }

    /// Returns how many invocations of a function are in flight: its charges less its releases.
    pub fn in_flight(&self, function: FnNo) -> u32
        requires from_one { 1 ≤ function }
        requires there { function ≤ length self.now.functions }
        ensures { result ≡ (usage_at self.now function).in_flight }
    {
        self.usage(function).in_flight
    }

    /// Returns how many invocations of all functions are in flight.
    pub fn in_flight_in_all(&self) -> u64
        ensures { result ≡ in_flight_in_all self.now }
    {
        self.in_flight
    }

    /// Returns a function's reservation in force.
    pub fn reservation(&self, function: FnNo) -> Option<u32>
        requires from_one { 1 ≤ function }
        requires there { function ≤ length self.now.functions }
        ensures { result ≡ (usage_at self.now function).reserved }
    {
        self.usage(function).reserved
    }

    /// Whether a reservation is at most the function's environments, and leaves the least remainder
    /// to the functions without one. `None` is always allowed.
    /// (PutFunctionConcurrency: at least 100 stay unreserved)
    #[tactic(auto, unfolding(crate::specs::Pools::may_reserve))]
    pub fn may_reserve(&self, function: FnNo, count: Option<u32>) -> bool
        requires from_one { 1 ≤ function }
        requires there { function ≤ length self.now.functions }
        ensures { result ≡ may_reserve self.now function count }
    {
        let Some(count) = count else {
            return true;
        };
        let usage = self.usage(function);
        let own = u64::from(usage.taken_of_limit());
        let others = self.reserved.saturating_sub(own);
        let kept = others + u64::from(count) + u64::from(self.least_remainder);
        count as usize <= usage.environments && kept <= u64::from(self.account_limit)
    }

    /// Sets or removes a function's reservation, as [`Pool::may_reserve`] allows. What is in flight
    /// stays, even if that is more than the new reservation.
    /// (PutFunctionConcurrency, DeleteFunctionConcurrency)
    pub fn reserve(&mut self, function: FnNo, count: Option<u32>)
        requires from_one { 1 ≤ function }
        requires there { function ≤ length self.old.functions }
        requires allowed { may_reserve self.old function count ≡ true }
        ensures { self.new ≡ with_reserved self.old function count }
    {
        let usage = self.usage(function);
        let limited = Usage {
            reserved: count,
            ..usage
        };
        self.put(function, limited);
    }

    /// Returns a function's limits, and what it has in flight.
    fn usage(&self, function: FnNo) -> Usage
        requires from_one { 1 ≤ function }
        requires there { function ≤ length self.now.functions }
        ensures value { result ≡ usage_at self.now function }
        ensures limited { self.now.account_limit ≤ 1000000 }
        ensures leaves { self.now.least_remainder + reserved_in_all self.now ≤ self.now.account_limit }
    {
        self.functions[function as usize - 1]
    }

    /// Replaces a function's numbers, and updates the totals. A greater reservation has to leave the
    /// least remainder.
    fn put(&mut self, function: FnNo, usage: Usage)
        requires from_one { 1 ≤ function }
        requires there { function ≤ length self.old.functions }
        requires leaves { reserved_by (usage_at self.old function) < reserved_by usage
            → taken_with self.old function (reserved_by usage) ≤ self.old.account_limit }
        ensures { self.new ≡ record self.old { functions = slice_set self.old.functions (function - 1) usage } }
    {
        let last = self.usage(function);
        self.functions[function as usize - 1] = usage;
        self.reserved = moved(self.reserved, last.taken_of_limit(), usage.taken_of_limit());
        self.unreserved = moved(
            self.unreserved,
            last.taken_of_remainder(),
            usage.taken_of_remainder(),
        );
        self.in_flight = moved(self.in_flight, last.in_flight, usage.in_flight);
    }

    /// Returns what the reservations leave of the account's limit.
    fn remainder(&self) -> u64
        ensures { result ≡ remainder self.now }
    {
        u64::from(self.account_limit) - self.reserved
    }
}
