//! The configuration of one account.

ghost use Rattle.std.specs.Prelude.{◌≡◌, ◌≤◌, length, bytes_eq, position, MatchResult, None};
ghost use Rattle.arn_ids.specs.Environments.{function_at, number_named, owners, function_of};
ghost use Rattle.arn_ids.specs.Faults.{first_fault};
ghost use Rattle.arn_ids.specs.Places.{IsPlaceOf};

use crate::search::place_in;
use crate::{FaultPlace, Row, Text};
use std::marker::Model;

/// The number of a function, from 1 in the order of the configuration.
pub type FnNo = u32;

/// The number of an environment, from 1 over all functions in the order of their ports.
pub type EnvNo = u32;

/// The account and the region of the service.
#[derive(Drop)]
pub struct Home {
    /// The account: 12 digits.
    pub account: Text,
    /// The region: 1 to 32 of lower case letters, digits and `-`.
    pub region: Text,
}

/// An execution environment's own loopback port.
#[derive(Clone, Copy, Debug, PartialEq, Eq)]
pub struct Slot {
    /// 1 to 65,535, unique in the configuration.
    pub port: u16,
}

/// A function and its environments.
#[derive(Drop)]
pub struct Function {
    /// 1 to 64 of ASCII letters, digits, `-` and `_`.
    pub name: Text,
    /// The handler, which extensions read in the response to Register: 1 to 128 bytes of 0x20 to
    /// 0x7E.
    pub handler: Text,
    /// The timeout in seconds, 1 to 900. (Lambda Developer Guide: Configure Lambda function timeout)
    pub timeout_s: u32,
    /// Its reserved concurrency, if it has one: at most the number of its environments.
    /// (Lambda Developer Guide: Configuring reserved concurrency for a function)
    pub reserved: Option<u32>,
    /// The names of the extensions that an environment waits for before it is ready: at most ten.
    pub extensions: Row<Text>,
    /// Its environments: one or more; at most `MOST_ENVIRONMENTS` in the account.
    pub slots: Row<Slot>,
}

/// The configuration of an account, not yet checked.
#[derive(Drop)]
pub struct Config {
    /// The account and the region.
    pub home: Home,
    /// How many invocations may be in flight at once: 1 to 1,000,000.
    pub account_limit: u32,
    /// How many of them must stay unreserved: 0 to the account limit.
    /// (PutFunctionConcurrency: at least 100 stay unreserved)
    pub least_remainder: u32,
    /// The port of callers and operators, 1 to 65,535.
    pub invoke_port: u16,
    /// The functions, at most 64, numbered from 1 in this order.
    pub functions: Row<Function>,
}

impl Config {
    /// Returns the configuration as checked, if it has no fault.
    ///
    /// # Errors
    /// The first fault that holds, with the function with which it comes in. The configuration is then dropped.
    pub fn check(self) -> Result<Checked, FaultPlace>
        ensures { MatchResult result (λ checked. (checked ≡ self) × (first_fault self ≡ None)) (IsPlaceOf self) }
    {
        match place_in(&self) {
            Some(place) => Err(place),
            None => Ok(Checked { config: self }),
        }
    }
}

/// A configuration without a fault.
#[derive(Drop)]
pub struct Checked {
    config: Config,
}

impl Model for Checked {
    ghost use Rattle.std.specs.Prelude.{◌≡◌, None};
    ghost use Rattle.arn_ids.specs.declared.config.Config.{Config};
    ghost use Rattle.arn_ids.specs.Faults.{first_fault};

    ghost Value = { Config };

    ghost view = { λ c. c.config };

    ghost invariant = { λ c. first_fault c.config ≡ None };
}

/// Returns the index of the first function with a name, from 0.
fn place_of(functions: &[Function], name: &[u8]) -> Option<usize>
    ensures { result ≡ position (λ function. bytes_eq function.name name.now) functions.now }
{
    functions
        .iter()
        .position(|function| function.name.as_str().as_bytes() == name)
}

impl Checked {
    /// Returns the functions in the order of their numbers, from number 1.
    pub fn functions(&self) -> &[Function]
        ensures value { result.now ≡ self.now.functions }
        ensures sound { first_fault self.now ≡ None }
    {
        self.config.functions.as_slice()
    }

    /// Returns the configuration of the function with a number.
    pub fn function(&self, function: FnNo) -> &Function
        requires from_one { 1 ≤ function }
        requires there { function ≤ length self.now.functions }
        ensures { result.now ≡ function_at self.now function }
    {
        &self.functions()[function as usize - 1]
    }

    /// Returns the number of the function with a name.
    pub fn function_named(&self, name: &[u8]) -> Option<FnNo>
        ensures { result ≡ number_named self.now name.now }
    {
        let place = place_of(self.functions(), name)?;
        Some(place as u32 + 1)
    }

    /// Returns the number of environments.
    pub fn environments(&self) -> u32
        ensures { result ≡ length (owners self.now) }
    {
        let mut count = 0;
        for function in self.functions() {
            count += function.slots.as_slice().len() as u32;
        }
        count
    }

    /// Returns the number of an environment's function.
    pub fn function_of(&self, env: EnvNo) -> FnNo
        requires from_one { 1 ≤ env }
        requires there { env ≤ length (owners self.now) }
        ensures { result ≡ function_of self.now env }
    {
        let mut place = env as usize - 1;
        for (i, function) in self.functions().iter().enumerate() {
            let slots = function.slots.as_slice().len();
            if place < slots {
                return i as u32 + 1;
            }
            place -= slots;
        }
        unreachable!()
    }

    /// Returns the configuration that was checked.
    pub fn as_config(&self) -> &Config
        ensures { result.now ≡ self.now }
    {
        &self.config
    }

    /// Returns the account and the region.
    pub fn home(&self) -> &Home
        ensures { result.now ≡ self.now.home }
    {
        &self.config.home
    }

    /// Returns how many invocations may be in flight at once, over all functions.
    pub fn account_limit(&self) -> u32
        ensures { result ≡ self.now.account_limit }
    {
        self.config.account_limit
    }

    /// Returns how much of the account's limit must stay unreserved.
    pub fn least_remainder(&self) -> u32
        ensures { result ≡ self.now.least_remainder }
    {
        self.config.least_remainder
    }

    /// Returns the loopback port of callers and operators.
    pub fn invoke_port(&self) -> u16
        ensures { result ≡ self.now.invoke_port }
    {
        self.config.invoke_port
    }
}
