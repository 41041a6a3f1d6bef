//! A configuration with its first functions alone.

ghost use Rattle.std.specs.Prelude.{◌≡◌, ◌≤◌, length};
ghost use Rattle.arn_ids.specs.Places.{with_first};

use crate::{Config, Function, Home};
use std::marker::Model;

/// A configuration with its first functions alone, seen by contracts as a configuration.
#[derive(Drop)]
pub(crate) struct Part<'a> {
    pub(crate) home: &'a Home,
    pub(crate) account_limit: u32,
    pub(crate) least_remainder: u32,
    invoke_port: u16,
    functions: &'a [Function],
}

impl<'a> Model for Part<'a> {
    ghost use Rattle.arn_ids.specs.declared.config.Config.{Config};

    ghost Value = { Config };

    ghost view = { λ p. record {
      home = p.home.now;
      account_limit = p.account_limit;
      least_remainder = p.least_remainder;
      invoke_port = p.invoke_port;
      functions = p.functions.now;
    } };
}

impl<'a> Part<'a> {
    /// Returns the callers' port.
    pub(crate) fn invoke_port(&self) -> u16
        ensures { result ≡ self.now.invoke_port }
    {
        self.invoke_port
    }

    /// Returns the functions.
    pub(crate) fn functions(&self) -> &[Function]
        ensures { result.now ≡ self.now.functions }
    {
        self.functions
    }
}

/// Returns the configuration with so many of its functions, from the first on.
pub(crate) fn first_of(config: &Config, count: usize) -> Part<'_>
    requires { count ≤ length config.now.functions }
    ensures { result ≡ with_first count config.now }
{
    Part {
        home: &config.home,
        account_limit: config.account_limit,
        least_remainder: config.least_remainder,
        invoke_port: config.invoke_port,
        functions: &config.functions.as_slice()[..count],
    }
}
