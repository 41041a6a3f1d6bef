//! The faults of a configuration.

ghost use Rattle.std.specs.Prelude.{◌≡◌};
ghost use Rattle.arn_ids.specs.Faults.{first_fault, earliest, account_faults, function_faults, environment_faults};

use crate::conditions;
use crate::part::Part;
use std::error::Error;
use std::fmt;

/// Why a configuration is refused: the first fault that holds, in the order of the variants. Each
/// is tested over the whole configuration before the next. A fault is printed as its name.
#[derive(Clone, Copy, Debug, PartialEq, Eq)]
pub enum ConfigFault {
    /// The account isn't twelve digits.
    BadAccount,
    /// The region isn't 1 to 32 lower case letters, digits and `-`.
    BadRegion,
    /// The account's limit of concurrent invocations isn't between 1 and 1,000,000.
    BadAccountLimit,
    /// The least remainder is above the account's limit.
    BadLeastRemainder,
    /// There are more than 64 functions.
    TooManyFunctions,
    /// A function's name isn't 1 to 64 letters, digits, `-` and `_`.
    BadName,
    /// Two functions have one name.
    DuplicateName,
    /// A handler isn't 1 to 128 printing ASCII characters.
    BadHandler,
    /// A timeout isn't between 1 and 900 seconds.
    BadTimeout,
    /// A function has no port.
    NoEnvironment,
    /// The functions have more than `MOST_ENVIRONMENTS` ports together.
    TooManyEnvironments,
    /// A port is 0.
    BadPort,
    /// A port is used twice; the invoke port counts.
    DuplicatePort,
    /// A function expects more than `MOST_EXTENSIONS` extensions.
    TooManyExtensions,
    /// The name of an extension isn't 1 to 128 printing ASCII characters.
    BadExtension,
    /// A function expects two extensions of one name.
    DuplicateExtension,
    /// A function has more invocations reserved than it has environments.
    ReservationAboveEnvironments,
    /// The reservations and the least remainder are together above the account's limit.
    RemainderTooSmall,
    /// The greatest number of entries of a journal is out of its range. `Config::check` never
    /// returns this fault: it is for a program, whose configuration has that number too. The fault
    /// of `Book::open` has the same name.
    EntriesOutOfRange,
}

impl ConfigFault {
    /// Returns the name that the fault is printed as.
    fn name(self) -> &'static str {
        match self {
            ConfigFault::BadAccount => "BadAccount",
            ConfigFault::BadRegion => "BadRegion",
            ConfigFault::BadAccountLimit => "BadAccountLimit",
            ConfigFault::BadLeastRemainder => "BadLeastRemainder",
            ConfigFault::TooManyFunctions => "TooManyFunctions",
            ConfigFault::BadName => "BadName",
            ConfigFault::DuplicateName => "DuplicateName",
            ConfigFault::BadHandler => "BadHandler",
            ConfigFault::BadTimeout => "BadTimeout",
            ConfigFault::NoEnvironment => "NoEnvironment",
            ConfigFault::TooManyEnvironments => "TooManyEnvironments",
            ConfigFault::BadPort => "BadPort",
            ConfigFault::DuplicatePort => "DuplicatePort",
            ConfigFault::TooManyExtensions => "TooManyExtensions",
            ConfigFault::BadExtension => "BadExtension",
            ConfigFault::DuplicateExtension => "DuplicateExtension",
            ConfigFault::ReservationAboveEnvironments => "ReservationAboveEnvironments",
            ConfigFault::RemainderTooSmall => "RemainderTooSmall",
            ConfigFault::EntriesOutOfRange => "EntriesOutOfRange",
        }
    }
}

impl fmt::Display for ConfigFault {
    fn fmt<W: fmt::Write>(&self, f: &mut fmt::Formatter<W>) -> fmt::Result {
        f.write_str(self.name())
    }
}

impl Error for ConfigFault {}

/// Returns the first fault of a configuration, if it has one.
#[tactic(auto, unfolding(crate::specs::Faults::first_fault))]
pub(crate) fn fault_of(config: &Part<'_>) -> Option<ConfigFault>
    ensures { result ≡ first_fault config.now }
{
    if let Some(fault) = account_fault(config) {
        return Some(fault);
    }
    if let Some(fault) = function_fault(config) {
        return Some(fault);
    }
    environment_fault(config)
}

fn account_fault(config: &Part<'_>) -> Option<ConfigFault>
    ensures { result ≡ earliest (account_faults config.now) }
{
    if conditions::has_bad_account(config) {
        return Some(ConfigFault::BadAccount);
    }
    if conditions::has_bad_region(config) {
        return Some(ConfigFault::BadRegion);
    }
    if conditions::has_bad_account_limit(config) {
        return Some(ConfigFault::BadAccountLimit);
    }
    if conditions::has_bad_least_remainder(config) {
        return Some(ConfigFault::BadLeastRemainder);
    }
    None
}

fn function_fault(config: &Part<'_>) -> Option<ConfigFault>
    ensures { result ≡ earliest (function_faults config.now) }
{
    if conditions::has_too_many_functions(config) {
        return Some(ConfigFault::TooManyFunctions);
    }
    if conditions::has_bad_name(config) {
        return Some(ConfigFault::BadName);
    }
    if conditions::has_duplicate_name(config) {
        return Some(ConfigFault::DuplicateName);
    }
    if conditions::has_bad_handler(config) {
        return Some(ConfigFault::BadHandler);
    }
    if conditions::has_bad_timeout(config) {
        return Some(ConfigFault::BadTimeout);
    }
    if conditions::has_function_without_environment(config) {
        return Some(ConfigFault::NoEnvironment);
    }
    if conditions::has_too_many_environments(config) {
        return Some(ConfigFault::TooManyEnvironments);
    }
    None
}

fn environment_fault(config: &Part<'_>) -> Option<ConfigFault>
    ensures { result ≡ earliest (environment_faults config.now) }
{
    if conditions::has_bad_port(config) {
        return Some(ConfigFault::BadPort);
    }
    if conditions::has_duplicate_port(config) {
        return Some(ConfigFault::DuplicatePort);
    }
    if conditions::has_too_many_extensions(config) {
        return Some(ConfigFault::TooManyExtensions);
    }
    if conditions::has_bad_extension(config) {
        return Some(ConfigFault::BadExtension);
    }
    if conditions::has_duplicate_extension(config) {
        return Some(ConfigFault::DuplicateExtension);
    }
    if conditions::has_reservation_above_environments(config) {
        return Some(ConfigFault::ReservationAboveEnvironments);
    }
    if conditions::has_too_small_remainder(config) {
        return Some(ConfigFault::RemainderTooSmall);
    }
    None
}
