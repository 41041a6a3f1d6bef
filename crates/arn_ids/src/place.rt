//! The place of a fault: the function with which it comes in, and the member.

ghost use Rattle.std.specs.Prelude.{◌≡◌, Some};
ghost use Rattle.arn_ids.specs.Places as spec;

use crate::ConfigFault;
use std::fmt;

/// The place of a fault. It is printed as a path in the configuration, as `jq` has it: `accountLimit`, or
/// `functions[3].timeout` of the fourth function.
#[derive(Clone, Copy, Debug, PartialEq, Eq)]
pub struct FaultPlace {
    /// The fault.
    pub fault: ConfigFault,
    /// How many functions bring the fault in, from the first on, so that it is the last of them that has the
    /// member; 0 if it is a member of the account.
    pub functions: usize,
}

/// Returns the member of a function that a fault is about; an empty text if it is about the function itself.
fn member_of_function(fault: ConfigFault) -> &'static str
    ensures { result.now ≡ spec.member_of_function fault }
{
    match fault {
        ConfigFault::BadName | ConfigFault::DuplicateName => ".name",
        ConfigFault::BadHandler => ".handler",
        ConfigFault::BadTimeout => ".timeout",
        ConfigFault::NoEnvironment
        | ConfigFault::TooManyEnvironments
        | ConfigFault::BadPort
        | ConfigFault::DuplicatePort => ".ports",
        ConfigFault::TooManyExtensions
        | ConfigFault::BadExtension
        | ConfigFault::DuplicateExtension => ".extensions",
        ConfigFault::ReservationAboveEnvironments | ConfigFault::RemainderTooSmall => ".reserved",
        _ => "",
    }
}

/// Returns the member of the account that a fault is about.
fn member_of_account(fault: ConfigFault) -> &'static str
    ensures { result.now ≡ spec.member_of_account fault }
{
    match fault {
        ConfigFault::BadAccount => "account",
        ConfigFault::BadRegion => "region",
        ConfigFault::BadAccountLimit => "accountLimit",
        ConfigFault::BadLeastRemainder => "leastRemainder",
        ConfigFault::BadPort | ConfigFault::DuplicatePort => "invokePort",
        ConfigFault::EntriesOutOfRange => "maxEntries",
        _ => "functions",
    }
}

impl fmt::Display for FaultPlace {
    ghost use Rattle.std.specs.Prelude.{Some};
    ghost use Rattle.arn_ids.specs.Places.{path};

    ghost output = { λ place. Some (path place) };

    fn fmt<W: fmt::Write>(&self, f: &mut fmt::Formatter<W>) -> fmt::Result {
        if self.functions == 0 {
            return f.write_str(member_of_account(self.fault));
        }
        write!(
            f,
            "functions[{}]{}",
            self.functions - 1,
            member_of_function(self.fault)
        )
    }
}
