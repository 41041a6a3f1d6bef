//! Names, identifiers and the checked configuration of one account.
//!
//! The groups of modules stand in the order in which to read them.
#![tactic(auto)]

// Texts, as contracts see them, and the decimal numbers in them; the limits of sizes and numbers.
mod limits;
mod numbers;
mod text;

// Which texts are names, labels, regions and account numbers; a function's name in its three forms: plain, a partial
// ARN, an ARN.
mod names;
mod words;

// The configuration of one account. A `Checked` is made by its check alone, so whoever has one knows that it has no
// fault. The conditions are the faults one by one, over the whole configuration or its first functions alone; a fault
// has its place, which is found by a search for the first function with which it comes in.
mod conditions;
mod config;
mod faults;
mod part;
mod place;
mod search;

// The identifiers that the service gives: UUIDs from which the account's salt, the kind and the number can be read
// again.
mod identifiers;

// What follows for the names of a checked configuration.
pub mod laws;

pub use config::{Checked, Config, EnvNo, FnNo, Function, Home, Slot};
pub use faults::ConfigFault;
pub use identifiers::{IdKind, IdParts, event_id, extension_id, id_parts, request_id, salt_word};
pub use limits::{
    GREATEST_COUNT, GREATEST_MOMENT, LONGEST_BODY, LONGEST_TRACE, MOST_ENVIRONMENTS,
    MOST_EXTENSIONS,
};
pub use names::{FunctionName, NameFault, Named, arn_text, is_qualifier};
pub use numbers::{read_environment, read_number, read_number_u32};
pub use place::FaultPlace;
pub use text::{Row, Text};
pub use words::is_printable_word;
