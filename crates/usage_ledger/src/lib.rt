//! What each thread of an account counted and noted: shares of four counts, whose sum is the total,
//! and the answers that were given and the calls that were made.
#![tactic(auto)]

mod counts;
mod join_fault;
mod keep;
mod keepers;
pub mod laws;
mod ledgers;
mod shares;
mod tally;
mod totals;

pub use counts::Counts;
pub use join_fault::JoinFault;
pub use keep::Keep;
pub use keepers::{KeepAll, KeepNone};
pub use ledgers::{Anchor, Blanks, History, Ledgers, Pen, Spine, Token};
pub use tally::Tally;
pub use totals::{Start, Totals, root};
