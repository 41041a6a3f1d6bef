//! An append-only list in blocks: appending never moves an item.
#![tactic(auto)]

mod blocks;

pub use blocks::Blocks;
