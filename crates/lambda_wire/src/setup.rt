//! The contents of a configuration.

use arn_ids::Config;

/// The contents of a configuration: the account's own part, which `Config::check` has not tested yet,
/// and what the account's history starts from.
#[derive(Drop)]
pub struct Setup {
    /// The account, its limits, and its functions with their ports.
    pub config: Config,
    /// The salt of every identifier of this account: any 64 bits.
    pub salt: u64,
    /// How many entries the history may have. `Book::open` tests its range.
    pub max_entries: u64,
}
