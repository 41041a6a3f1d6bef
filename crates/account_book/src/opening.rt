//! What a journal keeps before any call.

ghost use Rattle.std.specs.Prelude.{◌≡◌, [], length, map, None, IfOk};
ghost use Rattle.arn_ids.specs.Environments.{count_from};
ghost use Rattle.arn_ids.specs.Faults.{first_fault};
ghost use Rattle.call_model.specs.History.{requests};
ghost use Rattle.fleet.specs.Sites.{sites as sites_in};

use arn_ids::{Checked, Function};
use fleet::Site;
use std::alloc::{AllocError, Global};

/// The environments before any call.
pub fn open_sites(alloc: Global, config: &Checked) -> Result<Vec<Site>, AllocError>
    requires { first_fault config.now ≡ None }
    ensures { IfOk result (λ sites. sites.items ≡ sites_in config.now []) }
{
    let mut sites = Vec::with_capacity(alloc, config.environments() as usize)?;
    for index in 0..config.environments() {
        sites.push(Site::open(alloc, config, index + 1)?)?;
    }
    Ok(sites)
}

/// The count of Invokes of each function before any call: 0.
pub fn open_counts(alloc: Global, functions: &[Function]) -> Result<Vec<u64>, AllocError>
    ensures { IfOk result (λ counts. counts.items ≡ map (requests []) (count_from 1 (length functions.now))) }
{
    let mut counts = Vec::with_capacity(alloc, functions.len())?;
    for _function in functions {
        counts.push(0)?;
    }
    Ok(counts)
}
