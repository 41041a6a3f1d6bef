//! What a step adds to the four counts.

ghost use Rattle.std.specs.Prelude.{◌≡◌, ◌-◌, ◌≤◌};
ghost use Rattle.usage_ledger.specs.Counts.{counts};

use call_model::Stats;
use usage_ledger::Counts;

/// Returns what a step counts, given the account's counts before and after it: one call, since an expiry
/// is not a call, and the increase of each other count.
pub(crate) fn rises(before: Stats, after: Stats) -> Counts
    requires { (before.admitted ≤ after.admitted) × (before.throttled ≤ after.throttled)
        × (before.failed ≤ after.failed) }
    ensures { result ≡ counts 1 (after.admitted - before.admitted) (after.throttled - before.throttled)
        (after.failed - before.failed) }
{
    Counts {
        calls: 1,
        admitted: after.admitted - before.admitted,
        throttled: after.throttled - before.throttled,
        failed: after.failed - before.failed,
    }
}
