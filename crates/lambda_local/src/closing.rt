//! The line that a service writes at its end.

ghost use Rattle.std.specs.Prelude.{Some};
ghost use Rattle.lambda_local.specs.Ending.{closing_line};

use call_model::Stats;
use std::fmt;

/// The counts of a service that has ended, as its line on standard output.
#[derive(Clone, Copy)]
pub struct ClosingLine {
    /// The counts.
    pub counts: Stats,
}

impl fmt::Display for ClosingLine {
    ghost use Rattle.std.specs.Prelude.{Some};
    ghost use Rattle.lambda_local.specs.Ending.{closing_line};

    ghost output = { λ line. Some (closing_line line.counts) };

    fn fmt<W: fmt::Write>(&self, f: &mut fmt::Formatter<W>) -> fmt::Result {
        let counts = &self.counts;
        write!(
            f,
            "admitted {} throttled {} failed {}",
            counts.admitted, counts.throttled, counts.failed
        )
    }
}
