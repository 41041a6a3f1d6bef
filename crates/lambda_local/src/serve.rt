//! Serving a configuration over HTTP.

ghost use Rattle.std.specs.Prelude.{◌≡◌, List, IfOk};
ghost use Rattle.std.specs.Arc.{arc_value};
ghost use Rattle.account_book.specs.Reached.{IsReached};
ghost use Rattle.call_types.specs.declared.call.Entry.{Entry};
ghost use Rattle.usage_ledger.specs.Tallies.{Tallied};
ghost use Rattle.lambda_local.specs.Ending.{IsClosing};

use crate::clock::UnixClock;
use crate::closing::ClosingLine;
use crate::configuration::read_setup;
use crate::log_writer::LogWriter;
use crate::serve_fault::ServeFault;
use account_lock::{Identity, Settled};
use http_front::{Host, Hosted, Machine, Plan};
use log::Log;
use request_guard::KnownHosts;
use service_port::HandledPorts;
use std::fmt::Display;
use std::fs;
use std::io::{self, Read};
use std::marker::Brand;
use std::rt::Files;
use usage_ledger::{Blanks, KeepNone, Ledgers, Tally, Token};

/// Reads the plan in a file.
fn read_plan<R: Files + AllocGlobal>(rt: &R, path: &str) -> Result<Plan, ServeFault>
where
    R::File: Read + Drop,
{
    let file = fs::open(rt, path).map_err(|fault| ServeFault::at_input(&fault))?;
    let setup = read_setup(rt.alloc(), file)?;
    Ok(Plan::check(rt.alloc(), setup)?)
}

/// What a service has counted: the line with the counts of its history, the shares of all its
/// threads in one tally, and a token that has seen the history.
#[derive(Drop)]
pub struct Counted<L: Ledgers> {
    /// The line.
    pub line: ClosingLine,
    /// The shares.
    pub tally: Tally<KeepNone, L>,
    /// The token.
    pub token: Token<L>,
}

/// Returns the line with the counts of an account that was served, with the shares of its threads,
/// after a check that the shares count what its history counts.
///
/// # Errors
/// `Settlement` if they do not, otherwise `OutOfMemory`.
fn settled<S: Identity>(hosted: Hosted<S, KeepNone>) -> Result<Counted<S>, ServeFault>
    ensures closing { IfOk result (λ counted. IsClosing S.config counted.token counted.line.counts
        (⟦<ClosingLine as Display>⟧.output counted.line) counted.tally) }
    ensures reached { IfOk result (λ counted. IsReached S.config S.most counted.token) }
{
    let Hosted { account, tallies } = hosted;
    let (settled, token) = headline::settle(account, tallies)?;
    let Settled { stats, tally, .. } = settled;
    let line = ClosingLine { counts: stats };
    Ok(Counted { line, tally, token })
}

/// Serves a plan until it is stopped, settles, and returns the line with the account's counts, the
/// shares of all its threads, which add up to them, and a token that has seen the account's whole
/// history: no share of the account's ledgers is anywhere else. `S` names the configuration, the
/// salt, the limit, the ledgers and the history of the account.
fn serve_counted<R: Machine + Log, S: Identity + Drop + Send + Sync + 'static>(
    rt: R,
    plan: Plan,
    patience: u32,
    hosts: KnownHosts,
    blanks: Blanks,
) -> Result<Counted<S>, ServeFault>
    requires configured { arc_value plan.config ≡ S.config }
    requires salted { plan.salt ≡ S.salt }
    requires limited { plan.max_entries ≡ S.most }
    requires named { blanks ≡ S.names }
    ensures closing { IfOk result (λ counted. IsClosing (arc_value plan.config) counted.token
        counted.line.counts (⟦<ClosingLine as Display>⟧.output counted.line) counted.tally) }
    ensures reached { IfOk result (λ counted.
        IsReached (arc_value plan.config) plan.max_entries counted.token) }
{
    let clock = UnixClock::new(rt);
    let places = plan.places();
    let host: Host<R, S, UnixClock<R>, KeepNone> = Host::open(
        rt, plan, clock, hosts, places, patience, blanks,
    )?;
    let log = LogWriter::start(rt, host.notices()?)?;
    let served = host.run();
    log.finish(&rt);
    settled(served?)
}

/// Does the same, but returns the line alone. (A caller can name the ledgers only if no type of the
/// result does.)
fn serve_plan<R: Machine + Log, S: Identity + Drop + Send + Sync + 'static>(
    rt: R,
    plan: Plan,
    patience: u32,
    hosts: KnownHosts,
    blanks: Blanks,
) -> Result<ClosingLine, ServeFault>
    requires configured { arc_value plan.config ≡ S.config }
    requires salted { plan.salt ≡ S.salt }
    requires limited { plan.max_entries ≡ S.most }
    requires named { blanks ≡ S.names }
    ensures { IfOk result (λ line. (history : List Entry) × (tally : Tallied)
        × IsReached (arc_value plan.config) plan.max_entries history
        × IsClosing (arc_value plan.config) history line.counts (⟦<ClosingLine as Display>⟧.output line) tally) }
{
    match serve_counted::<R, S>(rt, plan, patience, hosts, blanks) {
        Ok(counted) => Ok(counted.line),
        Err(fault) => Err(fault),
    }
}

/// Names the configuration, the salt, the limit, the ledgers and the history, serves the plan, and
/// returns the line with the account's counts.
fn serve_by_brand<R: Machine + Log>(
    rt: R,
    plan: Plan,
    patience: u32,
    hosts: KnownHosts,
) -> Result<ClosingLine, ServeFault>
    ensures { IfOk result (λ line. (history : List Entry) × (tally : Tallied)
        × IsReached (arc_value plan.config) plan.max_entries history
        × IsClosing (arc_value plan.config) history line.counts (⟦<ClosingLine as Display>⟧.output line) tally) }
{
    let blanks = Blanks::new(rt.alloc()).map_err(|_fault| ServeFault::OutOfMemory)?;
    serve_plan::<R, Brand>(rt, plan, patience, hosts, blanks)
}

/// Serves the configuration in a file until it is stopped, settles, and writes the account's counts
/// to standard output. A premature Invoke is held back for up to `patience` milliseconds. A request
/// is refused if it names a host that is neither local nor one of `hosts` ([`Host::open`]). All
/// requests to the ports `handled` are handed over to handlers.
///
/// # Errors
/// Those of the fault; nothing is then written to standard output.
pub fn serve<R: Machine + Log + Files + Print>(
    rt: R,
    path: &str,
    patience: u32,
    hosts: KnownHosts,
    handled: HandledPorts,
) -> Result<(), ServeFault>
where
    R::File: Read + Drop,
{
    let plan = read_plan(&rt, path)?;
    let Some(plan) = plan.handing(rt.alloc(), handled)? else {
        return Err(ServeFault::PortInBoth);
    };
    let line = serve_by_brand(rt, plan, patience, hosts)?;
    println!(rt; "{line}").map_err(|fault| ServeFault::at_output(&fault))
}
