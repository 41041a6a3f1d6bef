//! A local Lambda service. `lambda_local`, or `lambda_local replay`, replays a script of calls from
//! standard input and writes each call's answer to standard output. `lambda_local trace` writes the
//! trace of the history that the script leads to instead: a JSON object for each entry, a line each;
//! with `--bodies none`, without payloads, outputs and reports. `lambda_local explain` reads a
//! configuration from standard input, and says which fault it has and where. `lambda_local serve PATH`
//! serves the configuration in a file over HTTP until it is stopped, and then writes the account's counts.
//!
//! The groups of modules stand in the order in which to read them.
#![tactic(auto)]

// What `serve` runs: a clock that may be paused and set, the log on a thread of its own, and the line at the end.
mod clock;
mod closing;
mod course;
mod log_writer;
mod rejected;
mod serve;

// The configuration, what is wrong with it and where, and the environment variables that set the rest.
mod configuration;
mod explain;
mod handled;
mod hosts;
mod patience;

// Why the program ends with a fault.
mod serve_fault;
mod setting_fault;

use crate::explain::explain;
use crate::handled::read_handled;
use crate::hosts::read_hosts;
use crate::patience::read_patience;
use crate::serve::serve;
use crate::serve_fault::ServeFault;
use crate::setting_fault::SettingFault;
use arn_ids::{ConfigFault, FaultPlace};
use http_front::Machine;
use log::Log;
use script_replay::{ReplayFault, replay};
use std::env::{self, Env};
use std::io::{self, Read};
use std::marker::PhantomData;
use std::net::{TcpListener, TcpStream};
use std::process::ExitCode;
use std::rt::Files;
use thiserror::Error;
use trace_replay::trace;

/// What the arguments ask for.
#[derive(Drop)]
enum Asked {
    /// Replay standard input.
    Replay,
    /// Write the trace of standard input, with or without bodies.
    Trace { bodies: bool },
    /// Say where the fault of the configuration on standard input is.
    Explain,
    /// Serve the configuration in the file with this path.
    Serve(String),
    /// Anything else: the program prints its usage.
    Nothing,
}

/// Why the program fails. It prints as the line on standard error.
#[derive(Clone, Copy, Debug, PartialEq, Eq, Error)]
enum ProgramFault {
    /// The arguments ask for something else, or an environment variable is malformed.
    #[error("usage: lambda_local [replay | serve PATH]")]
    Usage,
    /// The replay ended before its input.
    #[error("{0}")]
    Replay(ReplayFault),
    /// The configuration has a fault, at this place.
    #[error("configuration: {0}\n{1}")]
    At(ConfigFault, FaultPlace),
    /// The service did not come to a settled end.
    #[error("{0}")]
    Serve(ServeFault),
}

impl ProgramFault {
    /// Returns the exit status: 2 for a usage fault.
    fn status(self) -> u8 {
        match self {
            ProgramFault::Usage | ProgramFault::At(..) => 2,
            ProgramFault::Replay(fault) => fault.status(),
            ProgramFault::Serve(fault) => fault.status(),
        }
    }
}

impl From<SettingFault> for ProgramFault {
    fn from(fault: SettingFault) -> ProgramFault {
        match fault {
            SettingFault::Malformed => ProgramFault::Usage,
            SettingFault::OutOfMemory => ProgramFault::Serve(ServeFault::OutOfMemory),
        }
    }
}

/// Returns what `trace` with an option asks for.
fn traced(option: &str, value: &str) -> Asked {
    match (option, value) {
        ("--bodies", "none") => Asked::Trace { bodies: false },
        _ => Asked::Nothing,
    }
}

/// Reads what the arguments ask for.
fn read_arguments<R: Env + AllocGlobal>(rt: &R) -> io::Result<Asked> {
    let mut words = env::args(rt)?.skip(1);
    let Some(first) = words.next() else {
        return Ok(Asked::Replay);
    };
    let second = words.next();
    let third = words.next();
    if words.next().is_some() {
        return Ok(Asked::Nothing);
    }
    match (first.as_str(), second, third) {
        ("replay", None, None) => Ok(Asked::Replay),
        ("trace", None, None) => Ok(Asked::Trace { bodies: true }),
        ("trace", Some(option), Some(value)) => Ok(traced(option.as_str(), value.as_str())),
        ("explain", None, None) => Ok(Asked::Explain),
        ("serve", Some(path), None) => Ok(Asked::Serve(path)),
        _ => Ok(Asked::Nothing),
    }
}

fn run<R: Machine + Log + Files + Env + Input + Print>(rt: R) -> Result<(), ProgramFault>
where
    R::File: Read + Drop,
{
    match read_arguments(&rt) {
        Ok(Asked::Replay) => {
            let mut reader = rt.reader();
            let mut writer = io::writer(&rt);
            replay(rt.alloc(), &mut reader, &mut writer).map_err(ProgramFault::Replay)
        }
        Ok(Asked::Trace { bodies }) => {
            let mut reader = rt.reader();
            let mut writer = io::writer(&rt);
            trace(rt.alloc(), &mut reader, &mut writer, bodies).map_err(ProgramFault::Replay)
        }
        Ok(Asked::Explain) => match explain(rt.alloc(), rt.reader()) {
            Ok(None) => Ok(()),
            Ok(Some(place)) => Err(ProgramFault::At(place.fault, place)),
            Err(fault) => Err(ProgramFault::Serve(fault)),
        },
        Ok(Asked::Serve(path)) => {
            let patience = read_patience(&rt)?;
            let hosts = read_hosts(&rt)?;
            let handled = read_handled(&rt)?;
            serve(rt, path.as_str(), patience, hosts, handled).map_err(ProgramFault::Serve)
        }
        Err(error) if error.kind() == io::ErrorKind::OutOfMemory => {
            Err(ProgramFault::Replay(ReplayFault::OutOfMemory))
        }
        _ => Err(ProgramFault::Usage),
    }
}

fn main(rt: HostRuntime) -> ExitCode {
    // `run` needs the types of the machine's sockets among those of `main`.
    let _: PhantomData<(TcpListener, TcpStream)> = PhantomData;
    match run(rt) {
        Ok(()) => ExitCode::SUCCESS,
        Err(fault) => {
            // If standard error cannot be written either, only the status remains.
            let _written = eprintln!(rt; "{fault}");
            ExitCode::from(fault.status())
        }
    }
}
