//! The book of a script: how its configuration opens it, and how it answers a call.

ghost use Rattle.std.specs.Prelude.{◌≡◌, ◌<◌, ◌≤◌, ◌^◌, ◌++◌, length, reverse, drop, OnOk, IfOk, IfErr, Ok, Err};
ghost use Rattle.call_types.specs.Within.{IsWithin};
ghost use Rattle.account_book.specs.Run.{opened, call_answered, lines_from};
ghost use Rattle.script_replay.specs.Faults.{HasFault};

use crate::fault::ReplayFault;
use account_book::{Book, OpenFault, Refusal};
use arn_ids::ConfigFault;
use call_model::Call;
use lambda_wire::{WireFault, read_config};
use std::alloc::{AllocError, Global};
use std::sync::Arc;

/// Opens the book that the configuration's line describes.
#[tactic(auto, unfolding(account_book::specs::Run::opened))]
pub fn open_book(alloc: Global, line: &[u8]) -> Result<Book, ReplayFault>
    ensures book { IfOk result (λ book. opened line.now ≡ Ok book) }
    ensures fault { IfErr result (λ e. HasFault (opened line.now) e) }
{
    let setup = match read_config(alloc, line) {
        Ok(setup) => setup,
        Err(WireFault::OutOfMemory) => return Err(ReplayFault::OutOfMemory),
        Err(fault) => return Err(ReplayFault::Wire(fault)),
    };
    let config = match setup.config.check() {
        Ok(config) => config,
        Err(place) => return Err(ReplayFault::Config(place.fault)),
    };
    let config = Arc::new(alloc, config).map_err(AllocError::from)?;
    match Book::open(alloc, config, setup.salt, setup.max_entries) {
        Ok(book) => Ok(book),
        Err(OpenFault::EntriesOutOfRange) => Err(ReplayFault::Config(
            ConfigFault::EntriesOutOfRange,
        )),
        Err(OpenFault::OutOfMemory) => Err(ReplayFault::OutOfMemory),
    }
}

/// Adds the answer lines of the entries from this number on.
fn push_from(book: &Book, from: usize, out: &mut Vec<u8>) -> Result<(), AllocError>
    requires there { from ≤ length book.now.history }
    ensures { OnOk result (out.new.items ≡ out.old.items
        ++ lines_from book.now.salt book.now.history from (drop from (reverse book.now.history))) }
{
    let past = book.past();
    let mut number = from;
    while number < past.entries.len() {
        script::push_answers(out, &past, number)?;
        number += 1;
    }
    Ok(())
}

/// Applies a call to the book, and adds the lines of its answers.
#[tactic(auto, unfolding(account_book::specs::Run::call_answered))]
pub fn answer(book: &mut Book, now: u64, call: Call, out: &mut Vec<u8>) -> Result<(), AllocError>
    requires moment { now < 2 ^ 53 }
    requires within { IsWithin book.old.config call }
    ensures book { OnOk result (book.new ≡ (call_answered book.old now call).0) }
    ensures text { OnOk result (out.new.items ≡ out.old.items ++ (call_answered book.old now call).1) }
{
    let before = book.entries().len();
    match book.apply(now, call) {
        Ok(_ticket) => push_from(book, before, out),
        Err(Refusal::JournalFull) => out.extend_from_slice(b"refused JournalFull\n"),
        Err(Refusal::OutOfMemory) => Err(AllocError),
    }
}
