//! The reader of the calls of a script.

ghost use Rattle.std.specs.Prelude.{◌≡◌, bytes_eq, IfOk, IfSome};
ghost use Rattle.script.specs.Lines as spec;
ghost use Rattle.script.specs.Lines.{call_in};
ghost use Rattle.call_types.specs.Within.{IsTimed};
ghost use Rattle.call_types.specs.declared.call.Call.TheVariants as calls;
ghost use Rattle.script.specs.Views.{fields_left};

use crate::fields::{cut, four_fields, one_field, three_fields, two_fields};
use crate::text_fields::{body, extension_name, trace};
use arn_ids::{
    Checked, EnvNo, GREATEST_COUNT, GREATEST_MOMENT, read_environment, read_number, read_number_u32,
};
use bytes::Bytes;
use call_model::Call;
use std::alloc::{AllocError, Global};

/// Whether the two words are equal.
fn says(word: &[u8], text: &str) -> bool
    ensures { result ≡ bytes_eq word.now text.now }
{
    word == text.as_bytes()
}

/// Reads the count in an identifier.
fn count_number(field: &[u8]) -> Option<u64>
    ensures { result ≡ spec.count_in field.now }
{
    read_number(field, GREATEST_COUNT)
}

/// Reads a flag: this word if it is set, otherwise a dash.
fn flag(field: &[u8], word: &str) -> Option<bool>
    ensures { result ≡ spec.flag_in word.now field.now }
{
    if says(field, word) {
        Some(true)
    } else if says(field, "-") {
        Some(false)
    } else {
        None
    }
}

/// Reads whether an extension registers for INVOKE, and whether for SHUTDOWN.
fn events(field: &[u8]) -> Option<(bool, bool)>
    ensures { result ≡ spec.events_in field.now }
{
    if says(field, "i") {
        Some((true, false))
    } else if says(field, "s") {
        Some((false, true))
    } else if says(field, "is") {
        Some((true, true))
    } else if says(field, "-") {
        Some((false, false))
    } else {
        None
    }
}

/// Reads a reservation, or the dash that removes one.
fn reservation(field: &[u8]) -> Option<Option<u32>>
    ensures { result ≡ spec.reservation_in field.now }
{
    if says(field, "-") {
        return Some(None);
    }
    let count = read_number_u32(field, u32::MAX)?;
    Some(Some(count))
}

#[tactic(auto, unfolding(crate::specs::Lines::invoke_in))]
fn invoke(alloc: Global, config: &Checked, line: Option<&[u8]>) -> Result<Option<Call>, AllocError>
    ensures { IfOk result (λ call. call ≡ spec.invoke_in config.now (fields_left line.entry)) }
{
    let Some((function, qualified, trace_field, body_field)) = four_fields(line) else {
        return Ok(None);
    };
    let Some(function) = config.function_named(function) else {
        return Ok(None);
    };
    let Some(qualified) = flag(qualified, "q") else {
        return Ok(None);
    };
    let Some(trace) = trace(alloc, trace_field)? else {
        return Ok(None);
    };
    let Some(body) = body(alloc, body_field)? else {
        return Ok(None);
    };
    Ok(Some(Call::Invoke {
        function,
        qualified,
        trace,
        body,
    }))
}

/// Reads the one environment that a line names.
#[tactic(auto, unfolding(crate::specs::Lines::lone_env_in))]
fn lone_env(config: &Checked, line: Option<&[u8]>) -> Option<EnvNo>
    ensures { result ≡ spec.lone_env_in config.now (fields_left line.entry) }
{
    read_environment(config, one_field(line)?)
}

/// Reads the environment and the count that a line names.
#[tactic(auto, unfolding(crate::specs::Lines::env_and_count_in))]
fn env_and_count(config: &Checked, line: Option<&[u8]>) -> Option<(EnvNo, u64)>
    ensures { result ≡ spec.env_and_count_in config.now (fields_left line.entry) }
{
    let (env, count) = two_fields(line)?;
    let env = read_environment(config, env)?;
    let count = count_number(count)?;
    Some((env, count))
}

/// Reads the environment, the count and the bytes of a report.
#[tactic(auto, unfolding(crate::specs::Lines::report_in))]
fn report(
    alloc: Global,
    config: &Checked,
    line: Option<&[u8]>,
) -> Result<Option<(EnvNo, u64, Bytes)>, AllocError>
    ensures { IfOk result (λ report. report ≡ spec.report_in config.now (fields_left line.entry)) }
{
    let Some((env, count, body_field)) = three_fields(line) else {
        return Ok(None);
    };
    let Some(env) = read_environment(config, env) else {
        return Ok(None);
    };
    let Some(count) = count_number(count) else {
        return Ok(None);
    };
    let Some(body) = body(alloc, body_field)? else {
        return Ok(None);
    };
    Ok(Some((env, count, body)))
}

#[tactic(auto, unfolding(crate::specs::Lines::init_failure_in))]
fn init_failure(
    alloc: Global,
    config: &Checked,
    line: Option<&[u8]>,
) -> Result<Option<Call>, AllocError>
    ensures { IfOk result (λ call. call ≡ spec.init_failure_in config.now (fields_left line.entry)) }
{
    let Some((env, body_field)) = two_fields(line) else {
        return Ok(None);
    };
    let Some(env) = read_environment(config, env) else {
        return Ok(None);
    };
    let Some(body) = body(alloc, body_field)? else {
        return Ok(None);
    };
    Ok(Some(Call::InitFailure { env, body }))
}

#[tactic(auto, unfolding(crate::specs::Lines::register_in))]
fn register(
    alloc: Global,
    config: &Checked,
    line: Option<&[u8]>,
) -> Result<Option<Call>, AllocError>
    ensures { IfOk result (λ call. call ≡ spec.register_in config.now (fields_left line.entry)) }
{
    let Some((env, name_field, events_field, account)) = four_fields(line) else {
        return Ok(None);
    };
    let Some(env) = read_environment(config, env) else {
        return Ok(None);
    };
    let Some(name) = extension_name(alloc, name_field)? else {
        return Ok(None);
    };
    let Some((invoke, shutdown)) = events(events_field) else {
        return Ok(None);
    };
    let Some(account) = flag(account, "a") else {
        return Ok(None);
    };
    Ok(Some(Call::Register {
        env,
        name,
        invoke,
        shutdown,
        account,
    }))
}

#[tactic(auto, unfolding(crate::specs::Lines::withdraw_in))]
fn withdraw(line: Option<&[u8]>) -> Option<Call>
    ensures { result ≡ spec.withdraw_in (fields_left line.entry) }
{
    let ticket = read_number(one_field(line)?, u64::MAX)?;
    Some(Call::Withdraw { ticket })
}

#[tactic(auto, unfolding(crate::specs::Lines::reserve_in))]
fn reserve(config: &Checked, line: Option<&[u8]>) -> Option<Call>
    ensures { result ≡ spec.reserve_in config.now (fields_left line.entry) }
{
    let (function, count) = two_fields(line)?;
    let function = config.function_named(function)?;
    let count = reservation(count)?;
    Some(Call::Reserve { function, count })
}

#[tactic(auto, using(crate::proofs::FieldLemmas::not_alone))]
fn tick(line: Option<&[u8]>) -> Option<Call>
    ensures { result ≡ spec.alone calls.Tick (fields_left line.entry) }
{
    match line {
        None => Some(Call::Tick),
        Some(_) => None,
    }
}

#[tactic(auto, using(crate::proofs::FieldLemmas::not_alone))]
fn stop(line: Option<&[u8]>) -> Option<Call>
    ensures { result ≡ spec.alone calls.Stop (fields_left line.entry) }
{
    match line {
        None => Some(Call::Stop),
        Some(_) => None,
    }
}

/// Reads a call of an extension, by its word.
#[tactic(auto, unfolding(crate::specs::Lines::extension_call_in))]
fn extension_call(
    alloc: Global,
    config: &Checked,
    word: &[u8],
    line: Option<&[u8]>,
) -> Result<Option<Call>, AllocError>
    ensures { IfOk result (λ call. call ≡ spec.extension_call_in config.now word.now (fields_left line.entry)) }
{
    if says(word, "register") {
        return register(alloc, config, line);
    }
    if says(word, "ext-next") {
        let two = env_and_count(config, line);
        return Ok(two.map(|(env, ext)| Call::ExtNext { env, ext }));
    }
    if says(word, "ext-init-failure") {
        let report = report(alloc, config, line)?;
        return Ok(report.map(|(env, ext, body)| Call::ExtInitFailure { env, ext, body }));
    }
    if says(word, "ext-exit-failure") {
        let report = report(alloc, config, line)?;
        return Ok(report.map(|(env, ext, body)| Call::ExtExitFailure { env, ext, body }));
    }
    Ok(None)
}

/// Reads a call of a runtime, by its word, or else of an extension.
#[tactic(auto, unfolding(crate::specs::Lines::runtime_call_in))]
fn runtime_call(
    alloc: Global,
    config: &Checked,
    word: &[u8],
    line: Option<&[u8]>,
) -> Result<Option<Call>, AllocError>
    ensures { IfOk result (λ call. call ≡ spec.runtime_call_in config.now word.now (fields_left line.entry)) }
{
    if says(word, "next") {
        return Ok(lone_env(config, line).map(|env| Call::RuntimeNext { env }));
    }
    if says(word, "response") {
        let report = report(alloc, config, line)?;
        return Ok(report.map(|(env, id, body)| Call::Response { env, id, body }));
    }
    if says(word, "response-too-large") {
        let two = env_and_count(config, line);
        return Ok(two.map(|(env, id)| Call::ResponseTooLarge { env, id }));
    }
    if says(word, "failure") {
        let report = report(alloc, config, line)?;
        return Ok(report.map(|(env, id, body)| Call::Failure { env, id, body }));
    }
    if says(word, "init-failure") {
        return init_failure(alloc, config, line);
    }
    extension_call(alloc, config, word, line)
}

/// Reads a call of a caller, an operator or the clock, by its word, or else of a runtime or an
/// extension.
#[tactic(auto, unfolding(crate::specs::Lines::call_by_word))]
fn call_by_word(
    alloc: Global,
    config: &Checked,
    reserves: bool,
    word: &[u8],
    line: Option<&[u8]>,
) -> Result<Option<Call>, AllocError>
    ensures { IfOk result (λ call. call ≡ spec.call_by_word reserves config.now word.now (fields_left line.entry)) }
{
    if says(word, "invoke") {
        return invoke(alloc, config, line);
    }
    if says(word, "tick") {
        return Ok(tick(line));
    }
    if says(word, "stop") {
        return Ok(stop(line));
    }
    if says(word, "spindown") {
        return Ok(lone_env(config, line).map(|env| Call::Spindown { env }));
    }
    if says(word, "withdraw") {
        return Ok(withdraw(line));
    }
    if says(word, "reserve") && reserves {
        return Ok(reserve(config, line));
    }
    runtime_call(alloc, config, word, line)
}

#[tactic(auto, unfolding(crate::specs::Lines::call_in))]
fn timed_call(
    alloc: Global,
    config: &Checked,
    reserves: bool,
    line: &[u8],
) -> Result<Option<(u64, Call)>, AllocError>
    ensures { IfOk result (λ call. call ≡ call_in reserves config.now line.now) }
{
    let (moment, rest) = cut(line);
    let Some(rest) = rest else {
        return Ok(None);
    };
    let (word, rest) = cut(rest);
    let Some(moment) = read_number(moment, GREATEST_MOMENT) else {
        return Ok(None);
    };
    let Some(call) = call_by_word(alloc, config, reserves, word, rest)? else {
        return Ok(None);
    };
    Ok(Some((moment, call)))
}

/// Reads the moment and the call of a line of a script; returns `None` if it isn't a call.
///
/// The line is given without its ending. Its fields are separated by single spaces: the moment in
/// milliseconds, a word, and the arguments of the word.
///
/// | Word | Fields |
/// |---|---|
/// | `invoke F Q T =BODY` | name of a function; `q` if it is qualified, else `-`; `=TRACE` or `-` |
/// | `next E` | an environment's number |
/// | `response E N =BODY`, `failure E N =BODY`, `response-too-large E N` | N the count in the request identifier |
/// | `init-failure E =BODY` | |
/// | `register E =NAME V A` | V one of `i`, `s`, `is`, `-`; A `a` if it asks for the account, else `-` |
/// | `ext-next E X` | X the count in the extension identifier |
/// | `ext-init-failure E X =BODY`, `ext-exit-failure E X =BODY` | as above |
/// | `tick`, `stop`, `spindown E`, `withdraw T` | T a ticket, below 2^64 |
/// | `reserve F N`, `reserve F -` | N below 2^32; only if `reserves` |
///
/// Numbers are decimal without leading zeros, moments below 2^53, counts below 2^48. A text begins
/// with `=`, and what follows is percent-decoded (RFC 3986, section 2.1; a `%` without two digits
/// stays): a body has at most 6,291,456 bytes, a trace from 1 to 256 printing characters, a name
/// from 1 to 128.
///
/// # Errors
/// Only if memory is refused.
pub fn read_call(
    alloc: Global,
    config: &Checked,
    reserves: bool,
    line: &[u8],
) -> Result<Option<(u64, Call)>, AllocError>
    ensures call { IfOk result (λ call. call ≡ call_in reserves config.now line.now) }
    // Its numbers are those of the configuration, and its texts have their lengths.
    ensures within { IfOk result (λ call. IfSome call (IsTimed config.now)) }
{
    timed_call(alloc, config, reserves, line)
}
