//! The writer of a call's line in a history.

ghost use Rattle.std.specs.Prelude.{◌≡◌, [], ◌∷◌, decimal, codes};
ghost use Rattle.script.specs.CallText.{before_moment, call_words, call_text, flag, or_dash, events, reservation};
ghost use Rattle.script.specs.TextFields.{text_field};
ghost use Rattle.script.specs.Writing.{Adds, spaced, word_text};

use crate::sink::Sink;
use crate::words::{Word, push_name, push_named, push_word, push_words};
use arn_ids::{Checked, EnvNo, Text};
use bytes::Bytes;
use call_model::{Call, function_name};
use std::alloc::AllocError;

fn flag_word(word: &'static str, set: bool) -> Word<'static>
    ensures { word_text result ≡ flag word.now set }
{
    Word::Plain(if set { word } else { "-" })
}

fn trace_word(trace: &Option<Text>) -> Word<'_>
    ensures { word_text result ≡ or_dash text_field trace.now }
{
    match trace {
        None => Word::Plain("-"),
        Some(text) => Word::Text(text.as_str().as_bytes()),
    }
}

fn events_word(invoke: bool, shutdown: bool) -> Word<'static>
    ensures { word_text result ≡ events invoke shutdown }
{
    match (invoke, shutdown) {
        (true, true) => Word::Plain("is"),
        (true, false) => Word::Plain("i"),
        (false, true) => Word::Plain("s"),
        (false, false) => Word::Plain("-"),
    }
}

fn reservation_word(count: Option<u32>) -> Word<'static>
    ensures { word_text result ≡ reservation count }
{
    match count {
        None => Word::Plain("-"),
        Some(count) => Word::Number(u64::from(count)),
    }
}

fn env_word(env: EnvNo) -> Word<'static>
    ensures { word_text result ≡ decimal env }
{
    Word::Number(u64::from(env))
}

fn push_env<W: Sink>(out: &mut W, word: &str, env: EnvNo) -> Result<(), AllocError>
    ensures { Adds result (spaced (word.now ∷ decimal env ∷ [])) (W.text out.old) (W.text out.new) }
{
    push_named(out, word, &env_word(env))
}

fn push_count<W: Sink>(out: &mut W, word: &str, env: EnvNo, count: u64) -> Result<(), AllocError>
    ensures { Adds result (spaced (word.now ∷ decimal env ∷ decimal count ∷ [])) (W.text out.old) (W.text out.new) }
{
    push_words(
        out,
        &[Word::Plain(word), env_word(env), Word::Number(count)],
    )
}

fn push_report<'a, W: Sink>(
    out: &mut W,
    word: &'a str,
    env: EnvNo,
    count: u64,
    body: &'a Bytes,
) -> Result<(), AllocError>
    ensures { Adds result (spaced (word.now ∷ decimal env ∷ decimal count ∷ text_field body.now ∷ []))
        (W.text out.old) (W.text out.new) }
{
    push_words(
        out,
        &[
            Word::Plain(word),
            env_word(env),
            Word::Number(count),
            Word::Body(body),
        ],
    )
}

fn push_init_failure<W: Sink>(out: &mut W, env: EnvNo, body: &Bytes) -> Result<(), AllocError>
    ensures { Adds result (spaced (codes "init-failure" ∷ decimal env ∷ text_field body.now ∷ []))
        (W.text out.old) (W.text out.new) }
{
    let words = [Word::Plain("init-failure"), env_word(env), Word::Body(body)];
    push_words(out, &words)
}

fn push_invoke<'a, W: Sink>(
    out: &mut W,
    name: &'a str,
    qualified: bool,
    trace: &'a Option<Text>,
    body: &'a Bytes,
) -> Result<(), AllocError>
    ensures { Adds result (spaced (codes "invoke" ∷ name.now ∷ flag (codes "q") qualified
        ∷ or_dash text_field trace.now ∷ text_field body.now ∷ [])) (W.text out.old) (W.text out.new) }
{
    let words = [
        Word::Plain("invoke"),
        Word::Plain(name),
        flag_word("q", qualified),
        trace_word(trace),
        Word::Body(body),
    ];
    push_words(out, &words)
}

fn push_register<W: Sink>(
    out: &mut W,
    env: EnvNo,
    name: &Text,
    invoke: bool,
    shutdown: bool,
    account: bool,
) -> Result<(), AllocError>
    ensures { Adds result (spaced (codes "register" ∷ decimal env ∷ text_field name.now ∷ events invoke shutdown
        ∷ flag (codes "a") account ∷ [])) (W.text out.old) (W.text out.new) }
{
    let words = [
        Word::Plain("register"),
        env_word(env),
        Word::Text(name.as_str().as_bytes()),
        events_word(invoke, shutdown),
        flag_word("a", account),
    ];
    push_words(out, &words)
}

fn push_reserve<W: Sink>(out: &mut W, name: &str, count: Option<u32>) -> Result<(), AllocError>
    ensures { Adds result (spaced (codes "reserve" ∷ name.now ∷ reservation count ∷ []))
        (W.text out.old) (W.text out.new) }
{
    let words = [
        Word::Plain("reserve"),
        Word::Plain(name),
        reservation_word(count),
    ];
    push_words(out, &words)
}

/// Adds the words of a call, each after a space.
#[tactic(auto, unfolding(crate::specs::CallText::call_words))]
fn push_call_words<W: Sink>(out: &mut W, config: &Checked, call: &Call) -> Result<(), AllocError>
    ensures { Adds result (spaced (call_words config.now call.now)) (W.text out.old) (W.text out.new) }
{
    match call {
        Call::Invoke {
            function,
            qualified,
            trace,
            body,
        } => {
            push_invoke(
                out,
                function_name(config, *function),
                *qualified,
                trace,
                body,
            )
        }
        Call::RuntimeNext { env } => push_env(out, "next", *env),
        Call::Response { env, id, body } => push_report(out, "response", *env, *id, body),
        Call::ResponseTooLarge { env, id } => push_count(out, "response-too-large", *env, *id),
        Call::Failure { env, id, body } => push_report(out, "failure", *env, *id, body),
        Call::InitFailure { env, body } => push_init_failure(out, *env, body),
        Call::Register {
            env,
            name,
            invoke,
            shutdown,
            account,
        } => { push_register(out, *env, name, *invoke, *shutdown, *account) }
        Call::ExtNext { env, ext } => push_count(out, "ext-next", *env, *ext),
        Call::ExtInitFailure { env, ext, body } => push_report(
            out,
            "ext-init-failure",
            *env,
            *ext,
            body,
        ),
        Call::ExtExitFailure { env, ext, body } => push_report(
            out,
            "ext-exit-failure",
            *env,
            *ext,
            body,
        ),
        Call::Tick => push_name(out, "tick"),
        Call::Withdraw { ticket } => push_named(out, "withdraw", &Word::Number(*ticket)),
        Call::Spindown { env } => push_env(out, "spindown", *env),
        Call::Stop => push_name(out, "stop"),
        Call::Expire { env } => push_env(out, "expire", *env),
        Call::Reserve { function, count } => {
            push_reserve(out, function_name(config, *function), *count)
        }
    }
}

fn mark(call: &Call) -> &'static str
    ensures { result.now ≡ before_moment call.now }
{
    match call {
        Call::Expire { .. } => "## ",
        _ => "",
    }
}

/// Adds the line of a call at a moment, without its ending.
pub(crate) fn push_call<W: Sink>(
    out: &mut W,
    config: &Checked,
    moment: u64,
    call: &Call,
) -> Result<(), AllocError>
    ensures { Adds result (call_text config.now moment call.now) (W.text out.old) (W.text out.new) }
{
    push_word(out, &Word::Plain(mark(call)))?;
    push_word(out, &Word::Number(moment))?;
    push_call_words(out, config, call)
}
