//! The line of an object, as a text that shares the object's bodies.

ghost use Rattle.std.specs.Prelude.{◌≡◌, ℕ, true, List, [], ◌∷◌, ◌++◌, map, IfOk, OnOk};
ghost use Rattle.std.specs.List.{flat_map};
ghost use Rattle.json.specs.Print.{escape, ends_value, print, print_from};
ghost use Rattle.json.specs.Token.{key, string};
ghost use Rattle.script.specs.Drafts.{coded};
ghost use Rattle.trace.specs.Members.{body_member, text_member};
ghost use Rattle.trace.specs.Telling.{part_token, primed, quotes, run_tokens, tokens_of};

use crate::draft::{Inset, Part, Run, write_parts};
use bytes::Bytes;
use json::Writer;
use script::{Coding, Draft as Text};
use std::alloc::{AllocError, Global};
use std::str;

/// Returns a writer of what comes at the beginning, or behind a value, in whose place it has written an empty string.
fn begun(alloc: Global, after: bool) -> Result<Writer, AllocError>
    ensures { IfOk result (λ writer. (writer.before ≡ []) × (writer.tokens ≡ primed after [])) }
{
    let mut writer = Writer::new(Vec::new(alloc));
    if after {
        writer.string("")?;
    }
    Ok(writer)
}

/// Returns what stands behind the quotes of the empty string.
fn behind(written: &[u8], after: bool) -> &[u8]
    ensures { (rest : List ℕ) → written.now ≡ quotes after ++ rest → result.now ≡ rest }
{
    match written {
        [_, _, rest @ ..] if after => rest,
        _ => written,
    }
}

/// Adds what was written to a text.
fn push_written(text: &mut Text, after: bool, writer: Writer) -> Result<(), AllocError>
    requires { writer.before ≡ [] }
    ensures { (rest : List ℕ) → print writer.tokens ≡ quotes after ++ rest → OnOk result (text.new ≡ text.old ++ rest) }
{
    let written = writer.into_inner();
    text.push(behind(&written, after))
}

/// Returns the name of a body's member, and how the body stands there.
#[tactic(auto, unfolding(crate::specs::Members::body_member))]
fn form_of(body: &[u8]) -> (&'static str, Coding)
    ensures { (content : List ℕ) × (body_member true body.now ≡ text_member result.0.now content)
        × (coded result.1 body.now ≡ escape content) }
{
    match str::from_utf8(body) {
        Ok(_) => ("body", Coding::Json),
        Err(_) => ("bodyBase64", Coding::Base64),
    }
}

/// Adds parts at the beginning, or behind a value.
fn push_parts(alloc: Global, text: &mut Text, after: bool, parts: &[Part]) -> Result<(), AllocError>
    ensures { OnOk result (text.new ≡ text.old ++ print_from after (map part_token parts.now)) }
{
    let mut writer = begun(alloc, after)?;
    write_parts(&mut writer, parts)?;
    push_written(text, after, writer)
}

/// Adds parts and a text behind them.
fn push_copied(
    alloc: Global,
    text: &mut Text,
    after: bool,
    parts: &[Part],
    copied: &str,
) -> Result<(), AllocError>
    ensures { OnOk result (text.new ≡ text.old ++ print_from after (map part_token parts.now ++ string copied.now ∷ [])) }
{
    let mut writer = begun(alloc, after)?;
    write_parts(&mut writer, parts)?;
    writer.string(copied)?;
    push_written(text, after, writer)
}

/// Adds parts and the name of a member behind them.
fn push_named(
    alloc: Global,
    text: &mut Text,
    after: bool,
    parts: &[Part],
    name: &str,
) -> Result<(), AllocError>
    ensures { OnOk result (text.new ≡ text.old ++ print_from after (map part_token parts.now ++ key name.now ∷ [])) }
{
    let mut writer = begun(alloc, after)?;
    write_parts(&mut writer, parts)?;
    writer.key(name)?;
    push_written(text, after, writer)
}

/// Adds parts and the member with a body behind them, and shares the body.
fn push_body(
    alloc: Global,
    text: &mut Text,
    after: bool,
    parts: &[Part],
    body: &Bytes,
) -> Result<(), AllocError>
    ensures { OnOk result (text.new ≡ text.old ++ print_from after (map part_token parts.now ++ body_member true body.now)) }
{
    let (name, coding) = form_of(body.as_slice());
    push_named(alloc, text, after, parts, name)?;
    text.push(b"\"")?;
    text.share(coding, body)?;
    text.push(b"\"")
}

/// Adds a run at the beginning, or behind a value.
fn push_run(alloc: Global, text: &mut Text, after: bool, run: &Run) -> Result<(), AllocError>
    ensures { OnOk result (text.new ≡ text.old ++ print_from after (run_tokens run.now)) }
{
    match &run.inset {
        Inset::Copied(copied) => push_copied(alloc, text, after, &run.parts, copied.as_str()),
        Inset::Body(body) => push_body(alloc, text, after, &run.parts, body),
    }
}

/// Adds runs from the beginning on. Returns whether what comes behind them is behind a value.
fn push_runs(alloc: Global, text: &mut Text, runs: &[Run]) -> Result<bool, AllocError>
    ensures { IfOk result (λ after. (text.new ≡ text.old ++ print (flat_map run_tokens runs.now))
        × (after ≡ ends_value (flat_map run_tokens runs.now))) }
{
    let mut after = false;
    for run in runs {
        push_run(alloc, text, after, run)?;
        after = true;
    }
    Ok(after)
}

/// Returns the line of the object that has these runs, and these parts behind them.
pub(crate) fn line_of(alloc: Global, runs: &[Run], parts: &[Part]) -> Result<Text, AllocError>
    ensures { IfOk result (λ text. text ≡ print (tokens_of runs.now parts.now) ++ 10 ∷ []) }
{
    let mut text = Text::new(alloc);
    let after = push_runs(alloc, &mut text, runs)?;
    push_parts(alloc, &mut text, after, parts)?;
    text.push(b"\n")?;
    Ok(text)
}
