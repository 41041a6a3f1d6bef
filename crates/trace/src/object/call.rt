//! The object of a call.

ghost use Rattle.std.specs.Prelude.{◌∷◌, [], codes};
ghost use Rattle.trace.specs.CallObject.{call_object, report};
ghost use Rattle.trace.specs.CallObject as spec;
ghost use Rattle.trace.specs.Members.{object, body_member, flag_member, number_member, text_member, number_if};
ghost use Rattle.trace.specs.Telling.{Tells};

use crate::draft::{Part, Teller, widened};
use arn_ids::{Checked, EnvNo, Text};
use bytes::Bytes;
use call_model::{Call, function_name};

/// Tells the header X-Amzn-Trace-Id that came with an Invoke, if one came.
fn say_trace_if(teller: &mut Teller, trace: &Option<Text>)
    ensures { Tells (spec.trace_if trace.now) teller.old teller.new }
{
    if let Some(trace) = trace {
        teller.say_text("trace", trace.as_str());
    }
}

fn say_invoke(
    teller: &mut Teller,
    name: &str,
    qualified: bool,
    trace: &Option<Text>,
    bodies: bool,
    body: &Bytes,
)
    ensures { Tells (object (body_member bodies body.now ∷ text_member (codes "function") name.now
        ∷ spec.kind (codes "invoke") ∷ flag_member (codes "qualified") qualified ∷ spec.trace_if trace.now ∷ []))
        teller.old teller.new }
{
    teller.say_all(&[Part::Open]);
    teller.say_body(bodies, Some(body));
    teller.say_text("function", name);
    teller.say_all(&[
        Part::Key("kind"),
        Part::Word("invoke"),
        Part::Key("qualified"),
        Part::Flag(qualified),
    ]);
    say_trace_if(teller, trace);
    teller.say_all(&[Part::Close]);
}

fn say_report(
    teller: &mut Teller,
    bodies: bool,
    word: &'static str,
    named: &'static str,
    env: EnvNo,
    count: u64,
    body: &Bytes,
)
    ensures { Tells (report bodies word.now named.now env count body.now) teller.old teller.new }
{
    teller.say_around(
        &[Part::Open],
        bodies,
        Some(body),
        &[
            Part::Key("environment"),
            Part::Number(u64::from(env)),
            Part::Key(named),
            Part::Number(count),
            Part::Key("kind"),
            Part::Word(word),
            Part::Close,
        ],
    )
}

fn say_init_failure(teller: &mut Teller, bodies: bool, env: EnvNo, body: &Bytes)
    ensures { Tells (object (body_member bodies body.now ∷ spec.environment env
        ∷ spec.kind (codes "init-failure") ∷ [])) teller.old teller.new }
{
    teller.say_around(
        &[Part::Open],
        bodies,
        Some(body),
        &[
            Part::Key("environment"),
            Part::Number(u64::from(env)),
            Part::Key("kind"),
            Part::Word("init-failure"),
            Part::Close,
        ],
    )
}

/// Tells a call that has no more than its kind.
fn say_kind(teller: &mut Teller, word: &'static str)
    ensures { Tells (object (spec.kind word.now ∷ [])) teller.old teller.new }
{
    teller.say_all(&[Part::Open, Part::Key("kind"), Part::Word(word), Part::Close]);
}

/// Tells a call that names an environment alone.
fn say_environment(teller: &mut Teller, word: &'static str, env: EnvNo)
    ensures { Tells (object (spec.environment env ∷ spec.kind word.now ∷ [])) teller.old teller.new }
{
    teller.say_all(&[
        Part::Open,
        Part::Key("environment"),
        Part::Number(u64::from(env)),
        Part::Key("kind"),
        Part::Word(word),
        Part::Close,
    ]);
}

/// Tells a call that names an environment, and an invocation or an extension there.
fn say_counted(teller: &mut Teller, word: &'static str, named: &'static str, env: EnvNo, count: u64)
    ensures { Tells (object (spec.environment env ∷ number_member named.now count ∷ spec.kind word.now ∷ []))
        teller.old teller.new }
{
    teller.say_all(&[
        Part::Open,
        Part::Key("environment"),
        Part::Number(u64::from(env)),
        Part::Key(named),
        Part::Number(count),
        Part::Key("kind"),
        Part::Word(word),
        Part::Close,
    ]);
}

fn say_register(
    teller: &mut Teller,
    env: EnvNo,
    name: &Text,
    invoke: bool,
    shutdown: bool,
    account: bool,
)
    ensures { Tells (object (flag_member (codes "account") account ∷ spec.environment env
        ∷ flag_member (codes "invoke") invoke ∷ spec.kind (codes "register")
        ∷ text_member (codes "name") name.now ∷ flag_member (codes "shutdown") shutdown ∷ []))
        teller.old teller.new }
{
    teller.say_all(&[
        Part::Open,
        Part::Key("account"),
        Part::Flag(account),
        Part::Key("environment"),
        Part::Number(u64::from(env)),
        Part::Key("invoke"),
        Part::Flag(invoke),
        Part::Key("kind"),
        Part::Word("register"),
    ]);
    teller.say_text("name", name.as_str());
    teller.say_all(&[Part::Key("shutdown"), Part::Flag(shutdown), Part::Close]);
}

fn say_withdraw(teller: &mut Teller, ticket: u64)
    ensures { Tells (object (spec.kind (codes "withdraw") ∷ number_member (codes "ticket") ticket ∷ []))
        teller.old teller.new }
{
    teller.say_all(&[
        Part::Open,
        Part::Key("kind"),
        Part::Word("withdraw"),
        Part::Key("ticket"),
        Part::Number(ticket),
        Part::Close,
    ]);
}

fn say_reserve(teller: &mut Teller, name: &str, count: Option<u32>)
    ensures { Tells (object (number_if (codes "count") count ∷ text_member (codes "function") name.now
        ∷ spec.kind (codes "reserve") ∷ [])) teller.old teller.new }
{
    teller.say_all(&[Part::Open]);
    teller.say_number_if("count", widened(count));
    teller.say_text("function", name);
    teller.say_all(&[Part::Key("kind"), Part::Word("reserve"), Part::Close]);
}

/// Tells the object of a call.
#[tactic(auto, unfolding(crate::specs::CallObject::call_object))]
pub(crate) fn say_call(teller: &mut Teller, config: &Checked, bodies: bool, call: &Call)
    ensures { Tells (call_object bodies config.now call.now) teller.old teller.new }
{
    match call {
        Call::Invoke {
            function,
            qualified,
            trace,
            body,
        } => {
            let name = function_name(config, *function);
            say_invoke(teller, name, *qualified, trace, bodies, body)
        }
        Call::RuntimeNext { env } => say_environment(teller, "next", *env),
        Call::Response { env, id, body } => {
            say_report(teller, bodies, "response", "id", *env, *id, body)
        }
        Call::ResponseTooLarge { env, id } => {
            say_counted(teller, "response-too-large", "id", *env, *id)
        }
        Call::Failure { env, id, body } => {
            say_report(teller, bodies, "failure", "id", *env, *id, body)
        }
        Call::InitFailure { env, body } => say_init_failure(teller, bodies, *env, body),
        Call::Register {
            env,
            name,
            invoke,
            shutdown,
            account,
        } => say_register(teller, *env, name, *invoke, *shutdown, *account),
        Call::ExtNext { env, ext } => say_counted(teller, "ext-next", "extension", *env, *ext),
        Call::ExtInitFailure { env, ext, body } => say_report(
            teller,
            bodies,
            "ext-init-failure",
            "extension",
            *env,
            *ext,
            body,
        ),
        Call::ExtExitFailure { env, ext, body } => say_report(
            teller,
            bodies,
            "ext-exit-failure",
            "extension",
            *env,
            *ext,
            body,
        ),
        Call::Tick => say_kind(teller, "tick"),
        Call::Withdraw { ticket } => say_withdraw(teller, *ticket),
        Call::Spindown { env } => say_environment(teller, "spindown", *env),
        Call::Stop => say_kind(teller, "stop"),
        Call::Expire { env } => say_environment(teller, "expire", *env),
        Call::Reserve { function, count } => say_reserve(
            teller,
            function_name(config, *function),
            *count,
        ),
    }
}
