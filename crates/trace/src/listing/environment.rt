//! The object of an environment in its present state.

ghost use Rattle.std.specs.Prelude.{◌≡◌, ◌≤◌, length};
ghost use Rattle.std.specs.List.{flat_map};
ghost use Rattle.arn_ids.specs.Environments.{function_at, function_of, owners};
ghost use Rattle.trace.specs.EnvironmentObject as spec;
ghost use Rattle.trace.specs.EnvironmentObject.{environment_object, extension_object, text_if};
ghost use Rattle.trace.specs.Telling.{Tells};

use crate::draft::{Part, Teller};
use crate::object::{bound_of, phase_word, say_reason_if, served_by};
use arn_ids::{Checked, EnvNo, IdKind};
use call_model::identifier;
use env_phase::Environment;
use extension_set::Member;

/// Tells a word in a list, if it is asked for.
fn say_text_if(teller: &mut Teller, asked: bool, text: &'static str)
    ensures { Tells (text_if asked text.now) teller.old teller.new }
{
    if asked {
        teller.say_all(&[Part::Word(text)]);
    }
}

/// Tells the events for which an extension registered.
fn say_events(teller: &mut Teller, extension: &Member)
    ensures { Tells (spec.events extension.now.extension) teller.old teller.new }
{
    say_text_if(teller, extension.hears_invoke(), "INVOKE");
    say_text_if(teller, extension.hears_shutdown(), "SHUTDOWN");
}

/// Tells the object of an extension that is registered at an environment.
#[tactic(auto, unfolding(crate::specs::EnvironmentObject::extension_object))]
fn say_extension(teller: &mut Teller, salt: u64, env: EnvNo, extension: &Member)
    ensures { Tells (extension_object salt env extension.now) teller.old teller.new }
{
    teller.say_all(&[Part::Open, Part::Key("events"), Part::OpenList]);
    say_events(teller, extension);
    teller.say_all(&[
        Part::CloseList,
        Part::Key("extension"),
        Part::Identifier(identifier(salt, IdKind::Extension, env, extension.count())),
    ]);
    teller.say_text("name", extension.name());
    teller.say_number_if("poll", extension.parked());
    teller.say_all(&[Part::Close]);
}

/// Tells the objects of extensions, one after the other.
fn say_extensions(teller: &mut Teller, salt: u64, env: EnvNo, extensions: &[Member])
    ensures { Tells (flat_map (extension_object salt env) extensions.now) teller.old teller.new }
{
    for extension in extensions {
        say_extension(teller, salt, env, extension);
    }
}

/// Returns the port of an environment.
fn port_at(config: &Checked, env: EnvNo) -> u16
    requires from_one { 1 ≤ env }
    ensures { result ≡ spec.port_at config.now env }
{
    let mut place = env as usize - 1;
    for function in config.functions() {
        let slots = function.slots.as_slice();
        if place < slots.len() {
            return slots[place].port;
        }
        place -= slots.len();
    }
    0
}

/// Returns the name of an environment's function.
fn name_at(config: &Checked, env: EnvNo) -> &str
    requires from_one { 1 ≤ env }
    requires there { env ≤ length (owners config.now) }
    ensures { result.now ≡ (function_at config.now (function_of config.now env)).name }
{
    config.function(config.function_of(env)).name.as_str()
}

/// Tells the object of an environment.
#[tactic(auto, unfolding(crate::specs::EnvironmentObject::environment_object))]
pub(crate) fn say_environment(
    teller: &mut Teller,
    config: &Checked,
    salt: u64,
    env: EnvNo,
    environment: &Environment,
)
    requires from_one { 1 ≤ env }
    requires there { env ≤ length (owners config.now) }
    ensures { Tells (environment_object config.now salt env environment.now.stand) teller.old teller.new }
{
    let phase = environment.phase();
    teller.say_all(&[Part::Open]);
    teller.say_number_if("bound", bound_of(phase));
    teller.say_number_if("deadline", environment.deadline());
    teller.say_all(&[
        Part::Key("environment"),
        Part::Number(u64::from(env)),
        Part::Key("extensions"),
        Part::OpenList,
    ]);
    say_extensions(teller, salt, env, environment.extensions().members());
    teller.say_all(&[Part::CloseList]);
    teller.say_text("function", name_at(config, env));
    teller.say_number_if("invoke", served_by(phase));
    teller.say_all(&[Part::Key("phase"), Part::Word(phase_word(phase))]);
    teller.say_number_if("poll", environment.runtime());
    teller.say_all(&[
        Part::Key("port"),
        Part::Number(u64::from(port_at(config, env))),
    ]);
    say_reason_if(teller, phase);
    teller.say_all(&[Part::Close]);
}
