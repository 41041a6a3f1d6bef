//! What a configuration and its salt give for any number: a function and an identifier, if there is one.

ghost use Rattle.std.specs.Prelude.{◌≡◌, MatchOption, None};
ghost use Rattle.arn_ids.specs.Environments.{function_at, no_function};
ghost use Rattle.arn_ids.specs.Faults.{first_fault};
ghost use Rattle.arn_ids.specs.Identifiers.{id_word};
ghost use Rattle.call_model.specs.Identifiers.{id_text};

use arn_ids::{
    Checked, FnNo, Function, GREATEST_COUNT, IdKind, event_id, extension_id, request_id,
};
use uuid::Uuid;

/// The greatest number in an identifier.
const GREATEST_NUMBER: u32 = (1 << 12) - 1;

/// Returns an identifier, or `None` if none can have this number or count.
#[tactic(auto, unfolding(arn_ids::specs::Identifiers::id_word))]
pub fn identifier(salt: u64, kind: IdKind, number: u32, count: u64) -> Option<Uuid>
    ensures { id_text result ≡ id_word salt kind number count }
{
    if number > GREATEST_NUMBER {
        return None;
    }
    if count > GREATEST_COUNT {
        return None;
    }
    Some(match kind {
        IdKind::Request => request_id(salt, number, count),
        IdKind::Extension => extension_id(salt, number, count),
        IdKind::Event => event_id(salt, number, count),
    })
}

/// Returns the function with a number, or `None` if there is none.
#[tactic(auto, using(crate::proofs::NoFunction::beyond))]
pub fn function_in(config: &Checked, number: FnNo) -> Option<&Function>
    ensures there { MatchOption result (function_at config.now number ≡ no_function)
        (λ f. f.now ≡ function_at config.now number) }
    ensures sound { first_fault config.now ≡ None }
{
    let functions = config.functions();
    if number == 0 {
        return None;
    }
    if number as usize > functions.len() {
        return None;
    }
    Some(config.function(number))
}

/// Returns the name of the function with a number, or an empty one if there is none.
pub fn function_name(config: &Checked, number: FnNo) -> &str
    ensures value { result.now ≡ (function_at config.now number).name }
    ensures sound { first_fault config.now ≡ None }
{
    match function_in(config, number) {
        Some(function) => function.name.as_str(),
        None => "",
    }
}
