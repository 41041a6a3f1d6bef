//! Whether a configuration, or its first functions alone, have each of the faults that there are.

ghost use Rattle.std.specs.Prelude.{◌≡◌, ◌||◌, ◌++◌, not, nat_eq, nat_lt, length, bytes_eq, map, true};
ghost use Rattle.std.specs.Bool.{MatchBool};
ghost use Rattle.std.specs.List.{list_any};
ghost use Rattle.arn_ids.specs.Words.{is_label as is_label_text};
ghost use Rattle.arn_ids.specs.Faults as faults;

use crate::part::Part;
use crate::words::{is_account, is_label, is_name, is_region};
use crate::{Function, MOST_ENVIRONMENTS, MOST_EXTENSIONS, Slot, Text};

const MOST_FUNCTIONS: usize = 64;

const HIGHEST_ACCOUNT_LIMIT: u32 = 1_000_000;

const LONGEST_TIMEOUT_S: u32 = 900;

#[tactic(auto, unfolding(crate::specs::Faults::has_bad_account))]
pub(crate) fn has_bad_account(config: &Part<'_>) -> bool
    ensures { result ≡ faults.has_bad_account config.now }
{
    !is_account(config.home.account.as_str())
}

#[tactic(auto, unfolding(crate::specs::Faults::has_bad_region))]
pub(crate) fn has_bad_region(config: &Part<'_>) -> bool
    ensures { result ≡ faults.has_bad_region config.now }
{
    !is_region(config.home.region.as_str())
}

#[tactic(auto, unfolding(crate::specs::Faults::has_bad_account_limit))]
pub(crate) fn has_bad_account_limit(config: &Part<'_>) -> bool
    ensures { result ≡ faults.has_bad_account_limit config.now }
{
    !(1 <= config.account_limit && config.account_limit <= HIGHEST_ACCOUNT_LIMIT)
}

#[tactic(auto, unfolding(crate::specs::Faults::has_bad_least_remainder))]
pub(crate) fn has_bad_least_remainder(config: &Part<'_>) -> bool
    ensures { result ≡ faults.has_bad_least_remainder config.now }
{
    config.account_limit < config.least_remainder
}

#[tactic(auto, unfolding(crate::specs::Faults::has_too_many_functions))]
pub(crate) fn has_too_many_functions(config: &Part<'_>) -> bool
    ensures { result ≡ faults.has_too_many_functions config.now }
{
    MOST_FUNCTIONS < config.functions().len()
}

#[tactic(auto, unfolding(crate::specs::Faults::has_bad_name))]
pub(crate) fn has_bad_name(config: &Part<'_>) -> bool
    ensures { result ≡ faults.has_bad_name config.now }
{
    let functions = config.functions();
    functions
        .iter()
        .any(|function| !is_name(function.name.as_str()))
}

#[tactic(auto, unfolding(crate::specs::Faults::has_duplicate_name))]
pub(crate) fn has_duplicate_name(config: &Part<'_>) -> bool
    ensures { result ≡ faults.has_duplicate_name config.now }
{
    let functions = config.functions();
    for (i, function) in functions.iter().enumerate() {
        if has_function_named(&functions[i + 1..], function.name.as_str()) {
            return true;
        }
    }
    false
}

fn has_function_named(functions: &[Function], name: &str) -> bool
    ensures { result ≡ list_any (λ function. bytes_eq name.now function.name) functions.now }
{
    functions
        .iter()
        .any(|function| name == function.name.as_str())
}

#[tactic(auto, unfolding(crate::specs::Faults::has_bad_handler))]
pub(crate) fn has_bad_handler(config: &Part<'_>) -> bool
    ensures { result ≡ faults.has_bad_handler config.now }
{
    let functions = config.functions();
    functions
        .iter()
        .any(|function| !is_label(function.handler.as_str()))
}

fn has_bad_timeout_s(function: &Function) -> bool
    ensures { result ≡ not (faults.is_between 1 900 function.now.timeout_s) }
{
    !(1 <= function.timeout_s && function.timeout_s <= LONGEST_TIMEOUT_S)
}

#[tactic(auto, unfolding(crate::specs::Faults::has_bad_timeout))]
pub(crate) fn has_bad_timeout(config: &Part<'_>) -> bool
    ensures { result ≡ faults.has_bad_timeout config.now }
{
    config.functions().iter().any(has_bad_timeout_s)
}

#[tactic(auto, unfolding(crate::specs::Faults::has_function_without_environment))]
pub(crate) fn has_function_without_environment(config: &Part<'_>) -> bool
    ensures { result ≡ faults.has_function_without_environment config.now }
{
    let functions = config.functions();
    functions
        .iter()
        .any(|function| function.slots.as_slice().len() == 0)
}

#[tactic(auto, unfolding(crate::specs::Faults::has_too_many_environments))]
pub(crate) fn has_too_many_environments(config: &Part<'_>) -> bool
    ensures { result ≡ faults.has_too_many_environments config.now }
{
    let mut left = MOST_ENVIRONMENTS;
    for function in config.functions() {
        let slots = function.slots.as_slice().len();
        if left < slots {
            return true;
        }
        left -= slots;
    }
    false
}

fn has_slot_on(slots: &[Slot], port: u16) -> bool
    ensures { result ≡ list_any (λ slot. nat_eq port slot.port) slots.now }
{
    slots.iter().any(|slot| port == slot.port)
}

/// Whether an environment has this port.
fn has_environment_on(functions: &[Function], port: u16) -> bool
    ensures { result ≡ list_any (λ function. list_any (λ slot. nat_eq port slot.port) function.slots) functions.now }
{
    functions
        .iter()
        .any(|function| has_slot_on(function.slots.as_slice(), port))
}

#[tactic(auto, unfolding(crate::specs::Faults::has_bad_port))]
pub(crate) fn has_bad_port(config: &Part<'_>) -> bool
    ensures { result ≡ faults.has_bad_port config.now }
{
    config.invoke_port() == 0 || has_environment_on(config.functions(), 0)
}

/// Whether one of these slots, or an environment of these functions, has this port.
fn is_taken(port: u16, slots: &[Slot], later: &[Function]) -> bool
    ensures { result ≡ (list_any (nat_eq port) (map faults.port_of slots.now)
        || list_any (nat_eq port) (faults.environment_ports later.now)) }
{
    has_slot_on(slots, port) || has_environment_on(later, port)
}

/// Whether a port of one function is repeated, in that function or in a later one.
fn has_port_again(slots: &[Slot], later: &[Function]) -> bool
    ensures { let again = faults.repeats nat_eq (map faults.port_of slots.now ++ faults.environment_ports later.now)
        in MatchBool result (again ≡ true)
        (again ≡ faults.repeats nat_eq (faults.environment_ports later.now)) }
{
    for (i, slot) in slots.iter().enumerate() {
        if is_taken(slot.port, &slots[i + 1..], later) {
            return true;
        }
    }
    false
}

#[tactic(auto, unfolding(crate::specs::Faults::has_duplicate_port))]
pub(crate) fn has_duplicate_port(config: &Part<'_>) -> bool
    ensures { result ≡ faults.has_duplicate_port config.now }
{
    let functions = config.functions();
    if has_environment_on(functions, config.invoke_port()) {
        return true;
    }
    for (i, function) in functions.iter().enumerate() {
        if has_port_again(function.slots.as_slice(), &functions[i + 1..]) {
            return true;
        }
    }
    false
}

#[tactic(auto, unfolding(crate::specs::Faults::has_too_many_extensions))]
pub(crate) fn has_too_many_extensions(config: &Part<'_>) -> bool
    ensures { result ≡ faults.has_too_many_extensions config.now }
{
    let functions = config.functions();
    functions.iter().any(|function| MOST_EXTENSIONS < function.extensions.as_slice().len())
}

fn has_bad_label(names: &[Text]) -> bool
    ensures { result ≡ list_any (λ name. not (is_label_text name)) names.now }
{
    names.iter().any(|name| !is_label(name.as_str()))
}

#[tactic(auto, unfolding(crate::specs::Faults::has_bad_extension))]
pub(crate) fn has_bad_extension(config: &Part<'_>) -> bool
    ensures { result ≡ faults.has_bad_extension config.now }
{
    let functions = config.functions();
    functions
        .iter()
        .any(|function| has_bad_label(function.extensions.as_slice()))
}

fn has_name(names: &[Text], wanted: &str) -> bool
    ensures { result ≡ list_any (bytes_eq wanted.now) names.now }
{
    names.iter().any(|name| wanted == name.as_str())
}

fn repeats_name(names: &[Text]) -> bool
    ensures { result ≡ faults.repeats bytes_eq names.now }
{
    for (i, name) in names.iter().enumerate() {
        if has_name(&names[i + 1..], name.as_str()) {
            return true;
        }
    }
    false
}

#[tactic(auto, unfolding(crate::specs::Faults::has_duplicate_extension))]
pub(crate) fn has_duplicate_extension(config: &Part<'_>) -> bool
    ensures { result ≡ faults.has_duplicate_extension config.now }
{
    let functions = config.functions();
    functions
        .iter()
        .any(|function| repeats_name(function.extensions.as_slice()))
}

fn reserves_too_many(function: &Function) -> bool
    ensures { result ≡ nat_lt (length function.now.slots) (faults.reservation_of function.now) }
{
    let reserved = function.reserved.unwrap_or(0);
    function.slots.as_slice().len() < reserved as usize
}

#[tactic(auto, unfolding(crate::specs::Faults::has_reservation_above_environments))]
pub(crate) fn has_reservation_above_environments(config: &Part<'_>) -> bool
    ensures { result ≡ faults.has_reservation_above_environments config.now }
{
    config.functions().iter().any(reserves_too_many)
}

#[tactic(auto, unfolding(crate::specs::Faults::has_too_small_remainder))]
pub(crate) fn has_too_small_remainder(config: &Part<'_>) -> bool
    ensures { result ≡ faults.has_too_small_remainder config.now }
{
    if config.account_limit < config.least_remainder {
        return true;
    }
    let mut left = config.account_limit - config.least_remainder;
    for function in config.functions() {
        let reserved = function.reserved.unwrap_or(0);
        if left < reserved {
            return true;
        }
        left -= reserved;
    }
    false
}
