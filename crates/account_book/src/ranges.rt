//! The numbers of a configuration are in the ranges of their types.

ghost use Rattle.std.specs.Prelude.{All};
ghost use Rattle.lambda_wire.specs.Ranges.{IsSlotInRange, IsReservedInRange, IsFunctionInRange, IsConfigInRange};

use arn_ids::{Checked, Function, Slot};

/// A port has 16 bits.
fn port_fits(slot: Slot)
    ensures { IsSlotInRange slot }
{}

/// So have all ports of a list.
fn ports_fit(slots: &[Slot])
    ensures { All IsSlotInRange slots.now }
{
    for slot in slots {
        port_fits(*slot);
    }
}

/// A reservation has 32 bits.
fn reservation_fits(reserved: Option<u32>)
    ensures { IsReservedInRange reserved }
{
    if let Some(count) = reserved {
        let _count = count;
    }
}

/// The numbers of a function are in the ranges of their types, and so are its ports.
fn function_fits(function: &Function)
    ensures { IsFunctionInRange function.now }
{
    let _timeout = function.timeout_s;
    reservation_fits(function.reserved);
    ports_fit(function.slots.as_slice());
}

/// So are those of all functions.
fn functions_fit(functions: &[Function])
    ensures { All IsFunctionInRange functions.now }
{
    for function in functions {
        function_fits(function);
    }
}

/// The numbers of every configuration are in the ranges of their types.
pub fn config_fits(config: &Checked)
    ensures { IsConfigInRange config.now }
{
    functions_fit(config.functions());
    let _limit = config.account_limit();
    let _least = config.least_remainder();
    let _port = config.invoke_port();
}
