//! Laws of names: functions with no work in them, whose contracts are proved.

ghost use Rattle.std.specs.Prelude.{◌≡◌, ◌≤◌, length, Ok, Some};
ghost use Rattle.arn_ids.specs.Environments.{function_at, number_named};
ghost use Rattle.arn_ids.specs.Grammar.{arn, named_in};

use crate::{Checked, FnNo};

/// The ARN of each function of a checked configuration names that function, with the qualifier
/// that was written.
pub fn arns_read_back(checked: &Checked, function: FnNo, qualified: bool)
    requires from_one { 1 ≤ function }
    requires there { function ≤ length checked.now.functions }
    ensures { let name = (function_at checked.now function).name
        in named_in checked.now.home (arn checked.now.home name qualified)
        ≡ Ok (record { name = name; qualified = qualified }) }
{
    let _functions = checked.functions();
}

/// Each function of a checked configuration is found by its name.
pub fn names_find_their_functions(checked: &Checked, function: FnNo)
    requires from_one { 1 ≤ function }
    requires there { function ≤ length checked.now.functions }
    ensures { number_named checked.now (function_at checked.now function).name ≡ Some function }
{
    let _functions = checked.functions();
}
