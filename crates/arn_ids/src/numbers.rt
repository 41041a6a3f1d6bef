//! Decimal numbers in texts.

ghost use Rattle.std.specs.Prelude.{◌≡◌, ◌≤◌, IfSome};
ghost use Rattle.arn_ids.specs.Numbers.{number_in, digits_in, env_in};

use crate::{Checked, EnvNo};

/// Reads a decimal number from 0 to `most`, without leading zeros.
pub fn read_number(text: &[u8], most: u64) -> Option<u64>
    ensures value { result ≡ number_in most text.now }
    ensures within { IfSome result (λ n. n ≤ most) }
{
    match text {
        [] => None,
        [b'0', _, ..] => None,
        _ => digits(text, most),
    }
}

/// Reads a decimal number from 0 to `most`, without leading zeros, for a `most` below 2^32.
pub fn read_number_u32(text: &[u8], most: u32) -> Option<u32>
    ensures { result ≡ number_in most text.now }
{
    let number = read_number(text, u64::from(most))?;
    Some(number as u32)
}

fn digits(text: &[u8], most: u64) -> Option<u64>
    ensures value { result ≡ digits_in most 0 text.now }
    ensures within { IfSome result (λ n. n ≤ most) }
{
    let mut number = 0u64;
    let mut rest = text;
    while let Some((first, others)) = rest.split_first() {
        if !first.is_ascii_digit() {
            return None;
        }
        let next = 10 * u128::from(number) + u128::from(*first - b'0');
        if next > u128::from(most) {
            return None;
        }
        number = next as u64;
        rest = others;
    }
    Some(number)
}

/// Reads the number of an environment: decimal, from 1 to the number of environments, without
/// leading zeros.
pub fn read_environment(config: &Checked, text: &[u8]) -> Option<EnvNo>
    ensures { result ≡ env_in config.now text.now }
{
    let env = read_number_u32(text, config.environments())?;
    if env == 0 { None } else { Some(env) }
}
