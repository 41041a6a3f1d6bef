//! Names of functions as texts: plain names, partial ARNs and ARNs (API reference of Invoke,
//! `FunctionName`).

ghost use Rattle.std.specs.Prelude.{◌≡◌, ◌∷◌, [], bytes_eq, string_bytes, IfOk, MatchOption, option_map, Some};
ghost use Rattle.arn_ids.specs.Grammar as grammar;
ghost use Rattle.arn_ids.specs.Views.{written, text_of};
ghost use Rattle.arn_ids.specs.declared.names.NameFault.TheVariants.{OutOfMemory};

use crate::words::{has_name_bytes, is_account, is_name, is_region, is_within};
use crate::{Home, Text};
use std::alloc::{AllocError, Global};
use thiserror::Error;

/// The one version that each function has.
const LATEST: &str = "$LATEST";

const LONGEST_QUALIFIER: usize = 128;

const LONGEST_FUNCTION_NAME: usize = 170;

/// The length of an ARN with the longest region, account, name and qualifier.
const LONGEST_ARN: usize = 142;

/// A function that a text names, whether it is configured or not.
#[derive(Debug, Drop)]
pub struct Named {
    /// 1 to 64 of ASCII letters, digits, `-` and `_`.
    pub name: Text,
    /// Whether `$LATEST` was written.
    pub qualified: bool,
}

/// Why a text doesn't name a function here: the first fault that holds, in the order of the variants.
#[derive(Clone, Copy, Debug, PartialEq, Eq, Error)]
pub enum NameFault {
    /// It doesn't have a form of a function's name, a part of it is malformed, or it has more than
    /// 170 bytes.
    #[error("the name is malformed")]
    Malformed,
    /// Its account or its region isn't the home's.
    #[error("the account or the region is another")]
    ForeignAccount,
    /// It has a well-formed qualifier that isn't `$LATEST`.
    #[error("the qualifier is unknown")]
    UnknownQualifier,
    /// It names a function, but there was no memory for the name.
    #[error("out of memory")]
    OutOfMemory,
}

impl From<AllocError> for NameFault {
    ghost from_gives = { λ _ e. e ≡ OutOfMemory };

    fn from(_e: AllocError) -> NameFault {
        NameFault::OutOfMemory
    }
}

/// The `FunctionName` of a request.
pub struct FunctionName;

impl FunctionName {
    /// Returns the function that a text of at most 170 bytes names at this home, in one of three
    /// forms: its name, `ACCOUNT:function:NAME`, or `arn:aws:lambda:REGION:ACCOUNT:function:NAME`.
    /// Each of them may end in `:QUALIFIER`; the one known qualifier is `$LATEST`.
    /// (Invoke: FunctionName)
    ///
    /// # Errors
    /// The first fault that holds; `OutOfMemory` comes last.
    #[tactic(auto, unfolding(crate::specs::Grammar::named_in))]
    pub fn parse(alloc: Global, home: &Home, text: &str) -> Result<Named, NameFault>
        ensures { grammar.Gives result (grammar.named_in home.now text.now) }
    {
        if text.len() > LONGEST_FUNCTION_NAME {
            return Err(NameFault::Malformed);
        }
        let Some(parts) = parts_of(text) else {
            return Err(NameFault::Malformed);
        };
        if !is_well_formed(&parts) {
            return Err(NameFault::Malformed);
        }
        if !is_here(home, &parts) {
            return Err(NameFault::ForeignAccount);
        }
        if !is_none_or_same(parts.qualifier, LATEST) {
            return Err(NameFault::UnknownQualifier);
        }
        Ok(Named {
            name: Text::new(String::from_str(alloc, parts.name)?),
            qualified: parts.qualifier.is_some(),
        })
    }
}

/// Returns the ARN of a function at this home, with `:$LATEST` at its end if it is qualified.
pub fn arn_text(
    alloc: Global,
    home: &Home,
    name: &str,
    qualified: bool,
) -> Result<String, AllocError>
    ensures { IfOk result (λ text. string_bytes text ≡ grammar.arn home.now name.now qualified) }
{
    let region = home.region.as_str();
    let account = home.account.as_str();
    let qualifier = qualifier_text(qualified);
    let mut text = String::with_capacity(alloc, LONGEST_ARN)?;
    write!(
        text,
        "arn:aws:lambda:{region}:{account}:function:{name}{qualifier}"
    )?;
    Ok(text)
}

fn qualifier_text(qualified: bool) -> &'static str
    ensures { result.now ≡ grammar.qualifier_text qualified }
{
    if qualified { ":$LATEST" } else { "" }
}

/// The parts of a name, as they are written.
#[derive(Drop)]
struct Spelled<'a> {
    region: Option<&'a str>,
    account: Option<&'a str>,
    name: &'a str,
    qualifier: Option<&'a str>,
}

/// Splits a text at its first colon, if it has one.
fn cut(text: &str) -> (&str, Option<&str>)
    ensures { MatchOption result.1 (grammar.parts text.now ≡ result.0.now ∷ [])
        (λ rest. grammar.parts text.now ≡ result.0.now ∷ grammar.parts rest.now) }
{
    match text.split_once(':') {
        Some((front, rest)) => (front, Some(rest)),
        None => (text, None),
    }
}

fn of_account<'a>(
    account: &'a str,
    kind: &str,
    name: &'a str,
    qualifier: Option<&'a str>,
) -> Option<Spelled<'a>>
    ensures { option_map written result
        ≡ grammar.of_account account.now kind.now name.now (option_map text_of qualifier.entry) }
{
    if kind != "function" {
        return None;
    }
    Some(Spelled {
        region: None,
        account: Some(account),
        name,
        qualifier,
    })
}

fn of_arn<'a>(
    arn: &str,
    partition: &str,
    service: &str,
    region: &'a str,
    account: &'a str,
    kind: &str,
    name: &'a str,
    qualifier: Option<&'a str>,
) -> Option<Spelled<'a>>
    ensures { option_map written result
        ≡ grammar.of_arn arn.now partition.now service.now region.now account.now kind.now name.now
        (option_map text_of qualifier.entry) }
{
    if arn == "arn" && partition == "aws" && service == "lambda" && kind == "function" {
        return Some(Spelled {
            region: Some(region),
            account: Some(account),
            name,
            qualifier,
        });
    }
    None
}

/// Returns the parts of a name by what they mean.
fn parts_of(text: &str) -> Option<Spelled<'_>>
    ensures { option_map written result ≡ grammar.shape (grammar.parts text.now) }
{
    let (first, rest) = cut(text);
    let Some(rest) = rest else {
        return Some(Spelled {
            region: None,
            account: None,
            name: first,
            qualifier: None,
        });
    };
    let (second, rest) = cut(rest);
    let Some(rest) = rest else {
        return Some(Spelled {
            region: None,
            account: None,
            name: first,
            qualifier: Some(second),
        });
    };
    let (third, rest) = cut(rest);
    let Some(rest) = rest else {
        return of_account(first, second, third, None);
    };
    let (fourth, rest) = cut(rest);
    let Some(rest) = rest else {
        return of_account(first, second, third, Some(fourth));
    };
    long_form(first, second, third, fourth, rest)
}

/// Returns the parts of an ARN whose first four are split off already.
fn long_form<'a>(
    arn: &str,
    partition: &str,
    service: &str,
    region: &'a str,
    rest: &'a str,
) -> Option<Spelled<'a>>
    ensures { option_map written result
        ≡ grammar.shape (arn.now ∷ partition.now ∷ service.now ∷ region.now ∷ grammar.parts rest.now) }
{
    let (account, rest) = cut(rest);
    let rest = rest?;
    let (kind, rest) = cut(rest);
    let rest = rest?;
    let (name, rest) = cut(rest);
    let Some(rest) = rest else {
        return of_arn(arn, partition, service, region, account, kind, name, None);
    };
    let (qualifier, rest) = cut(rest);
    match rest {
        Some(_) => None,
        None => of_arn(
            arn,
            partition,
            service,
            region,
            account,
            kind,
            name,
            Some(qualifier),
        ),
    }
}

/// Whether a text is the qualifier of some function: `$LATEST`, or 1 to 128 of ASCII letters, digits,
/// `-` and `_`, as a version or an alias is named, known or not (Lambda API, Invoke: Qualifier).
pub fn is_qualifier(text: &str) -> bool
    ensures { result ≡ grammar.is_qualifier text.now }
{
    text == LATEST || is_within(text, LONGEST_QUALIFIER) && has_name_bytes(text)
}

fn is_well_formed(parts: &Spelled) -> bool
    ensures { result ≡ grammar.is_well_formed (written parts.now) }
{
    is_name(parts.name)
        && parts.qualifier.is_none_or(is_qualifier)
        && parts.account.is_none_or(is_account)
        && parts.region.is_none_or(is_region)
}

/// Whether the text is left out, or is this one.
fn is_none_or_same(text: Option<&str>, wanted: &str) -> bool
    ensures { result ≡ grammar.is_none_or (λ t. bytes_eq t wanted.now) (option_map text_of text.entry) }
{
    match text {
        None => true,
        Some(text) => text == wanted,
    }
}

fn is_here(home: &Home, parts: &Spelled) -> bool
    ensures { result ≡ grammar.is_here home.now (written parts.now) }
{
    is_none_or_same(parts.account, home.account.as_str())
        && is_none_or_same(parts.region, home.region.as_str())
}
