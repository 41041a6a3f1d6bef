//! The fields of a line, which its spaces separate.

ghost use Rattle.std.specs.Prelude.{◌≡◌, ◌∷◌, ◌==◌, option_map, position};
ghost use Rattle.script.specs.Lines.{fields};
ghost use Rattle.script.specs.Lines as spec;
ghost use Rattle.script.specs.Views.{fields_left, text_of, two_of, three_of, four_of};

/// Returns the index of the first space.
fn space_at(text: &[u8]) -> Option<usize>
    ensures { result ≡ position (λ b. b == 32) text.now }
{
    text.iter().position(|b| *b == b' ')
}

/// Splits a line at its first space, if it has one.
pub(crate) fn cut(text: &[u8]) -> (&[u8], Option<&[u8]>)
    ensures { fields text.now ≡ result.0.now ∷ fields_left result.1 }
{
    match space_at(text) {
        Some(at) => (&text[..at], Some(&text[at + 1..])),
        None => (text, None),
    }
}

/// Returns the one field of a line, if it has exactly one.
#[tactic(auto, using(crate::proofs::FieldLemmas::too_many))]
pub(crate) fn one_field(rest: Option<&[u8]>) -> Option<&[u8]>
    ensures { option_map text_of result ≡ spec.one_field (fields_left rest.entry) }
{
    let (first, more) = cut(rest?);
    match more {
        None => Some(first),
        Some(_) => None,
    }
}

/// Returns the fields of a line, if it has exactly two.
pub(crate) fn two_fields(rest: Option<&[u8]>) -> Option<(&[u8], &[u8])>
    ensures { option_map two_of result ≡ spec.two_fields (fields_left rest.entry) }
{
    let (first, more) = cut(rest?);
    match one_field(more) {
        Some(second) => Some((first, second)),
        None => None,
    }
}

/// Returns the fields of a line, if it has exactly three.
pub(crate) fn three_fields(rest: Option<&[u8]>) -> Option<(&[u8], &[u8], &[u8])>
    ensures { option_map three_of result ≡ spec.three_fields (fields_left rest.entry) }
{
    let (first, more) = cut(rest?);
    match two_fields(more) {
        Some((second, third)) => Some((first, second, third)),
        None => None,
    }
}

/// Returns the fields of a line, if it has exactly four.
pub(crate) fn four_fields(rest: Option<&[u8]>) -> Option<(&[u8], &[u8], &[u8], &[u8])>
    ensures { option_map four_of result ≡ spec.four_fields (fields_left rest.entry) }
{
    let (first, more) = cut(rest?);
    match three_fields(more) {
        Some((second, third, fourth)) => Some((first, second, third, fourth)),
        None => None,
    }
}
