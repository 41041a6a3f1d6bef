//! The text of a host in a request, and the names that are local.

ghost use Rattle.std.specs.Prelude.{◌≡◌, ◌≤◌, ◌==◌, ◌∷◌, not, is_some, IfSome, length, position};
ghost use Rattle.std.specs.List.{list_all, slice_split};
ghost use Rattle.std.specs.Char.{is_ascii_digit};
ghost use Rattle.request_guard.specs.Names as spec;
ghost use Rattle.request_guard.specs.Views.{pieces_left};

/// Returns whether a byte may occur in a registered name or an IPv4 address (RFC 3986, section
/// 3.2.2). Small letters come first, since most names consist of them.
fn is_name_byte(byte: u8) -> bool
    ensures { result ≡ spec.is_name_byte byte }
{
    byte.is_ascii_lowercase() || byte.is_ascii_alphanumeric() || b"-._~%!$&'()*+,;=".contains(&byte)
}

/// Returns whether a byte may occur in an IPv6 address.
fn is_address_byte(byte: u8) -> bool
    ensures { result ≡ spec.is_address_byte byte }
{
    byte.is_ascii_hexdigit() || byte == b':' || byte == b'.'
}

/// Returns the position of the first byte that cannot be in a name.
fn other_than_name(text: &[u8]) -> Option<usize>
    ensures { result ≡ position (λ b. not (spec.is_name_byte b)) text.now }
{
    text.iter().position(|b| !is_name_byte(*b))
}

/// Returns how many bytes of a name are at the front.
#[tactic(auto, using(crate::proofs::Passed::passed_within))]
fn name_length(text: &[u8]) -> usize
    ensures value { result ≡ spec.passed spec.is_name_byte text.now }
    ensures within { result ≤ length text.now }
{
    match other_than_name(text) {
        Some(at) => at,
        None => text.len(),
    }
}

/// Returns the position of the first byte that cannot be in an IPv6 address.
fn other_than_address(text: &[u8]) -> Option<usize>
    ensures { result ≡ position (λ b. not (spec.is_address_byte b)) text.now }
{
    text.iter().position(|b| !is_address_byte(*b))
}

/// Returns how many bytes of an IPv6 address are at the front.
#[tactic(auto, using(crate::proofs::Passed::passed_within))]
fn address_length(text: &[u8]) -> usize
    ensures value { result ≡ spec.passed spec.is_address_byte text.now }
    ensures within { result ≤ length text.now }
{
    match other_than_address(text) {
        Some(at) => at,
        None => text.len(),
    }
}

fn are_digits(text: &[u8]) -> bool
    ensures { result ≡ list_all is_ascii_digit text.now }
{
    text.iter().all(|b| b.is_ascii_digit())
}

/// Returns whether a text is empty, or a colon and the digits of a port (RFC 3986, section 3.2.3).
fn is_port_part(text: &[u8]) -> bool
    ensures { result ≡ spec.is_port_part text.now }
{
    match text.split_first() {
        None => true,
        Some((first, digits)) => *first == b':' && are_digits(digits),
    }
}

/// Returns the name before the port, if the text is a name with an optional port.
pub(crate) fn name_in(text: &[u8]) -> Option<&[u8]>
    ensures there { is_some result ≡ spec.is_named text.now }
    ensures value { IfSome result (λ name. name.now ≡ spec.name_of text.now) }
{
    let length = name_length(text);
    if is_port_part(&text[length..]) {
        return Some(&text[..length]);
    }
    None
}

/// Returns whether a text is the bracket that ends an address, with an optional port after it.
fn closes(text: &[u8]) -> bool
    ensures { result ≡ spec.closes text.now }
{
    match text.split_first() {
        None => false,
        Some((first, port)) => *first == b']' && is_port_part(port),
    }
}

/// Returns whether a text is what follows the bracket that begins an address: the address, the
/// bracket that ends it, and an optional port.
fn is_address(rest: &[u8]) -> bool
    ensures { result ≡ spec.is_address rest.now }
{
    let length = address_length(rest);
    length > 0 && closes(&rest[length..])
}

/// Returns whether a text is an address in brackets, with an optional port.
pub(crate) fn is_literal(text: &[u8]) -> bool
    ensures { result ≡ spec.is_literal text.now }
{
    match text.split_first() {
        None => false,
        Some((first, rest)) => *first == b'[' && is_address(rest),
    }
}

/// Returns a name without the root's dot at its end (RFC 1034, section 3.1).
pub(crate) fn relative(name: &[u8]) -> &[u8]
    ensures { result.now ≡ spec.relative name.now }
{
    match name.split_last() {
        Some((last, front)) if *last == b'.' => front,
        _ => name,
    }
}

/// Returns whether a name ends with a suffix, in any case.
fn ends_as(name: &[u8], suffix: &[u8]) -> bool
    ensures { result ≡ spec.ends_as suffix.now name.now }
{
    if name.len() < suffix.len() {
        return false;
    }
    let (_, end) = name.split_at(name.len() - suffix.len());
    end.eq_ignore_ascii_case(suffix)
}

/// Returns the position of the first comma.
fn comma_at(bytes: &[u8]) -> Option<usize>
    ensures { result ≡ position (λ b. b == 44) bytes.now }
{
    bytes.iter().position(|b| *b == b',')
}

/// Returns the piece before the first comma, and what follows it.
pub(crate) fn cut(bytes: &[u8]) -> (&[u8], Option<&[u8]>)
    ensures { slice_split (λ b. b == 44) bytes.now ≡ result.0.now ∷ pieces_left result.1 }
{
    match comma_at(bytes) {
        Some(at) => (&bytes[..at], Some(&bytes[at + 1..])),
        None => (bytes, None),
    }
}

/// Returns whether a list of names between commas has this name, in any case.
fn lists(listed: &[u8], name: &[u8]) -> bool
    ensures { result ≡ spec.lists listed.now name.now }
{
    let mut rest = Some(listed);
    while let Some(bytes) = rest {
        let (part, after) = cut(bytes);
        if part.eq_ignore_ascii_case(name) {
            return true;
        }
        rest = after;
    }
    false
}

/// Returns whether a name has one label, as `localhost` and the names of containers do.
fn is_one_label(name: &[u8]) -> bool
    ensures { result ≡ spec.is_one_label name.now }
{
    !name.contains(&b'.')
}

/// Returns whether a name is an IPv4 address: no registered name consists of digits and dots alone.
fn is_numeric(name: &[u8]) -> bool
    ensures { result ≡ spec.is_numeric name.now }
{
    name.iter().all(|b| b.is_ascii_digit() || *b == b'.')
}

/// Returns whether a name is below a domain that no one has on the public network (RFC 6761, RFC
/// 6762; ICANN's `.internal`).
fn is_below_local(name: &[u8]) -> bool
    ensures { result ≡ spec.is_below_local name.now }
{
    ends_as(name, b".localhost")
        || ends_as(name, b".internal")
        || ends_as(name, b".local")
        || ends_as(name, b".localdomain")
}

/// Returns whether a name is that of this machine or of a container, or a listed one.
pub(crate) fn is_local(listed: &[u8], name: &[u8]) -> bool
    ensures { result ≡ spec.is_local listed.now name.now }
{
    !name.is_empty()
        && (is_one_label(name) || is_numeric(name) || is_below_local(name) || lists(listed, name))
}
