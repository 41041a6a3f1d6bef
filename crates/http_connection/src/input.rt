//! The position in a connection's input: in a head, or in the body that a head declares.

ghost use Rattle.std.specs.Prelude.{◌≤◌, ◌<◌, ◌+◌, length, IsTrue, IfSome};

use memchr::{memchr, memchr_iter};

/// How much of the output of a connection is kept before no more of a body is asked for: as much as the
/// longest head has. It is also the most room that the connection makes for a read.
pub(crate) const KEPT: usize = 65_536;

/// The name of the field that declares a body's length, with its colon.
const NAME: &[u8] = b"content-length:";

/// The same as most clients write it.
const USUAL_NAME: &[u8] = b"Content-Length:";

/// Returns the eight bytes from a place on, as one number.
fn word(bytes: &[u8], at: usize) -> u64
    requires { at + 8 ≤ length bytes.now }
{
    u64::from_le_bytes([
        bytes[at],
        bytes[at + 1],
        bytes[at + 2],
        bytes[at + 3],
        bytes[at + 4],
        bytes[at + 5],
        bytes[at + 6],
        bytes[at + 7],
    ])
}

/// Returns whether the name is at a place, in any case. Its usual form is compared first, as two
/// numbers that overlap.
fn is_name_at(bytes: &[u8], at: usize) -> bool
    requires { at ≤ length bytes.now }
    ensures { IsTrue result → at + 15 ≤ length bytes.now }
{
    if bytes.len() - at < NAME.len() {
        return false;
    }
    (word(bytes, at) == word(USUAL_NAME, 0) && word(bytes, at + 7) == word(USUAL_NAME, 7))
        || bytes[at..at + NAME.len()].eq_ignore_ascii_case(NAME)
}

/// Returns a number with one more digit at its end. What is not a digit is skipped.
fn with_digit(number: u64, byte: u8) -> u64 {
    if !byte.is_ascii_digit() {
        return number;
    }
    let digit = u64::from(byte - b'0');
    if number < u64::MAX / 10 {
        return number * 10 + digit;
    }
    number.saturating_mul(10).saturating_add(digit)
}

/// Returns the position of the first end of a line. (The iterator finds one that is near sooner
/// than `memchr` does.)
fn near_end(bytes: &[u8]) -> Option<usize>
    ensures { IfSome result (λ end. end < length bytes.now) }
{
    match memchr_iter(b'\n', bytes).next() {
        Some(end) => Some(end),
        None => None,
    }
}

/// Returns how many of `count` bytes are handed on at once, which lie in a buffer with room for `room`
/// bytes, if `rest` bytes of their request are still to come behind them: all if none is, or if they do
/// not fit in what is left of the buffer; otherwise so few that twice as much room is left, or `KEPT`.
/// With less, the connection would allocate and clear a further buffer, since the request's head has a
/// share in this one.
fn handed_on(count: usize, room: usize, rest: u64) -> usize
    ensures bound { result ≤ count }
    ensures some { 0 < count → 0 < result }
{
    if rest == 0 || rest > room.saturating_sub(count) as u64 {
        return count;
    }
    let most = (room / 3).max(room.saturating_sub(KEPT));
    if most == 0 || count <= most {
        return count;
    }
    most
}

/// How much of the present line is a field that declares a body's length.
#[derive(Clone, Copy, Drop)]
enum Line {
    /// This many bytes of the name, and no other byte.
    Name(usize),
    /// The whole name, then digits.
    Length,
    /// Something else.
    Other,
}

/// The position in a connection's input. By it, each read ends at the end of a request, so that a
/// connection that asks for more has no bytes of a request that it has not begun. It decides
/// nothing else: whatever it takes for a request's end, all bytes are handed on in their order.
#[derive(Clone, Copy, Drop)]
pub(crate) struct Input {
    line: Line,
    // Whether the present line is still empty.
    is_empty: bool,
    // The length that the present head has declared so far.
    length: u64,
    // How many bytes of the present body are still to come.
    rest: u64,
}

impl Input {
    /// The beginning of a head.
    pub(crate) fn new() -> Input {
        Input {
            line: Line::Name(0),
            is_empty: false,
            length: 0,
            rest: 0,
        }
    }

    /// Takes a byte of a line that is not its end.
    fn take_byte(&mut self, byte: u8) {
        self.is_empty = false;
        match self.line {
            Line::Name(count) => {
                self.line = match NAME.get(count) {
                    Some(next) if byte.to_ascii_lowercase() == *next && count + 1 < NAME.len() => {
                        Line::Name(count + 1)
                    }
                    Some(next) if byte.to_ascii_lowercase() == *next => Line::Length,
                    _ => Line::Other,
                };
            }
            Line::Length => self.length = with_digit(self.length, byte),
            Line::Other => {}
        }
    }

    /// Takes the end of a line. Returns whether the line is empty, and so ends a head; the body
    /// that the head declared follows. (A chunked body ends with such a line, too.)
    fn take_end(&mut self) -> bool {
        let is_head_end = self.is_empty;
        self.line = Line::Name(0);
        self.is_empty = true;
        if is_head_end {
            self.is_empty = false;
            self.rest = self.length;
            self.length = 0;
        }
        is_head_end
    }

    /// Takes bytes of a line, one by one, without its end. Once the line does not declare a length,
    /// the rest is skipped.
    fn take_each(&mut self, bytes: &[u8]) {
        for byte in bytes {
            if matches!(self.line, Line::Other) {
                return;
            }
            if *byte != b'\r' {
                self.take_byte(*byte);
            }
        }
    }

    /// Takes bytes of a line, without its end, that do not begin with the whole name: if they begin
    /// the line and are as many, the line does not declare a length.
    fn take_bytes(&mut self, bytes: &[u8]) {
        if matches!(self.line, Line::Name(0)) && bytes.len() >= NAME.len() {
            self.is_empty = false;
            self.line = Line::Other;
            return;
        }
        self.take_each(bytes);
    }

    /// Takes a line byte by byte, or what there is of it. Returns how many bytes that is, and
    /// whether it is empty, and so ends a head. (Not inlined, since it is for few lines.)
    #[inline(never)]
    fn take_slowly(&mut self, bytes: &[u8]) -> (usize, bool)
        ensures bound { result.0 ≤ length bytes.now }
        ensures some { 0 < length bytes.now → 0 < result.0 }
    {
        match memchr(b'\n', bytes) {
            Some(end) => {
                self.take_bytes(&bytes[..end]);
                (end + 1, self.take_end())
            }
            None => {
                self.take_bytes(bytes);
                (bytes.len(), false)
            }
        }
    }

    /// Takes the rest of a line of which a part was taken before, if there is one. Returns how many
    /// bytes that is. (Since the line has begun, it is not empty.)
    fn take_begun(&mut self, bytes: &[u8]) -> usize
        ensures { result ≤ length bytes.now }
    {
        if matches!(self.line, Line::Name(0)) {
            return 0;
        }
        let (count, _) = self.take_slowly(bytes);
        count
    }

    /// Takes a line that is not empty and does not declare a length, or what there is of it.
    /// Returns the place after it.
    fn take_other(&mut self, bytes: &[u8], at: usize) -> usize
        requires { at < length bytes.now }
        ensures bound { result ≤ length bytes.now }
        ensures some { at < result }
    {
        match near_end(&bytes[at..]) {
            Some(count) => {
                self.is_empty = true;
                at + count + 1
            }
            None => {
                self.take_bytes(&bytes[at..]);
                bytes.len()
            }
        }
    }

    /// Takes the rest of a line from the place after the name of a declared length, or what there
    /// is of it. Returns the place after it.
    fn take_length(&mut self, bytes: &[u8], from: usize) -> usize
        requires { from ≤ length bytes.now }
        ensures bound { result ≤ length bytes.now }
        ensures some { from ≤ result }
    {
        let mut length = self.length;
        let mut at = from;
        while at < bytes.len() {
            let byte = bytes[at];
            at += 1;
            if byte.is_ascii_digit() {
                length = with_digit(length, byte);
            } else if byte == b'\n' {
                self.length = length;
                self.is_empty = true;
                return at;
            }
        }
        self.length = length;
        self.is_empty = false;
        self.line = Line::Length;
        at
    }

    /// Takes the line at a place, or what there is of it. Returns the place after it, and whether
    /// it is empty, and so ends a head.
    fn take_line(&mut self, bytes: &[u8], at: usize) -> (usize, bool)
        requires { at < length bytes.now }
        ensures bound { result.0 ≤ length bytes.now }
        ensures some { at < result.0 }
    {
        match bytes[at] {
            b'\n' => (at + 1, self.take_end()),
            b'\r' if at + 1 < bytes.len() && bytes[at + 1] == b'\n' => (at + 2, self.take_end()),
            b'\r' => {
                let (count, is_head_end) = self.take_slowly(&bytes[at..]);
                (at + count, is_head_end)
            }
            b'c' | b'C' if is_name_at(bytes, at) => {
                (self.take_length(bytes, at + NAME.len()), false)
            }
            _ => (self.take_other(bytes, at), false),
        }
    }

    /// Returns how many of these bytes belong to the present head: those up to and including its
    /// end, or all.
    fn head_part(&mut self, bytes: &[u8]) -> usize
        ensures bound { result ≤ length bytes.now }
        ensures some { 0 < length bytes.now → 0 < result }
    {
        let mut part = self.take_begun(bytes);
        while part < bytes.len() {
            let (next, is_head_end) = self.take_line(bytes, part);
            part = next;
            if is_head_end {
                return part;
            }
        }
        part
    }

    /// Returns how many of these bytes belong to the present body.
    fn body_part(&mut self, bytes: &[u8]) -> usize
        ensures bound { result ≤ length bytes.now }
        ensures some { 0 < self.old.rest → 0 < length bytes.now → 0 < result }
    {
        let count = bytes.len() as u64;
        if self.rest >= count {
            self.rest -= count;
            return bytes.len();
        }
        let part = self.rest as usize;
        self.rest = 0;
        part
    }

    /// Skips bytes that are thrown away: those of the present body, or of something that does not end.
    pub(crate) fn skip(&mut self, count: u64) {
        if self.rest < count {
            self.line = Line::Other;
        }
        self.rest = self.rest.saturating_sub(count);
    }

    /// Returns whether the position is within a request: not at the beginning of a head, and not where
    /// `ahead` further bytes end its body. (The beginning of a chunked body, which is not recognized,
    /// counts as that of a head.)
    pub(crate) fn is_within_request(&self, ahead: usize) -> bool {
        self.rest > ahead as u64 || self.is_empty || !matches!(self.line, Line::Name(0))
    }

    /// Returns how many of these bytes are handed on at once: those up to the end of a request, or
    /// all.
    fn take(&mut self, bytes: &[u8]) -> usize
        ensures bound { result ≤ length bytes.now }
        ensures some { 0 < length bytes.now → 0 < result }
    {
        if self.rest > 0 {
            return self.body_part(bytes);
        }
        let head = self.head_part(bytes);
        head + self.body_part(&bytes[head..])
    }

    /// Returns how many of these bytes are handed on at once, which lie in a buffer with room for `room` bytes:
    /// those up to the end of a request, or fewer if the rest of the request then fits in the buffer.
    pub(crate) fn take_fitting(&mut self, bytes: &[u8], room: usize) -> usize
        ensures bound { result ≤ length bytes.now }
        ensures some { 0 < length bytes.now → 0 < result }
    {
        let before = *self;
        let count = self.take(bytes);
        let fitting = handed_on(count, room, self.rest);
        if fitting == count {
            return count;
        }
        *self = before;
        self.take(&bytes[..fitting])
    }
}
