//! A request that is rejected before it is a call, for those who are told of it.

ghost use Rattle.std.specs.Prelude.{◌≡◌};
ghost use Rattle.long_poll.specs.Causes.{cause_of_status};

/// Why a request is rejected.
#[derive(Clone, Copy, Debug, PartialEq, Eq)]
pub enum Cause {
    /// A header, an identifier or the body is not as its route needs it (400).
    Malformed,
    /// It names no extension that is registered at its port (403).
    Unregistered,
    /// There is no such route or function (404).
    NotFound,
    /// Its route does not have its method (405).
    WrongMethod,
    /// Its body is too long (413).
    TooLong,
    /// Its host is named twice, or is not a host (400).
    MalformedHost,
    /// A web page sent it (403).
    FromPage,
    /// Its host is neither local nor listed (403).
    ForeignHost,
    /// Its transfer coding is not supported (501).
    ForeignCoding,
    /// Its body is cut off or is not chunked as HTTP has it (400).
    BrokenBody,
    /// Its bytes are not HTTP/1.1.
    NotHttp,
}

impl Cause {
    /// Returns why a request is rejected whose response has this status, `None` if that is none of the statuses of
    /// rejected requests.
    pub(crate) fn of_status(status: u16) -> Option<Cause>
        ensures { result ≡ cause_of_status status }
    {
        match status {
            400 => Some(Cause::Malformed),
            403 => Some(Cause::Unregistered),
            404 => Some(Cause::NotFound),
            405 => Some(Cause::WrongMethod),
            413 => Some(Cause::TooLong),
            _ => None,
        }
    }
}

/// A kind of rejected requests: why they are rejected, and at whose port.
#[derive(Clone, Copy, Debug, PartialEq, Eq)]
pub struct Kind {
    /// Why they are rejected.
    pub cause: Cause,
    /// Whether they came to the port of an environment; otherwise they came to the account's.
    pub is_of_environment: bool,
}

/// What is told of a kind.
#[derive(Drop)]
pub struct Told {
    /// The kind.
    pub kind: Kind,
    /// Its first request, unless that was told before.
    pub first: Option<String>,
    /// How many requests of the kind are told, the first one among them.
    pub count: u64,
}
