//! The head of a call: its variant and its numbers, without its bytes.

ghost use Rattle.std.specs.Prelude.{◌≡◌};
ghost use Rattle.call_types.specs.Heads.{head_of};

use crate::Call;

/// The variant of a call, by its name in `Call`.
#[derive(Clone, Copy, Debug, PartialEq, Eq)]
pub enum Kind {
    Invoke,
    RuntimeNext,
    Response,
    ResponseTooLarge,
    Failure,
    InitFailure,
    Register,
    ExtNext,
    ExtInitFailure,
    ExtExitFailure,
    Tick,
    Withdraw,
    Spindown,
    Stop,
    Expire,
    Reserve,
}

/// The part of a call that a receipt keeps.
#[derive(Clone, Copy, Debug, PartialEq, Eq)]
pub struct Head {
    /// The call's variant.
    pub kind: Kind,
    /// The number of the call's function or environment, 0 if it names neither.
    pub number: u32,
    /// The call's `id`, `ext`, ticket or reservation, if it has one.
    pub count: Option<u64>,
}

impl Call {
    /// Returns the call's head.
    pub fn head(&self) -> Head
        ensures { result ≡ head_of self.now }
    {
        match self {
            Call::Invoke { function, .. } => numbered(Kind::Invoke, *function, None),
            Call::RuntimeNext { env } => numbered(Kind::RuntimeNext, *env, None),
            Call::Response { env, id, .. } => numbered(Kind::Response, *env, Some(*id)),
            Call::ResponseTooLarge { env, id } => numbered(Kind::ResponseTooLarge, *env, Some(*id)),
            Call::Failure { env, id, .. } => numbered(Kind::Failure, *env, Some(*id)),
            Call::InitFailure { env, .. } => numbered(Kind::InitFailure, *env, None),
            Call::Register { env, .. } => numbered(Kind::Register, *env, None),
            Call::ExtNext { env, ext } => numbered(Kind::ExtNext, *env, Some(*ext)),
            Call::ExtInitFailure { env, ext, .. } => numbered(
                Kind::ExtInitFailure,
                *env,
                Some(*ext),
            ),
            Call::ExtExitFailure { env, ext, .. } => numbered(
                Kind::ExtExitFailure,
                *env,
                Some(*ext),
            ),
            Call::Tick => numbered(Kind::Tick, 0, None),
            Call::Withdraw { ticket } => numbered(Kind::Withdraw, 0, Some(*ticket)),
            Call::Spindown { env } => numbered(Kind::Spindown, *env, None),
            Call::Stop => numbered(Kind::Stop, 0, None),
            Call::Expire { env } => numbered(Kind::Expire, *env, None),
            Call::Reserve { function, count } => {
                numbered(Kind::Reserve, *function, count.map(u64::from))
            }
        }
    }
}

fn numbered(kind: Kind, number: u32, count: Option<u64>) -> Head
    ensures { result ≡ record { kind = kind; number = number; count = count } }
{
    Head {
        kind,
        number,
        count,
    }
}
