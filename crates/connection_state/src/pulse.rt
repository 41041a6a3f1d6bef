//! The state that a connection publishes: its own thread writes it, and the keeper of the places
//! reads it.

ghost use Rattle.std.specs.Prelude.{◌≡◌, ◌<◌, ◌^◌};
ghost use Rattle.connection_state.specs.Pulses.{number_of, told_of, stage_of, is_unserved, is_between};
ghost use Rattle.connection_state.specs.Pulses.{is_lingering, is_same, is_in_stage_of};
ghost use Rattle.connection_state.specs.declared.pulse.Told.{Told};

use std::sync::atomic::AtomicU64;
use std::sync::atomic::Ordering::SeqCst;

/// What a connection waits for.
#[derive(Clone, Copy, Drop)]
pub enum Awaited {
    /// An answer: a whole request has come, and is being served.
    Answer,
    /// The first byte of the first request.
    First,
    /// The rest of a request's head.
    Head,
    /// The rest of a request's body.
    Body,
    /// The peer, to take a response.
    Taking,
    /// The first byte of the next request.
    Next,
    /// The peer's end, after a response that ends the connection.
    End,
}

impl Awaited {
    /// Returns its number in a published state.
    fn number(self) -> u16
        ensures { result ≡ number_of self }
    {
        match self {
            Awaited::Answer => 0,
            Awaited::First => 1,
            Awaited::Head => 2,
            Awaited::Body => 3,
            Awaited::Taking => 4,
            Awaited::Next => 5,
            Awaited::End => 6,
        }
    }

    /// Returns what has this number.
    fn of(number: u64) -> Awaited
        ensures { (awaited : Awaited) → number ≡ number_of awaited → result ≡ awaited }
    {
        match number {
            0 => Awaited::Answer,
            1 => Awaited::First,
            2 => Awaited::Head,
            3 => Awaited::Body,
            4 => Awaited::Taking,
            5 => Awaited::Next,
            _ => Awaited::End,
        }
    }

    /// Returns the number of the stage of an exchange that it belongs to.
    fn stage(self) -> u8
        ensures { result ≡ stage_of self }
    {
        match self {
            Awaited::First | Awaited::Next => 0,
            Awaited::Head => 1,
            Awaited::Body | Awaited::Answer => 2,
            Awaited::Taking => 3,
            Awaited::End => 4,
        }
    }
}

/// The published state of a connection: what it waits for, how many responses its service has given
/// (modulo 2^16), and how many bytes of the present request have come.
#[derive(Clone, Copy, Drop)]
pub struct Told {
    pub awaited: Awaited,
    pub answers: u16,
    pub moved: u32,
}

impl Told {
    /// Returns the state as one number.
    fn number(self) -> u64
        ensures { result ≡ told_of self }
    {
        u64::from(self.moved) * 4_294_967_296
            + u64::from(self.answers) * 65_536
            + u64::from(self.awaited.number())
    }

    /// Returns the state that this number stands for.
    fn of(number: u64) -> Told
        ensures { (told : Told) → told.answers < 2 ^ 16 → told.moved < 2 ^ 32 → number ≡ told_of told → result ≡ told }
    {
        Told {
            awaited: Awaited::of(number % 65_536),
            answers: (number / 65_536 % 65_536) as u16,
            moved: (number / 4_294_967_296) as u32,
        }
    }

    /// Returns whether the connection waits for its peer to send a request or to end, and so serves
    /// none.
    pub fn is_unserved(self) -> bool
        ensures { result ≡ is_unserved self.awaited }
    {
        matches!(
            self.awaited,
            Awaited::First | Awaited::Head | Awaited::Body | Awaited::Next | Awaited::End
        )
    }

    /// Returns whether the connection is between two requests, or after the last one.
    pub fn is_between(self) -> bool
        ensures { result ≡ is_between self.awaited }
    {
        matches!(self.awaited, Awaited::Next | Awaited::End)
    }

    /// Returns whether the connection lingers: it waits for its peer's end.
    pub fn is_lingering(self) -> bool
        ensures { result ≡ is_lingering self.awaited }
    {
        matches!(self.awaited, Awaited::End)
    }

    /// Returns whether nothing has happened since the other state was published.
    pub fn is_same(self, other: Told) -> bool
        ensures { result ≡ is_same self other }
    {
        self.awaited.number() == other.awaited.number()
            && self.answers == other.answers
            && self.moved == other.moved
    }

    /// Returns whether the connection is in the same stage of the same exchange as when the other
    /// state was published.
    pub fn is_in_stage_of(self, other: Told) -> bool
        ensures { result ≡ is_in_stage_of self other }
    {
        self.awaited.stage() == other.awaited.stage() && self.answers == other.answers
    }
}

/// The published state of a connection, for other threads to read.
#[derive(Drop)]
pub struct Pulse {
    told: AtomicU64,
}

impl Pulse {
    /// Makes the state of a connection that waits for its first request.
    pub fn new() -> Pulse {
        let told = Told {
            awaited: Awaited::First,
            answers: 0,
            moved: 0,
        };
        Pulse {
            told: AtomicU64::new(told.number()),
        }
    }

    /// Publishes the connection's state.
    pub fn tell(&self, told: Told) {
        self.told.store(told.number(), SeqCst);
    }

    /// Returns the state that was published last.
    pub fn told(&self) -> Told {
        Told::of(self.told.load(SeqCst))
    }
}
