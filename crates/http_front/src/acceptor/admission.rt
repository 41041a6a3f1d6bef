//! What an accepted connection needs to be served, and what is known of it outside its thread.

ghost use Rattle.std.specs.Prelude.{◌≡◌, IfOk};

use crate::Port;
use crate::ports::AcceptedSocket;
use crate::worker::{Job, PendingConnection};
use account_lock::Identity;
use connection_places::Running;
use connection_state::{Pulse, Signals};
use socket_loop::Accepted;
use std::alloc::{AllocError, Global};
use std::sync::Arc;

/// Returns a connection at this port, which no thread serves yet, and what is known of it outside its
/// thread.
fn pending(
    alloc: Global,
    socket: Accepted,
    port: Port,
) -> Result<(PendingConnection, Running), AllocError>
    ensures { IfOk result (λ made. made.0.socket ≡ socket) }
{
    let pulse = Arc::new(alloc, Pulse::new()).map_err(AllocError::from)?;
    let noted = Arc::try_clone(&pulse)?;
    let (ender, signals) = Signals::open(alloc)?;
    let pending = PendingConnection {
        socket,
        signals,
        pulse,
    };
    Ok((pending, Running::new(ender, noted, port)))
}

/// Returns the job of serving an accepted socket at its port, and what is known of the connection
/// outside its thread.
pub(crate) fn admit<S: Identity>(
    alloc: Global,
    accepted: AcceptedSocket<S>,
) -> Result<(Job<S>, Running), AllocError>
    ensures { IfOk result (λ made. (made.0.served ≡ accepted.served) × (made.0.pending.socket ≡ accepted.socket)) }
{
    let port = accepted.port();
    let (socket, served) = accepted.into_parts();
    let (pending, running) = pending(alloc, socket, port)?;
    Ok((Job { pending, served }, running))
}
