//! The thread that lets time pass in the account.

ghost use Rattle.std.specs.Prelude.{◌≡◌, IfNone, IfSome};
ghost use Rattle.http_front.specs.Beats.{has_ended, refused_after, HasBeenRefused, HasDone, HasLooked, HasTickedAtMostOnce};
ghost use Rattle.http_front.specs.Readings.{IsRead, IsReadAhead};

use crate::common::Common;
use crate::{Alarm, Notices};
use account_book::{Life, Refusal};
use account_lock::{Account, AtOnce, Identity};
use arn_ids::GREATEST_MOMENT;
use call_model::Call;
use http_connection::Machine;
use long_poll::{Beat, Clock, ClockFace, MOST_LAG_MS, OneShotBell, moment};
use mio::Waker;
use std::alloc::AllocError;
use std::sync::{Arc, Wait};
use std::thread::JoinHandle;
use std::time::Duration;
use std::{thread, time};
use usage_ledger::{Keep, Tally, Token};

/// The time between two checks for something due.
const BEAT_MS: u64 = 50;

/// How many times a rest may double, from a beat on: up to an hour and 49 minutes.
const MOST_DOUBLINGS: u32 = 17;

/// The longest rest.
const LONGEST_REST_MS: u64 = BEAT_MS << MOST_DOUBLINGS;

/// For how many beats in a row a tick may be refused after a Stop because an allocation fails,
/// before the service ends without it: ten seconds.
const MOST_REFUSED: u32 = 200;

/// Sets the clock forward if the time of day is ahead of it, for example after the machine has
/// slept, and no deadline is running: what is due stays measured by the clock, and what a runtime
/// is given from now on is the time of day again (Runtime API, `Lambda-Runtime-Deadline-Ms`). The
/// account first gets the later moment, by a Tick that is taken only while no deadline is running:
/// so no call that read the clock before can begin a deadline that has passed. If a deadline is
/// running, it is tried again at the next beat.
fn catch_up<S: Identity, N: Clock, K: Keep>(
    rt: &impl Wait,
    account: &Account<S, OneShotBell>,
    clock: &N,
    tally: &mut Tally<K, S>,
    token: &mut Token<S>,
)
    ensures { HasTickedAtMostOnce S.config S.most K.notes K.makes (IsReadAhead N.Clock clock.now)
        tally.old.held token.new tally.new.held }
{
    let lag = clock.lag();
    if lag <= MOST_LAG_MS {
        return;
    }
    let now = clock.now().saturating_add(lag).min(GREATEST_MOMENT);
    if let Ok(Some(_taken)) = account.tick_at_rest(rt, tally, token, now, &AtOnce) {
        clock.set_forward(lag);
    }
}

/// Submits a `Tick` if something is due. If it was refused, returns why.
fn tick<S: Identity, N: Clock, K: Keep>(
    rt: &impl Wait,
    account: &Account<S, OneShotBell>,
    clock: &N,
    tally: &mut Tally<K, S>,
    token: &mut Token<S>,
) -> Option<Refusal>
    ensures done { IfNone result (HasDone S.config S.most K.notes K.makes (IsRead N.Clock clock.now)
        tally.old.held token.new tally.new.held) }
    ensures refused { IfSome result (HasBeenRefused S.config S.most K.notes K.makes (IsRead N.Clock clock.now)
        tally.old.held token.new tally.new.held) }
{
    let now = moment(clock);
    if !account.due(rt, token, now) {
        return None;
    }
    let Err(refused) = account.submit(rt, tally, token, now, Call::Tick, None, &AtOnce) else {
        return None;
    };
    Some(refused.refusal)
}

/// Sets the clock forward if it is behind the time of day, and submits a `Tick` if something is due. If
/// it was refused, returns why. Meanwhile the clock is not set for a request.
fn look<S: Identity, N: Clock, K: Keep>(
    rt: &impl Wait,
    account: &Account<S, OneShotBell>,
    clock: &N,
    tally: &mut Tally<K, S>,
    token: &mut Token<S>,
    beat: &Beat,
) -> Option<Refusal>
    ensures { HasLooked S.config S.most K.notes K.makes (IsReadAhead N.Clock clock.now) (IsRead N.Clock clock.now)
        tally.old.held token.new tally.new.held result }
{
    let _setting = beat.setting.lock(rt);
    catch_up(rt, account, clock, tally, token);
    tick(rt, account, clock, tally, token)
}

/// Returns for how many beats in a row ticks were refused, after one more tick with this result. A
/// full journal stays full, so a tick that it refuses counts as the most.
fn refused_after(before: u32, refusal: Option<Refusal>) -> u32
    ensures { result ≡ refused_after before refusal }
{
    match refusal {
        None => 0,
        Some(Refusal::OutOfMemory) => before.saturating_add(1),
        Some(Refusal::JournalFull) => MOST_REFUSED,
    }
}

/// Returns whether the service is at its end: after a Stop, once every environment is off, or once
/// ticks were refused for too long.
fn has_ended(life: Life, refused: u32) -> bool
    ensures { result ≡ has_ended life refused }
{
    match life {
        Life::Open => false,
        Life::Stopping => refused >= MOST_REFUSED,
        Life::Off => true,
    }
}

/// Returns for how many milliseconds nothing is due if no step is made and the clock is not set: a beat,
/// or some doublings of it, half of the time until something is due or more. While the clock is paused
/// nothing becomes due.
fn quiet_time<S: Identity>(
    rt: &impl Wait,
    account: &Account<S, OneShotBell>,
    token: &mut Token<S>,
    face: ClockFace,
) -> u64 {
    if !face.is_running {
        return LONGEST_REST_MS;
    }
    let mut quiet = BEAT_MS;
    for _ in 0..MOST_DOUBLINGS {
        let longer = quiet.saturating_mul(2);
        if account.due(
            rt,
            token,
            face.now.saturating_add(longer).min(GREATEST_MOMENT),
        ) {
            break;
        }
        quiet = longer;
    }
    quiet
}

/// Sleeps until the next look. If no step was made since the last one, after which there were
/// `entries`, that is shortly before something is due, or after the next step, or once the clock is set;
/// otherwise it is a beat. It is at once if the ticker was woken since it was woken `woken` times.
fn rest<S: Identity, N: Clock>(
    rt: &impl Wait,
    account: &Account<S, OneShotBell>,
    clock: &N,
    token: &mut Token<S>,
    beat: &Beat,
    woken: u64,
    entries: u64,
) {
    beat.begin_rest();
    let quiet = if account.stats(rt, token).entries == entries {
        quiet_time(rt, account, token, clock.face())
    } else {
        BEAT_MS
    };
    beat.sleep(rt, woken, Duration::from_millis(quiet));
}

/// Ticks until the service has come to its end, and then notes that, or until another thread notes
/// it. Also notes how many entries there are. Returns the tally.
fn tick_on<R: Wait + time::Clock, S: Identity, N: Clock, K: Keep>(
    rt: &R,
    account: &Account<S, OneShotBell>,
    clock: &N,
    notices: &Notices,
    tally: Tally<K, S>,
    beat: &Beat,
) -> Tally<K, S> {
    let mut tally = tally;
    let mut token = account.token(rt);
    let mut refused = 0;
    let mut before = 0;
    for _ in rt.forever() {
        let woken = beat.count();
        refused = refused_after(
            refused,
            look(rt, account, clock, &mut tally, &mut token, beat),
        );
        let entries = account.stats(rt, &mut token).entries;
        notices.note(entries);
        if entries != before {
            beat.note_own_step(rt);
        }
        if has_ended(account.life(rt, &mut token), refused) {
            beat.end(rt);
        }
        beat.note_look();
        if beat.is_over() {
            return tally;
        }
        if entries == before && refused == 0 {
            rest(rt, account, clock, &mut token, beat, woken, entries);
        } else {
            beat.sleep(rt, woken, Duration::from_millis(BEAT_MS));
        }
        before = entries;
    }
    unreachable!()
}

/// What the ticker's thread has: what it has in common with the others, the notices, and the tally
/// in which its calls count.
#[derive(Drop)]
pub(crate) struct Ticker<R, S: Identity, N, K: Keep> {
    pub(crate) rt: R,
    pub(crate) common: Common<S, N>,
    pub(crate) notices: Arc<Notices>,
    // Ends the wait for new connections.
    pub(crate) waker: Arc<Waker>,
    pub(crate) tally: Tally<K, S>,
}

impl<R: Machine, S: Identity + Drop, N: Clock + Drop, K: Keep> Ticker<R, S, N, K> {
    /// Ticks until the service is over, and then ends the wait for new connections.
    fn run(self) -> Tally<K, S> {
        let Ticker {
            rt,
            common,
            notices,
            waker,
            tally,
        } = self;
        let tally = tick_on(
            &rt,
            &*common.shared.service,
            &common.shared.clock,
            &notices,
            tally,
            &common.shared.beat,
        );
        // (If the descriptor fails, the next new connection or the next round ends the wait.)
        let _ = waker.wake();
        tally
    }

    /// Returns what wakes the ticker.
    pub(crate) fn alarm(&self) -> Result<Arc<Alarm>, AllocError> {
        Arc::try_clone(&self.common.shared.beat.alarm)
    }
}

impl<
    R: Machine,
    S: Identity + Drop + Send + Sync + 'static,
    N: Clock + Drop + Send + Sync + 'static,
    K: Keep + Send + 'static,
> Ticker<R, S, N, K> {
    /// Starts the thread. If no thread can be started, the tally is dropped.
    pub(crate) fn start(self) -> Result<JoinHandle<Tally<K, S>>, AllocError> {
        let rt = self.rt;
        Ok(thread::spawn(&rt, move || self.run())?)
    }
}
