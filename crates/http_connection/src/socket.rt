//! A stream of bytes that can be read ahead of its reader, which still gets each byte once and in
//! order. It keeps the state of its connection.

ghost use Rattle.std.specs.Prelude.{◌≡◌, [], ◌++◌, ◌<◌, ◌≤◌, length, take, drop};
ghost use Rattle.futures.specs.Poll.{OnPending};
ghost use Rattle.futures.specs.Task.{Covers, Keeps};
ghost use Rattle.http_connection.specs.Ahead.{ReadsBehind, ThrowsAway};

use crate::input::Input;
use crate::stand::Stand;
use bytes::BytesMut;
use futures::task::{Context, Poll};
use std::alloc::Global;
use std::io;
use tokio::io::{AsyncRead, poll_read_buf};

/// The most bytes that are read ahead of the reader.
const MOST_AHEAD: usize = 65_536;

/// The most bytes that are read and discarded after an answer that ends the connection: here in
/// total, below in one read.
const MOST_DRAINED: u64 = 67_108_864;

const DRAINED_AT_ONCE: usize = 16_384;

/// A stream, what was read from it and not yet handed on, and the state of its connection.
#[derive(Drop)]
pub(crate) struct Socket<T> {
    pub(crate) stream: T,
    ahead: BytesMut,
    input: Input,
    drained: u64,
    pub(crate) stand: Stand,
    // Whether the last request was a poll that was refused.
    pub(crate) is_refused: bool,
}

impl<T: Drop> Socket<T> {
    /// Makes a socket from which nothing has been read yet.
    pub(crate) fn new(alloc: Global, stream: T) -> Socket<T>
        ensures stream { result.stream ≡ stream }
        ensures nothing { result.ahead.items ≡ [] }
    {
        Socket {
            stream,
            ahead: BytesMut::new(alloc),
            input: Input::new(),
            drained: 0,
            stand: Stand::new(),
            is_refused: false,
        }
    }

    /// Hands on what was read ahead, up to the end of a request. Returns how many bytes these are.
    fn read_ahead(&mut self, buf: &mut [u8]) -> usize
        ensures bound { result ≤ length buf.new }
        ensures bytes { self.old.ahead.items ≡ take result buf.new ++ self.new.ahead.items }
        ensures some { 0 < length self.old.ahead.items → 0 < length buf.old → 0 < result }
        ensures same { self.new.stream ≡ self.old.stream }
    {
        let most = self.ahead.len().min(buf.len());
        let count = self
            .input
            .take_fitting(&self.ahead.as_slice()[..most], buf.len());
        buf[..count].copy_from_slice(&self.ahead.as_slice()[..count]);
        self.ahead.advance(count);
        count
    }

    /// Returns whether the stream is at a place within a request, by what was read from it.
    pub(crate) fn is_within_request(&self) -> bool {
        self.input.is_within_request(self.ahead.len())
    }

    /// Keeps the bytes that were read past the end of a request, or that are handed on later, of those that
    /// were read into a buffer with this room. Returns how many bytes are left to hand on: all of them if an
    /// allocation fails, since a stream gives them only once.
    fn keep_behind(&mut self, bytes: &[u8], room: usize) -> usize
        ensures bound { result ≤ length bytes.now }
        ensures kept { self.new.ahead.items ≡ self.old.ahead.items ++ drop result bytes.now }
        ensures some { 0 < length bytes.now → 0 < result }
        ensures same { self.new.stream ≡ self.old.stream }
    {
        let count = self.input.take_fitting(bytes, room);
        match self.ahead.extend_from_slice(&bytes[count..]) {
            Ok(()) => count,
            Err(_) => bytes.len(),
        }
    }
}

impl<T: AsyncRead> Socket<T> {
    /// Is ready once the stream has ended or failed. What comes before is kept for the reader.
    /// After `MOST_AHEAD` bytes the stream is taken to have ended, since its end would not be seen
    /// after them.
    pub(crate) fn poll_ended(&mut self, cx: &mut Context<'_>) -> Poll<()>
        ensures bytes { ReadsBehind T.reads self.old [] self.new }
        ensures registered { OnPending result (Covers cx.new (T.needs self.new.stream)) }
        ensures kept { Keeps cx.old cx.new }
    {
        if self.ahead.len() >= MOST_AHEAD {
            return Poll::Ready(());
        }
        match poll_read_buf(&mut self.stream, cx, &mut self.ahead) {
            Poll::Ready(Ok(count)) if count > 0 => cx.yield_now(),
            Poll::Ready(_) => Poll::Ready(()),
            Poll::Pending => Poll::Pending,
        }
    }

    /// Is ready once the stream has ended or failed, or `MOST_DRAINED` bytes have come. What comes
    /// is discarded. (Not inlined, so that no other turn of a connection takes stack for the
    /// buffer.)
    #[inline(never)]
    pub(crate) fn poll_drained(&mut self, cx: &mut Context<'_>) -> Poll<()>
        ensures bytes { ThrowsAway T.reads self.old self.new }
        ensures registered { OnPending result (Covers cx.new (T.needs self.new.stream)) }
        ensures kept { Keeps cx.old cx.new }
    {
        if self.drained >= MOST_DRAINED {
            return Poll::Ready(());
        }
        let mut thrown_away = [0; DRAINED_AT_ONCE];
        match self.stream.poll_read(cx, &mut thrown_away) {
            Poll::Ready(Ok(count)) if count > 0 => {
                self.stand.note_read(small(count));
                self.input.skip(count as u64);
                self.drained = self.drained.saturating_add(count as u64);
                cx.yield_now()
            }
            Poll::Ready(_) => Poll::Ready(()),
            Poll::Pending => Poll::Pending,
        }
    }
}

impl<T: AsyncRead> AsyncRead for Socket<T> {
    ghost use Rattle.http_connection.specs.Ahead.{IsAtEndBehind, ReadsBehind_in_order, ReadsBehind_nothing};

    ghost needs = { λ s. T.needs s.stream };

    ghost reads = { ReadsBehind T.reads };

    ghost is_at_end = { IsAtEndBehind T.is_at_end };

    ghost fails = { λ s. T.fails s.stream };

    ghost reads_nothing = { ReadsBehind_nothing T.reads T.reads_nothing };

    ghost reads_in_order = { ReadsBehind_in_order T.reads T.reads_in_order };

    /// Reads what was read ahead, or otherwise what comes, up to the end of a request, and notes
    /// how many bytes it was.
    fn poll_read(&mut self, cx: &mut Context<'_>, buf: &mut [u8]) -> Poll<io::Result<usize>> {
        if !self.ahead.is_empty() {
            let count = self.read_ahead(buf);
            self.stand.note_read(small(count));
            return Poll::Ready(Ok(count));
        }
        let room = buf.len();
        match self.stream.poll_read(cx, buf) {
            Poll::Pending => {
                self.stand.note_short();
                Poll::Pending
            }
            Poll::Ready(Err(fault)) => Poll::Ready(Err(fault)),
            Poll::Ready(Ok(read)) => {
                let count = self.keep_behind(&buf[..read], room);
                self.stand.note_read(small(count));
                Poll::Ready(Ok(count))
            }
        }
    }
}

/// Returns this count, or the greatest number if it is too large.
fn small(count: usize) -> u32 {
    u32::try_from(count).unwrap_or(u32::MAX)
}
