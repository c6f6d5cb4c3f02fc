//! A reader or a writer that knows whether a call on it has failed.
ghost use Rattle.std.specs.Prelude.{◌≡◌, ◌||◌, false, not, is_ok, OnOk};
ghost use Rattle.std.specs.Io.{ReadsAtMost, WritesAtMost};
ghost use Rattle.std.specs.Io.KnownBytes.{Appends, Consumes, Keeps, ReadConsumes, WriteAppends};

use std::io::{self, Read, Write};

/// A reader or a writer, and whether a call on it has failed.
#[derive(Drop)]
pub struct Watched<T> {
    inner: T,
    failed: bool,
}

impl<T> Watched<T> {
    ghost use Rattle.story_player.specs.Watches.{watched_failed, watched_inner};

    /// Watches a reader or a writer; nothing has failed so far.
    pub fn new(inner: T) -> Watched<T>
        ensures inner { watched_inner result ≡ inner }
        ensures failed { watched_failed result ≡ false }
    {
        Watched {
            inner,
            failed: false,
        }
    }

    /// The reader or the writer, watched no more.
    pub fn into_inner(self) -> T
        ensures { result ≡ watched_inner self }
    {
        self.inner
    }

    /// Whether a call has failed, or a write of some bytes took none.
    pub fn has_failed(&self) -> bool
        ensures { result ≡ watched_failed self.now }
    {
        self.failed
    }
}

impl<R: Read> Read for Watched<R> {
    ghost use Rattle.story_player.specs.Watches.{watched_failed, watched_inner};

    ghost remaining = { λ w. R.remaining (watched_inner w) };

    fn read(&mut self, buf: &mut [u8]) -> io::Result<usize>
        ensures bound { ReadsAtMost result buf.new }
        ensures bytes { ReadConsumes (R.remaining (watched_inner self.old)) (R.remaining (watched_inner self.new)) result buf.new }
        ensures failed { watched_failed self.new ≡ (watched_failed self.old || not (is_ok result)) }
    {
        let result = self.inner.read(buf);
        if result.is_err() {
            self.failed = true;
        }
        result
    }

    fn read_exact(&mut self, buf: &mut [u8]) -> io::Result<()>
        ensures bytes { OnOk result (Consumes (R.remaining (watched_inner self.old)) (R.remaining (watched_inner self.new)) buf.new) }
        ensures failed { watched_failed self.new ≡ (watched_failed self.old || not (is_ok result)) }
    {
        let result = self.inner.read_exact(buf);
        if result.is_err() {
            self.failed = true;
        }
        result
    }
}

impl<W: Write> Write for Watched<W> {
    ghost use Rattle.story_player.specs.Watches.{fails_to_write, watched_failed, watched_inner};

    ghost contents = { λ w. W.contents (watched_inner w) };

    fn write(&mut self, buf: &[u8]) -> io::Result<usize>
        ensures bound { WritesAtMost result buf.now }
        ensures bytes { WriteAppends (W.contents (watched_inner self.old)) (W.contents (watched_inner self.new)) result buf.now }
        ensures failed { watched_failed self.new ≡ (watched_failed self.old || fails_to_write result buf.now) }
    {
        let result = self.inner.write(buf);
        let is_taken = match &result {
            Ok(count) => *count > 0 || buf.is_empty(),
            Err(_) => false,
        };
        if !is_taken {
            self.failed = true;
        }
        result
    }

    fn flush(&mut self) -> io::Result<()>
        ensures bytes { Keeps (W.contents (watched_inner self.old)) (W.contents (watched_inner self.new)) }
        ensures failed { watched_failed self.new ≡ (watched_failed self.old || not (is_ok result)) }
    {
        let result = self.inner.flush();
        if result.is_err() {
            self.failed = true;
        }
        result
    }

    fn write_all(&mut self, buf: &[u8]) -> io::Result<()>
        ensures bytes { OnOk result (Appends (W.contents (watched_inner self.old)) (W.contents (watched_inner self.new)) buf.now) }
        ensures failed { watched_failed self.new ≡ (watched_failed self.old || not (is_ok result)) }
    {
        let result = self.inner.write_all(buf);
        if result.is_err() {
            self.failed = true;
        }
        result
    }
}
