//! A source over a reader of std, and a sink over a writer of std.
ghost use Rattle.std.specs.Prelude.{◌≡◌};

use crate::ends::{Failed, PutFault, Sink, Source};
use crate::mem::{ends_after, next_count};
use std::io::{Read, Write};
use std::marker::Model;

/// A source over a reader of std. It passes on what the reader tells of its bytes, and counts each `Err` of the reader, and
/// each time that the reader says that no bytes are left.
#[derive(Drop)]
pub struct ReadFrom<R: Read> {
    inner: R,
    faults: u64,
    ends_told: u64,
}

impl<R: Read> Model for ReadFrom<R> {
    ghost use Rattle.std.specs.Prelude.{ℕ};
    ghost use Rattle.std.specs.Coded.{coded×, coded_ℕ};

    ghost Value = { R × (ℕ × ℕ) };

    ghost coded = { coded× R.code (coded× coded_ℕ coded_ℕ) };

    ghost view = { λ s. (s.inner, (s.faults, s.ends_told)) };
}

impl<R: Read> ReadFrom<R> {
    /// A source over this reader. No fault and no end has been counted yet.
    pub fn new(inner: R) -> ReadFrom<R>
        ensures { result ≡ (inner, (0, 0)) }
    {
        ReadFrom {
            inner,
            faults: 0,
            ends_told: 0,
        }
    }
}

impl<R: Read> Source for ReadFrom<R> {
    ghost use Rattle.std.specs.Prelude.{Ok, ◌≡◌, ◌<◌, ◌≤◌, IfOk, OnErr, OnOk, length, take};
    ghost use Rattle.std.specs.Io.KnownBytes.{Consumes, IsAtEnd, Keeps};
    ghost use Rattle.px_io.specs.Causes.{HasCause, CountsEnd, one_more};

    ghost left = { λ s. R.remaining s.0 };

    ghost faults = { λ s. s.1.0 };

    ghost ends_told = { λ s. s.1.1 };

    fn take(&mut self, space: &mut [u8]) -> Result<usize, Failed>
        requires { 0 < length space.old }
        ensures within { IfOk result (λ k. k ≤ length space.old) }
        ensures moved { IfOk result (λ k. Consumes (R.remaining self.old.0) (R.remaining self.new.0) (take k space.new)) }
        ensures ended { result ≡ Ok 0 → IsAtEnd (R.remaining self.new.0) }
        ensures kept { OnErr result (Keeps (R.remaining self.old.0) (R.remaining self.new.0)) }
        ensures cause { HasCause self.old.1.0 self.new.1.0 result }
        ensures uncounted { OnOk result (self.new.1.0 ≡ self.old.1.0) }
        ensures counted { OnErr result (self.new.1.0 ≡ one_more self.old.1.0) }
        ensures told { CountsEnd self.old.1.1 self.new.1.1 result }
    {
        match self.inner.read(space) {
            Ok(count) => {
                self.ends_told = ends_after(self.ends_told, count);
                Ok(count)
            }
            Err(_) => {
                self.faults = next_count(self.faults);
                Err(Failed)
            }
        }
    }
}

/// A sink over a writer of std. It passes on what the writer tells of its bytes, flushes after each piece, and counts
/// each `Err` of the writer and each piece of which the writer takes nothing.
#[derive(Drop)]
pub struct WriteTo<W: Write> {
    inner: W,
    faults: u64,
}

impl<W: Write> Model for WriteTo<W> {
    ghost use Rattle.std.specs.Prelude.{ℕ};
    ghost use Rattle.std.specs.Coded.{coded×, coded_ℕ};

    ghost Value = { W × ℕ };

    ghost coded = { coded× W.code coded_ℕ };

    ghost view = { λ s. (s.inner, s.faults) };
}

impl<W: Write> WriteTo<W> {
    /// A sink over this writer. No fault has been counted yet.
    pub fn new(inner: W) -> WriteTo<W>
        ensures { result ≡ (inner, 0) }
    {
        WriteTo { inner, faults: 0 }
    }
}

impl<W: Write> Sink for WriteTo<W> {
    ghost use Rattle.std.specs.Prelude.{Err, ◌≡◌, ◌<◌, ◌≤◌, IfErr, IfOk, OnErr, OnOk, length, take};
    ghost use Rattle.std.specs.Io.KnownBytes.{Appends};
    ghost use Rattle.px_io.specs.Causes.{AppendsPrefix, one_more};

    ghost written = { λ s. W.contents s.0 };

    ghost faults = { λ s. s.1 };

    ghost wants = { λ s. 0 };

    fn put(&mut self, piece: &[u8]) -> Result<usize, PutFault>
        requires { 0 < length piece.now }
        ensures within { IfOk result (λ k. (0 < k) × (k ≤ length piece.now)) }
        ensures appended { IfOk result (λ k. Appends (W.contents self.old.0) (W.contents self.new.0) (take k piece.now)) }
        ensures partly { OnErr result (AppendsPrefix (W.contents self.old.0) (W.contents self.new.0) piece.now) }
        ensures failed { IfErr result (λ fault. fault ≡ PutFault.Failed) }
        ensures uncounted { OnOk result (self.new.1 ≡ self.old.1) }
        ensures counted { OnErr result (self.new.1 ≡ one_more self.old.1) }
        ensures faults_later { self.old.1 ≤ self.new.1 }
    {
        match self.inner.write(piece) {
            Ok(count) if 0 < count => match self.inner.flush() {
                Ok(()) => Ok(count),
                Err(_) => {
                    self.faults = next_count(self.faults);
                    Err(PutFault::Failed)
                }
            },
            _ => {
                self.faults = next_count(self.faults);
                Err(PutFault::Failed)
            }
        }
    }
}
