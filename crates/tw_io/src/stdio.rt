ghost use Rattle.std.specs.Prelude.{◌≡◌};

use crate::{Failed, Sink, Source};
use std::io::{Read, Write};
use std::marker::Model;

/// A source over a reader of std. What it has left is told where the reader tells it.
#[derive(Drop)]
pub struct StdSource<R: Read> {
    inner: R,
    faults: u64,
}

impl<R: Read> Model for StdSource<R> {
    ghost use Rattle.tw_io.specs.Told.{Told};

    ghost Value = { Told };

    ghost view = { λ s. record { bytes = R.remaining s.inner; faults = s.faults } };
}

impl<R: Read> StdSource<R> {
    ghost use Rattle.tw_io.specs.Told.{Told};

    pub fn new(inner: R) -> Self
        ensures { let fresh : Told = record { bytes = R.remaining inner; faults = 0 } in result ≡ fresh }
    {
        StdSource { inner, faults: 0 }
    }
}

impl<R: Read> Source for StdSource<R> {
    ghost left = { λ s. s.bytes };

    ghost faults = { λ s. s.faults };

    fn read(&mut self, into: &mut [u8]) -> Result<usize, Failed> {
        match self.inner.read(into) {
            Ok(count) => Ok(count),
            Err(_) => {
                self.faults = self.faults.saturating_add(1);
                Err(Failed)
            }
        }
    }
}

/// A sink over a writer of std. What was written is told where the writer tells it.
#[derive(Drop)]
pub struct StdSink<W: Write> {
    inner: W,
    faults: u64,
}

impl<W: Write> Model for StdSink<W> {
    ghost use Rattle.tw_io.specs.Told.{Told};

    ghost Value = { Told };

    ghost view = { λ k. record { bytes = W.contents k.inner; faults = k.faults } };
}

impl<W: Write> StdSink<W> {
    ghost use Rattle.tw_io.specs.Told.{Told};

    pub fn new(inner: W) -> Self
        ensures { let fresh : Told = record { bytes = W.contents inner; faults = 0 } in result ≡ fresh }
    {
        StdSink { inner, faults: 0 }
    }
}

impl<W: Write> Sink for StdSink<W> {
    ghost written = { λ k. k.bytes };

    ghost faults = { λ k. k.faults };

    /// A writer that takes nothing has failed.
    fn write(&mut self, piece: &[u8]) -> Result<usize, Failed> {
        match self.inner.write(piece) {
            Ok(count) if count > 0 => Ok(count),
            _ => {
                self.faults = self.faults.saturating_add(1);
                Err(Failed)
            }
        }
    }
}
