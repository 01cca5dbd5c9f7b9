//! Readers whose reads are counted, so that a contract can bound them.
//!
//! Whoever is generic over [`CountedRead`] knows of the count only that each [`read_once`](CountedRead::read_once) adds
//! one, so a bound on the count is a bound on the reads: after any other read nothing is known of it.
ghost use Rattle.std.specs.Prelude.{◌≡◌, ◌+◌, ◌<◌, ℕ};
ghost use Rattle.std.specs.Io.{ReadsAtMost};
ghost use Rattle.std.specs.Io.KnownBytes.{ReadConsumes};

use crate::steps::Steps;
use std::io;
use std::io::Read;
use std::sync::ledger::{Blank, Ledger};

/// A reader whose reads are counted.
pub(crate) trait CountedRead: Read {
    /// How many reads were made.
    ghost reads: { Self → ℕ };

    /// One read, which counts as one whether it fails or not. One that fails isn't tried again.
    fn read_once(&mut self, buf: &mut [u8]) -> io::Result<usize>
        ensures counted { reads self.new ≡ reads self.old + 1 }
        ensures bound { ReadsAtMost result buf.new }
        ensures bytes { ReadConsumes (Self.remaining self.old) (Self.remaining self.new) result buf.new };
}

/// A reader that is lent, with a count of its reads, which the proof keeps in a ledger of its own.
#[derive(Drop)]
pub(crate) struct Counted<'a, R, L: Ledger> {
    reader: &'a mut R,
    steps: Steps<L>,
}

impl<'a, R: Read, L: Ledger> Counted<'a, R, L> {
    /// The reader, of whose reads none was made.
    pub(crate) fn new(reader: &'a mut R, blank: Blank) -> Counted<'a, R, L>
        requires name { blank.name ≡ L.name }
        requires parts { blank.parts ≡ L.parts }
        requires some { 0 < blank.parts }
        ensures { result.reader.now ≡ reader.entry.now }
    {
        Counted {
            reader,
            steps: Steps::new(blank),
        }
    }
}

impl<R: Read, L: Ledger> Read for Counted<'_, R, L> {
    ghost remaining = { λ counted. R.remaining counted.reader.now };

    fn read(&mut self, buf: &mut [u8]) -> io::Result<usize> {
        self.reader.read(buf)
    }
}

impl<R: Read, L: Ledger> CountedRead for Counted<'_, R, L> {
    ghost reads = { λ counted. counted.steps };

    fn read_once(&mut self, buf: &mut [u8]) -> io::Result<usize> {
        self.steps.tick();
        self.reader.read(buf)
    }
}
