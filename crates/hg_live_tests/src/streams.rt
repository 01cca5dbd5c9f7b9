//! Readers and writers that give little, fail or count.
use std::io;
use std::io::{Error, ErrorKind, Read, Write};

/// Gives one byte a read.
#[derive(Drop)]
pub struct OneByte<'a>(pub &'a [u8]);

impl Read for OneByte<'_> {
    fn read(&mut self, buf: &mut [u8]) -> io::Result<usize> {
        match (self.0.split_first(), buf.first_mut()) {
            (Some((first, rest)), Some(place)) => {
                *place = *first;
                self.0 = rest;
                Ok(1)
            }
            _ => Ok(0),
        }
    }
}

/// Gives a number sign a number of times, one a read, and then fails.
#[derive(Drop)]
pub struct Failing(pub usize);

impl Read for Failing {
    fn read(&mut self, buf: &mut [u8]) -> io::Result<usize> {
        if self.0 == 0 {
            return Err(Error::from(ErrorKind::Interrupted));
        }
        match buf.first_mut() {
            Some(place) => {
                *place = b'#';
                self.0 -= 1;
                Ok(1)
            }
            None => Ok(0),
        }
    }
}

/// Takes a number of writes, and then fails.
#[derive(Drop)]
pub struct Full(pub usize);

impl Write for Full {
    fn write(&mut self, buf: &[u8]) -> io::Result<usize> {
        if self.0 == 0 {
            return Err(Error::from(ErrorKind::WriteZero));
        }
        self.0 -= 1;
        Ok(buf.len())
    }

    fn flush(&mut self) -> io::Result<()> {
        Ok(())
    }
}

/// Counts the writes, and those that end with LF.
#[derive(Drop)]
pub struct Noting {
    pub writes: usize,
    pub lines: usize,
}

impl Write for Noting {
    fn write(&mut self, buf: &[u8]) -> io::Result<usize> {
        self.writes = self.writes.saturating_add(1);
        if buf.last() == Some(&b'\n') {
            self.lines = self.lines.saturating_add(1);
        }
        Ok(buf.len())
    }

    fn flush(&mut self) -> io::Result<()> {
        Ok(())
    }
}
