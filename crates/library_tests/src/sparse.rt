//! A file that starts with a hole, gives a few bytes at a time, and is interrupted.
use std::io;
use std::io::{ErrorKind, Read, Seek, SeekFrom, Write};

/// An offset that is too large for a u32.
pub const FAR: u64 = 5_000_000_000;

/// How often a call of an interrupted file fails before it goes through.
pub const INTERRUPTS: u32 = 1000;

/// A file with a hole at its start: nothing below `first` can be read or written. A call gives or takes `most` bytes
/// at most, and goes through after this many interrupts. No offset above `top` can be reached. A sync ends with
/// `sync_error`.
#[derive(Drop)]
pub struct Sparse {
    first: u64,
    pub bytes: Vec<u8>,
    offset: u64,
    pub top: u64,
    pub sync_error: Option<ErrorKind>,
    most: usize,
    interrupts: u32,
    interrupted: u32,
}

impl Sparse {
    pub fn new(first: u64, bytes: Vec<u8>, most: usize, interrupts: u32) -> Self {
        Sparse {
            first,
            bytes,
            offset: first,
            top: u64::MAX,
            sync_error: None,
            most,
            interrupts,
            interrupted: 0,
        }
    }

    /// Where the next byte stands in `bytes`.
    fn begin(&mut self) -> io::Result<usize> {
        if self.interrupted < self.interrupts {
            self.interrupted = self.interrupted.saturating_add(1);
            return Err(io::Error::from(ErrorKind::Interrupted));
        }
        self.interrupted = 0;
        if self.offset < self.first {
            return Err(io::Error::from(ErrorKind::InvalidInput));
        }
        Ok((self.offset - self.first) as usize)
    }
}

impl Seek for Sparse {
    fn seek(&mut self, to: SeekFrom) -> io::Result<u64> {
        match to {
            SeekFrom::Start(at) if at <= self.top => self.offset = at,
            SeekFrom::End(0) => self.offset = self.first.saturating_add(self.bytes.len() as u64),
            _ => return Err(io::Error::from(ErrorKind::InvalidInput)),
        }
        Ok(self.offset)
    }
}

impl Read for Sparse {
    fn read(&mut self, buf: &mut [u8]) -> io::Result<usize> {
        let at = self.begin()?;
        if at >= self.bytes.len() {
            return Ok(0);
        }
        let count = buf.len().min(self.bytes.len() - at).min(self.most);
        buf[..count].copy_from_slice(&self.bytes[at..at + count]);
        self.offset = self.offset.saturating_add(count as u64);
        Ok(count)
    }
}

impl Write for Sparse {
    fn write(&mut self, buf: &[u8]) -> io::Result<usize> {
        let at = self.begin()?;
        let count = buf.len().min(self.most);
        let end = at.saturating_add(count);
        if self.bytes.len() < end {
            self.bytes.resize(end, 0)?;
        }
        self.bytes[at..end].copy_from_slice(&buf[..count]);
        self.offset = self.offset.saturating_add(count as u64);
        Ok(count)
    }

    fn flush(&mut self) -> io::Result<()> {
        Ok(())
    }
}
