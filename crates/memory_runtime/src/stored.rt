//! A file of a disk.
ghost use Rattle.std.specs.Io.{ReadsAtMost, WritesAtMost};

use crate::disk::refused;
use crate::kind::Kind;
use std::alloc::{AllocError, Global};
use std::fs::{Metadata, OpenOptions};
use std::io;
use std::io::{Cursor, ErrorKind, Read, Seek, SeekFrom, Write};

/// The largest offset of a file, which a folder gives as its end.
const LAST_OFFSET: u64 = (1 << 63) - 1;

/// A file without its names.
#[derive(Drop)]
pub struct Stored {
    pub kind: Kind,
    pub bytes: Vec<u8>,
    /// What is added to it as soon as it is read.
    pub growth: Vec<u8>,
    /// The end that it is said to have, if it isn't that of its bytes.
    pub stated_end: Option<u64>,
}

/// Writes at an offset into some bytes, with zeros in a gap. The result is how many were written.
fn put(bytes: &mut Vec<u8>, at: u64, buf: &[u8]) -> io::Result<usize>
    ensures { WritesAtMost result buf.now }
{
    let mut cursor = Cursor::new(bytes);
    cursor.set_position(at);
    cursor.write(buf)
}

impl Stored {
    pub fn new(alloc: Global, kind: Kind, bytes: Vec<u8>) -> Stored {
        Stored {
            kind,
            bytes,
            growth: Vec::new(alloc),
            stated_end: None,
        }
    }

    /// What the system says without opening it: of whatever is no file of a file system, the length 0.
    pub fn metadata(&self) -> Metadata {
        match self.kind {
            Kind::Plain => Metadata::of_file(self.bytes.len() as u64),
            Kind::Block | Kind::Character => Metadata::of_file(0),
            Kind::Folder => Metadata::of_dir(),
        }
    }

    fn is_folder(&self) -> bool {
        matches!(self.kind, Kind::Folder)
    }

    /// Opens it, which empties it if that is asked for.
    pub fn open(&mut self, how: &OpenOptions) -> io::Result<()> {
        if how.asks_create_new() {
            return refused(ErrorKind::AlreadyExists);
        }
        if self.is_folder() && how.asks_write() {
            return refused(ErrorKind::IsADirectory);
        }
        if how.asks_truncate() {
            self.bytes.clear();
        }
        Ok(())
    }

    /// Makes it grow when it is read for the first time.
    fn grow(&mut self) -> Result<(), AllocError> {
        self.bytes.extend_from_slice(self.growth.as_slice())?;
        self.growth.clear();
        Ok(())
    }

    /// Reads from an offset on, which moves past what was read.
    pub fn read(&mut self, at: &mut u64, buf: &mut [u8]) -> io::Result<usize>
        ensures { ReadsAtMost result buf.new }
    {
        if self.is_folder() {
            return refused(ErrorKind::IsADirectory);
        }
        self.grow()?;
        let mut cursor = Cursor::new(self.bytes.as_slice());
        cursor.set_position(*at);
        let count = cursor.read(buf)?;
        *at = cursor.position();
        Ok(count)
    }

    /// Writes at an offset, which moves past what was written.
    pub fn write(&mut self, at: &mut u64, buf: &[u8]) -> io::Result<usize>
        ensures { WritesAtMost result buf.now }
    {
        let count = put(&mut self.bytes, *at, buf)?;
        *at = at.saturating_add(count as u64);
        Ok(count)
    }

    /// Moves an offset. The result is where it is then, or the end that the file is said to have.
    pub fn seek(&self, at: &mut u64, to: SeekFrom) -> io::Result<u64> {
        if self.is_folder() && to == SeekFrom::End(0) {
            return Ok(LAST_OFFSET);
        }
        if let Some(end) = self.stated_end
            && to == SeekFrom::End(0)
        {
            *at = end;
            return Ok(end);
        }
        let mut cursor = Cursor::new(self.bytes.as_slice());
        cursor.set_position(*at);
        *at = cursor.seek(to)?;
        Ok(*at)
    }
}
