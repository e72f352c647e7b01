//! An opened file.
use crate::call::Call;
use crate::disk::{Disk, refused};
use std::fs::{Metadata, OpenFile};
use std::io;
use std::io::{ErrorKind, Read, Seek, SeekFrom, Write};

/// A file of a disk, opened.
pub struct MemoryFile<'a> {
    disk: &'a Disk,
    /// Its number on the disk.
    pub(crate) number: usize,
    at: u64,
    reads: bool,
    writes: bool,
}

impl<'a> MemoryFile<'a> {
    /// The file of this number, at its start.
    pub(crate) fn new(disk: &'a Disk, number: usize, reads: bool, writes: bool) -> Self {
        MemoryFile {
            disk,
            number,
            at: 0,
            reads,
            writes,
        }
    }
}

/// The disk records that the file was closed, if there is memory for it.
impl Drop for MemoryFile<'_> {
    fn drop(self) {
        // A drop can't report that there is no memory.
        let _closed = self.disk.close(self.number);
        let MemoryFile {
            disk: _,
            number: _,
            at: _,
            reads: _,
            writes: _,
        } = self;
    }
}

impl Read for MemoryFile<'_> {
    fn read(&mut self, buf: &mut [u8]) -> io::Result<usize> {
        self.disk.count(Call::Read)?;
        if !self.reads {
            return refused(ErrorKind::PermissionDenied);
        }
        let mut contents = self.disk.contents()?;
        contents.file(self.number)?.read(&mut self.at, buf)
    }
}

impl Write for MemoryFile<'_> {
    fn write(&mut self, buf: &[u8]) -> io::Result<usize> {
        self.disk.count(Call::Write)?;
        if !self.writes {
            return refused(ErrorKind::PermissionDenied);
        }
        let mut contents = self.disk.contents()?;
        contents.file(self.number)?.write(&mut self.at, buf)
    }

    fn flush(&mut self) -> io::Result<()> {
        Ok(())
    }
}

impl Seek for MemoryFile<'_> {
    fn seek(&mut self, to: SeekFrom) -> io::Result<u64> {
        self.disk.count(Call::Seek)?;
        let mut contents = self.disk.contents()?;
        contents.file(self.number)?.seek(&mut self.at, to)
    }
}

impl OpenFile for MemoryFile<'_> {
    fn metadata(&self) -> io::Result<Metadata> {
        self.disk.count(Call::Metadata)?;
        self.disk.metadata(self.number)
    }

    fn set_len(&self, _size: u64) -> io::Result<()> {
        refused(ErrorKind::Unsupported)
    }

    fn sync_all(&self) -> io::Result<()> {
        self.disk.sync(self.number)
    }

    fn sync_data(&self) -> io::Result<()> {
        self.sync_all()
    }
}
