//! Standard error.
ghost use Rattle.std.specs.Prelude.{◌≤◌, length, IfOk};

use crate::disk::Disk;
use std::io;
use std::io::Write;

/// Standard error, of which the disk keeps what is written.
#[derive(Clone, Copy)]
pub struct StandardError<'a> {
    disk: &'a Disk,
}

impl<'a> StandardError<'a> {
    /// The standard error of the programs that run over a disk.
    pub fn new(disk: &'a Disk) -> Self {
        StandardError { disk }
    }
}

impl Write for StandardError<'_> {
    fn write(&mut self, buf: &[u8]) -> io::Result<usize> {
        self.disk.contents()?.standard_error.extend_from_slice(buf)?;
        Ok(buf.len())
    }

    fn flush(&mut self) -> io::Result<()> {
        Ok(())
    }
}
