//! A disk that a test fills, lets programs run over, and then looks at.
ghost use Rattle.std.specs.Prelude.{IsErr};

use crate::call::{Call, Calls};
use crate::contents::Contents;
use crate::kind::Kind;
use crate::stored::Stored;
use command_line::FileIdentity;
use std::alloc::Global;
use std::cell::{Cell, RefCell, RefMut};
use std::fs::{Metadata, OpenOptions};
use std::io;
use std::io::ErrorKind;

/// Files by their names, what was opened, and which calls fail. Each error says that there is no memory, or no file
/// with the given name.
#[derive(Drop)]
pub struct Disk {
    alloc: Global,
    contents: RefCell<Contents>,
    calls: Cell<Calls>,
    /// How often the clock was read.
    pub(crate) clock_reads: Cell<u64>,
    /// How often the runtime was asked for the step of the progress line.
    pub(crate) looks: Cell<u64>,
    /// How many random bytes the runtime was asked for.
    pub(crate) random_bytes: Cell<u64>,
}

/// Adds to a count. The result is the sum.
pub(crate) fn add(count: &Cell<u64>, more: u64) -> u64 {
    let sum = count.get().saturating_add(more);
    count.set(sum);
    sum
}

/// An error of this kind.
pub(crate) fn refused<T>(kind: ErrorKind) -> io::Result<T>
    ensures { IsErr result }
{
    Err(io::Error::from(kind))
}

impl Disk {
    /// No file is there, and nothing fails.
    pub fn new(alloc: Global) -> Disk {
        Disk {
            alloc,
            contents: RefCell::new(Contents::new(alloc)),
            calls: Cell::new(Calls::NONE),
            clock_reads: Cell::new(0),
            looks: Cell::new(0),
            random_bytes: Cell::new(0),
        }
    }

    /// The contents, to be read or changed.
    pub(crate) fn contents(&self) -> io::Result<RefMut<'_, Contents>> {
        let contents = self.contents.try_borrow_mut();
        contents.map_err(|_| io::Error::from(ErrorKind::ResourceBusy))
    }

    /// Makes a file with these bytes.
    pub fn make(&self, name: &str, bytes: Vec<u8>) -> io::Result<()> {
        self.make_kind(name, Kind::Plain, bytes)
    }

    /// Makes a file of a kind.
    pub fn make_kind(&self, name: &str, kind: Kind, bytes: Vec<u8>) -> io::Result<()> {
        let stored = Stored::new(self.alloc, kind, bytes);
        let _number = self.contents()?.make(self.alloc, name, stored)?;
        Ok(())
    }

    /// Gives the file of this name another name as well.
    pub fn link(&self, name: &str, other: &str) -> io::Result<()> {
        self.contents()?.link(self.alloc, name, other)
    }

    /// From when a path is opened on, lets another path, or the same one, lead to the file that a third leads to then.
    pub fn lead(&self, opened: &str, name: &str, other: &str) -> io::Result<()> {
        Ok(self.contents()?.lead(self.alloc, opened, name, other)?)
    }

    /// Makes the file of this name grow by these bytes as soon as it is read.
    pub fn grow(&self, name: &str, bytes: &[u8]) -> io::Result<()> {
        let mut contents = self.contents()?;
        Ok(contents.file_of(name)?.growth.extend_from_slice(bytes)?)
    }

    /// Lets the file of this name end there when its end is sought, whatever bytes it gives: it is as if it became
    /// longer or shorter after that.
    pub fn end_at(&self, name: &str, end: u64) -> io::Result<()> {
        self.contents()?.file_of(name)?.stated_end = Some(end);
        Ok(())
    }

    /// Makes the call of this number fail, counted from 1 over all files, and no other.
    pub fn fail(&self, call: Call, number: u64) -> io::Result<()> {
        let mut calls = self.calls.get();
        calls.failing = (call, number);
        self.calls.set(calls);
        Ok(())
    }

    /// Whether a file has this name.
    pub fn has(&self, name: &str) -> io::Result<bool> {
        Ok(self.contents()?.number_of(name).is_some())
    }

    /// The number of the file of this name.
    pub(crate) fn number_of(&self, name: &str) -> Option<usize> {
        self.contents().ok()?.number_of(name)
    }

    /// The identity of the file of this number.
    pub(crate) fn identity(&self, number: usize) -> Option<FileIdentity> {
        let inode = number as u64;
        match self.contents().ok()?.kind_of(number)? {
            Kind::Plain => Some(FileIdentity::Regular { device: 1, inode }),
            Kind::Block => Some(FileIdentity::BlockDevice { number: inode }),
            Kind::Character | Kind::Folder => None,
        }
    }

    /// The bytes of the file of this name.
    pub fn bytes_of(&self, name: &str) -> io::Result<Vec<u8>> {
        let mut contents = self.contents()?;
        Ok(contents.file_of(name)?.bytes.to_vec(self.alloc)?)
    }

    /// What was opened, in order, each in a line such as `hash: read write create`. An opening that failed counts. A
    /// line ends with `other_mode` if it asks for other permissions of a new file than reading and writing for
    /// everybody.
    pub fn opened(&self) -> io::Result<String> {
        Ok(String::from_str(self.alloc, self.contents()?.opened.as_str())?)
    }

    /// What was opened, synced and closed again, in order, each in a line such as `open hash`, `sync hash` or
    /// `close hash`. A file goes by its first name.
    pub fn held(&self) -> io::Result<String> {
        Ok(String::from_str(self.alloc, self.contents()?.held.as_str())?)
    }

    /// What the system says of the file of this number.
    pub(crate) fn metadata(&self, number: usize) -> io::Result<Metadata> {
        Ok(self.contents()?.file(number)?.metadata())
    }

    /// What was written to standard error.
    pub fn standard_error(&self) -> io::Result<Vec<u8>> {
        Ok(self.contents()?.standard_error.to_vec(self.alloc)?)
    }

    /// How often a call was made, over all files.
    pub fn calls(&self, call: Call) -> io::Result<u64> {
        Ok(self.calls.get().made(call))
    }

    /// How often the runtimes over this disk were asked for the step of the progress line.
    pub fn looks(&self) -> io::Result<u64> {
        Ok(self.looks.get())
    }

    /// How often the runtimes over this disk read the clock.
    pub fn clock_reads(&self) -> io::Result<u64> {
        Ok(self.clock_reads.get())
    }

    /// How many random bytes the runtimes over this disk were asked for.
    pub fn random_bytes(&self) -> io::Result<u64> {
        Ok(self.random_bytes.get())
    }

    /// Counts a call. The result is whether it fails.
    fn fails(&self, call: Call) -> bool {
        let mut calls = self.calls.get();
        let fails = calls.fails(call);
        self.calls.set(calls);
        fails
    }

    /// Counts a call, and refuses the one that fails.
    pub(crate) fn count(&self, call: Call) -> io::Result<()> {
        if self.fails(call) {
            return refused(ErrorKind::Other);
        }
        Ok(())
    }

    /// Opens a name. The result is the number of its file.
    pub(crate) fn open(&self, how: &OpenOptions, name: &str) -> io::Result<usize> {
        self.contents()?.write_down(self.alloc, how, name)?;
        if self.fails(Call::Open) {
            return refused(ErrorKind::PermissionDenied);
        }
        self.contents()?.open(self.alloc, how, name)
    }

    /// Syncs the file of this number. It is recorded if it doesn't fail.
    pub(crate) fn sync(&self, number: usize) -> io::Result<()> {
        self.count(Call::Sync)?;
        Ok(self.contents()?.hold("sync", number)?)
    }

    /// Records that a file was closed.
    pub(crate) fn close(&self, number: usize) -> io::Result<()> {
        Ok(self.contents()?.hold("close", number)?)
    }
}
