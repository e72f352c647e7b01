//! The runtime.
ghost use Rattle.std.specs.Io.{WritesAtMost};

use crate::call::Call;
use crate::disk::{Disk, add, refused};
use crate::file::MemoryFile;
use crate::standard_error::StandardError;
use command_line::{FileIdentity, Identities, ProgressRuntime};
use std::alloc::{Allocator, Global};
use std::env::{Env, FillError};
use std::fmt::Display;
use std::fs::{Metadata, OpenOptions};
use std::io;
use std::io::{Empty, Eprint, ErrorKind, Write};
use std::random::RandomSource;
use std::rt::Files;
use std::time::{Clock, Duration};

/// A runtime over a disk. What isn't provided here is refused, such as directories and environment variables.
#[derive(Clone, Copy)]
pub struct MemoryRuntime<'a> {
    alloc: Global,
    disk: &'a Disk,
    /// The words of the command line, the program's name first, with a space between two. A word written as '' is
    /// empty.
    words: &'a str,
    /// More words after these.
    pub more_words: &'a [String],
    /// One more word at the end, which needn't be text.
    pub last_word: Option<&'a [u8]>,
    /// The random bytes, which are repeated over and over. If there are none, requests for them are refused.
    pub random: &'a [u8],
    /// How many bytes of work pass before the progress line is written again, if standard error is a terminal.
    pub step: Option<u64>,
}

impl<'a> MemoryRuntime<'a> {
    /// A runtime with these words of the command line, the program's name first and a space between two. A word written
    /// as '' is empty. Its random bytes are all 7, and standard error is no terminal.
    pub fn new(alloc: Global, disk: &'a Disk, words: &'a str) -> Self {
        MemoryRuntime {
            alloc,
            disk,
            words,
            more_words: &[],
            last_word: None,
            random: &[7],
            step: None,
        }
    }
}

impl Alloc for MemoryRuntime<'_> {
    type A = Global;

    fn alloc(&self) -> Global {
        self.alloc
    }
}

impl RandomSource for MemoryRuntime<'_> {
    fn fill_bytes(&self, buf: &mut [u8]) -> io::Result<()> {
        if self.random.is_empty() {
            return refused(ErrorKind::Unsupported);
        }
        add(&self.disk.random_bytes, buf.len() as u64);
        for (i, byte) in buf.iter_mut().enumerate() {
            let place = i.checked_rem(self.random.len()).unwrap_or(0);
            *byte = self.random.get(place).copied().unwrap_or(0);
        }
        Ok(())
    }
}

/// Copies a word to the front of a buffer.
fn copied(word: &[u8], buf: &mut [u8]) -> Result<usize, FillError>
    ensures { WritesAtMost result buf.new }
{
    if word.len() > buf.len() {
        return Err(FillError::TooLong);
    }
    buf[..word.len()].copy_from_slice(word);
    Ok(word.len())
}

impl Env for MemoryRuntime<'_> {
    fn arg(&self, i: usize, buf: &mut [u8]) -> Result<usize, FillError> {
        match self.words.split(' ').nth(i) {
            Some("''") => return Ok(0),
            Some(word) => return copied(word.as_bytes(), buf),
            None => {}
        }
        let number = i.saturating_sub(self.words.split(' ').count());
        match (self.more_words.get(number), self.last_word) {
            (Some(word), _) => copied(word.as_bytes(), buf),
            (None, Some(word)) if number == self.more_words.len() => copied(word, buf),
            (None, _) => Err(FillError::NotPresent),
        }
    }

    fn var(&self, _name: &str, _buf: &mut [u8]) -> Result<usize, FillError> {
        Err(FillError::NotPresent)
    }

    fn var_at(&self, _i: usize, _buf: &mut [u8]) -> Result<usize, FillError> {
        Err(FillError::NotPresent)
    }
}

impl<'a> Files for MemoryRuntime<'a> {
    type File = MemoryFile<'a>;

    type Dir = Empty;

    fn open_file(&self, how: &OpenOptions, path: &str) -> io::Result<MemoryFile<'a>> {
        how.check()?;
        let number = self.disk.open(how, path)?;
        let writes = how.asks_write() || how.asks_append();
        Ok(MemoryFile::new(self.disk, number, how.asks_read(), writes))
    }

    fn open_dir(&self, _path: &str) -> io::Result<Empty> {
        refused(ErrorKind::Unsupported)
    }

    fn metadata(&self, path: &str) -> io::Result<Metadata> {
        self.disk.count(Call::Metadata)?;
        match self.disk.number_of(path) {
            Some(number) => self.disk.metadata(number),
            None => refused(ErrorKind::NotFound),
        }
    }

    fn symlink_metadata(&self, _path: &str) -> io::Result<Metadata> {
        refused(ErrorKind::Unsupported)
    }

    fn copy(&self, _from: &str, _to: &str) -> io::Result<u64> {
        refused(ErrorKind::Unsupported)
    }

    fn rename(&self, _from: &str, _to: &str) -> io::Result<()> {
        refused(ErrorKind::Unsupported)
    }

    fn remove_file(&self, _path: &str) -> io::Result<()> {
        refused(ErrorKind::Unsupported)
    }

    fn create_dir(&self, _path: &str) -> io::Result<()> {
        refused(ErrorKind::Unsupported)
    }

    fn remove_dir(&self, _path: &str) -> io::Result<()> {
        refused(ErrorKind::Unsupported)
    }

    fn remove_dir_all<B: Allocator>(&self, _alloc: B, _path: &str) -> io::Result<()> {
        refused(ErrorKind::Unsupported)
    }
}

impl Identities for MemoryRuntime<'_> {
    fn path_identity(&self, path: &str) -> Option<FileIdentity> {
        self.disk.identity(self.disk.number_of(path)?)
    }

    fn file_identity(&self, file: &Self::File) -> Option<FileIdentity> {
        self.disk.identity(file.number)
    }
}

/// Half a second passes between two readings of the clock.
impl Clock for MemoryRuntime<'_> {
    fn monotonic(&self) -> io::Result<Duration> {
        let reads = add(&self.disk.clock_reads, 1);
        Ok(Duration::from_millis(reads.saturating_mul(500)))
    }

    fn since_1970(&self) -> io::Result<Duration> {
        refused(ErrorKind::Unsupported)
    }
}

impl Eprint for MemoryRuntime<'_> {
    fn eprint<D: Display + Drop>(&self, value: D) -> io::Result<()> {
        write!(StandardError::new(self.disk), "{value}")
    }

    fn eprintln<D: Display + Drop>(&self, value: D) -> io::Result<()> {
        writeln!(StandardError::new(self.disk), "{value}")
    }
}

impl ProgressRuntime for MemoryRuntime<'_> {
    fn step(&self) -> Option<u64> {
        add(&self.disk.looks, 1);
        self.step
    }
}
