//! A source over an opened file.
ghost use Rattle.std.specs.Prelude.{◌≡◌, ◌≢◌, ◌≤◌, [], take, length, IfErr, IfOk, IsSome, unwrap_or};
ghost use Rattle.std.specs.Io.KnownBytes.{ReadConsumes};
ghost use Rattle.std.specs.Io.Take.{take_remaining};
ghost use Rattle.std.specs.IoError.{error_kind};

use crate::failed::{Failed, count_failure};
use crate::source::Source;
use std::fs::File;
use std::io;
use std::io::{ErrorKind, Read, Take};

/// The bytes of an opened file from where it stands on, up to a length. The length is the one found at opening: a file
/// that grows while it is read, because the hash blocks are written into it, gives no more. Over a file of the system
/// it doesn't tell its bytes; over a reader whose bytes are known it does.
#[derive(Drop)]
pub struct FileSource<F = File> {
    file: Take<F>,
    failures: u64,
}

impl<F: Read> FileSource<F> {
    /// A source of the next `length` bytes of the file, or of all the next bytes if there are fewer.
    pub fn new(file: F, length: u64) -> Self
        ensures told { IsSome (F.remaining file) → ⟦<FileSource<F> as Source>⟧.tells result }
        ensures bytes { ⟦<FileSource<F> as Source>⟧.remaining result ≡ take length (unwrap_or (F.remaining file) []) }
        ensures failures { ⟦<FileSource<F> as Source>⟧.failures result ≡ 0 }
    {
        FileSource {
            file: file.take(length),
            failures: 0,
        }
    }

    /// How many reads failed, at most 2^64 - 1.
    pub fn failures(&self) -> u64
        ensures { result ≡ ⟦<FileSource<F> as Source>⟧.failures self.now }
    {
        self.failures
    }
}

impl<F: Read> Source for FileSource<F> {
    // It tells its bytes if the reader does: one over memory does, and a file of the system doesn't.
    ghost tells = { λ s. IsSome (take_remaining F.remaining s.file) };

    ghost remaining = { λ s. unwrap_or (take_remaining F.remaining s.file) [] };

    ghost failures = { λ s. s.failures };

    fn read(&mut self, buf: &mut [u8]) -> Result<usize, Failed> {
        let outcome = read_some(&mut self.file, buf);
        count_failure(&mut self.failures, outcome)
    }
}

// One read, tried again if a signal interrupts it.
pub(crate) fn read_some<R: Read>(reader: &mut R, buf: &mut [u8]) -> Result<usize, Failed>
    ensures bound { IfOk result (λ k. k ≤ length buf.new) }
    ensures bytes { ReadConsumes (R.remaining reader.old) (R.remaining reader.new) result buf.new }
{
    read_retrying(reader, buf).map_err(|_| Failed)
}

// The error is never an interrupt: it is the reader's own, or says that every try was interrupted.
fn read_retrying<R: Read>(reader: &mut R, buf: &mut [u8]) -> io::Result<usize>
    ensures bound { IfOk result (λ k. k ≤ length buf.new) }
    ensures bytes { ReadConsumes (R.remaining reader.old) (R.remaining reader.new) result buf.new }
    ensures retried { IfErr result (λ error. error_kind error ≢ ErrorKind.Interrupted) }
{
    for _ in 0..u64::MAX {
        match reader.read(buf) {
            Ok(count) => return Ok(count),
            Err(error) => {
                if error.kind() != ErrorKind::Interrupted {
                    return Err(error);
                }
            }
        }
    }
    Err(io::Error::from(ErrorKind::TimedOut))
}
