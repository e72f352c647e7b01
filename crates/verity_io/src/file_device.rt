//! A device over an opened file.
ghost use Rattle.std.specs.Prelude.{◌≡◌, ◌⊎◌, ◌≤◌, ◌+◌, [], length, IfErr, IfOk, IfSome, IsOk, OnErr, OnOk, is_ok};
ghost use Rattle.std.specs.Io.KnownBytes.{Appends, Keeps};
ghost use Rattle.std.specs.Io.Seek.{MovesTo};
ghost use Rattle.std.specs.IoError.{error_kind};
ghost use Rattle.verity_io.specs.Counting.{CountsFailure};
ghost use Rattle.verity_io.specs.Moving.{file_of, EndsBefore, Fills, From, Stays};
ghost use Rattle.verity_io.specs.Syncing.{cannot_sync};
ghost use Rattle.verity_io.specs.Writing.{most_bytes};

use crate::device::{Device, MOST_BYTES};
use crate::failed::{Failed, count_failure};
use crate::file_source::read_some;
use std::fs::{File, OpenFile};
use std::io;
use std::io::{ErrorKind, Read, Seek, SeekFrom, Write};

/// An opened file that is read and written at any offset. It doesn't tell its bytes. Interrupted reads and writes are
/// tried again.
#[derive(Drop)]
pub struct FileDevice<F = File> {
    file: F,
    failures: u64,
}

impl<F: Read + Write + Seek> FileDevice<F> {
    /// A device of this file's bytes.
    pub fn new(file: F) -> Self
        ensures file { file_of result ≡ file }
        ensures failures { ⟦<FileDevice<F> as Device>⟧.failures result ≡ 0 }
    {
        FileDevice { file, failures: 0 }
    }
}

impl<F: OpenFile> FileDevice<F> {
    /// Asks the system to keep on the disk what was written (fsync(2)), and fails if it refuses. A file of a kind that
    /// can't be synced, such as the null device, is no failure.
    pub fn sync(&self) -> Result<(), Failed> {
        sync_result(self.file.sync_all())
    }
}

// What the system's answer to a sync says: whether what was written is kept.
fn sync_result(answer: io::Result<()>) -> Result<(), Failed>
    ensures done { IfOk answer (λ _. IsOk result) }
    ensures refused { IfErr answer (λ error. is_ok result ≡ cannot_sync (error_kind error)) }
{
    match answer {
        Ok(()) => Ok(()),
        Err(error) if cannot_sync(error.kind()) => Ok(()),
        Err(_) => Err(Failed),
    }
}

// Whether the error says that this kind of file can't be synced.
fn cannot_sync(kind: ErrorKind) -> bool
    ensures { result ≡ cannot_sync kind }
{
    matches!(
        kind,
        ErrorKind::InvalidInput | ErrorKind::Unsupported | ErrorKind::ReadOnlyFilesystem
    )
}

/// A read or a write moves the file to its offset and then reads or writes there, as far as the file says where it
/// stands and what bytes it has.
impl<F: Read + Write + Seek> Device for FileDevice<F> {
    ghost tells = { λ _. ⊥ };

    ghost content = { λ _. [] };

    ghost failures = { λ d. d.failures };

    fn read_at(&mut self, at: u64, buf: &mut [u8]) -> Result<usize, Failed>
        ensures bound { IfOk result (λ k. k ≤ length buf.new) }
        ensures count { CountsFailure (⟦<FileDevice<F> as Device>⟧.failures self.old)
            (⟦<FileDevice<F> as Device>⟧.failures self.new) result }
        ensures bytes { IfOk result (λ k.
            EndsBefore (F.stream_position (file_of self.old)) (F.stream_bytes (file_of self.old)) at k
            ⊎ From F.stream_position (file_of self.old) at (λ moved.
            Fills (F.remaining moved) (F.remaining (file_of self.new)) k buf.new)) }
    {
        let outcome = read_from(&mut self.file, at, buf);
        count_failure(&mut self.failures, outcome)
    }

    fn write_at(&mut self, at: u64, bytes: &[u8]) -> Result<(), Failed>
        requires { at + length bytes.now ≤ most_bytes }
        ensures count { CountsFailure (⟦<FileDevice<F> as Device>⟧.failures self.old)
            (⟦<FileDevice<F> as Device>⟧.failures self.new) result }
        ensures bytes { OnOk result (From F.stream_position (file_of self.old) at (λ moved.
            Appends (F.contents moved) (F.contents (file_of self.new)) bytes.now)) }
        // A failure: nothing changed, or the file was moved to the offset, with its bytes, before anything was written.
        ensures failed { OnErr result (
            Stays (F.stream_position (file_of self.old)) (F.stream_position (file_of self.new))
            (F.stream_bytes (file_of self.old)) (F.stream_bytes (file_of self.new))
            ⊎ From F.stream_position (file_of self.old) at (λ moved.
            Keeps (F.stream_bytes (file_of self.old)) (F.stream_bytes moved))) }
    {
        let outcome = write_from(&mut self.file, at, bytes);
        count_failure(&mut self.failures, outcome)
    }
}

fn move_to<F: Seek>(file: &mut F, at: u64) -> Result<(), Failed>
    ensures moves { MovesTo (F.stream_position file.old) (F.stream_position file.new) at result }
    ensures bytes { Keeps (F.stream_bytes file.old) (F.stream_bytes file.new) }
{
    match file.seek(SeekFrom::Start(at)) {
        Ok(_) => Ok(()),
        Err(_) => Err(Failed),
    }
}

// A read that would end past the most bytes of a device isn't tried, because Linux refuses it: the answer is the file's
// end, or a failure if the file has bytes there.
fn read_from<F: Read + Seek>(file: &mut F, at: u64, buf: &mut [u8]) -> Result<usize, Failed>
    ensures bound { IfOk result (λ k. k ≤ length buf.new) }
    ensures bytes { IfOk result (λ k.
        EndsBefore (F.stream_position file.old) (F.stream_bytes file.old) at k
        ⊎ From F.stream_position file.old at (λ moved. Fills (F.remaining moved) (F.remaining file.new) k buf.new)) }
{
    if buf.len() as u64 > MOST_BYTES.saturating_sub(at) {
        return read_refused(file, at);
    }
    match move_to(file, at) {
        Ok(()) => fill(file, buf),
        Err(_) => read_refused(file, at),
    }
}

// Reads on until the buffer is full or nothing comes.
fn fill<R: Read>(reader: &mut R, buf: &mut [u8]) -> Result<usize, Failed>
    ensures bound { IfOk result (λ k. k ≤ length buf.new) }
    ensures bytes { IfOk result (λ k. Fills (R.remaining reader.old) (R.remaining reader.new) k buf.new) }
{
    let mut end = 0;
    while end < buf.len() {
        let count = read_some(reader, &mut buf[end..])?;
        if count == 0 {
            break;
        }
        end += count;
    }
    Ok(end)
}

// A file system refuses an offset beyond what it can hold, and the file ends before it.
fn read_refused<F: Seek>(file: &mut F, at: u64) -> Result<usize, Failed>
    ensures bound { IfOk result (λ k. k ≡ 0) }
    ensures beyond { IfOk result (EndsBefore (F.stream_position file.old) (F.stream_bytes file.old) at) }
{
    match file.seek(SeekFrom::End(0)) {
        Ok(end) if end <= at => Ok(0),
        _ => Err(Failed),
    }
}

// `write_all` tries an interrupted write again, and fails if a write takes nothing.
fn write_from<F: Write + Seek>(file: &mut F, at: u64, bytes: &[u8]) -> Result<(), Failed>
    ensures bytes { OnOk result (From F.stream_position file.old at (λ moved.
        Appends (F.contents moved) (F.contents file.new) bytes.now)) }
    ensures failed { OnErr result (
        Stays (F.stream_position file.old) (F.stream_position file.new)
        (F.stream_bytes file.old) (F.stream_bytes file.new)
        ⊎ From F.stream_position file.old at (λ moved. Keeps (F.stream_bytes file.old) (F.stream_bytes moved))) }
{
    move_to(file, at)?;
    write_all(file, bytes)
}

fn write_all<W: Write>(writer: &mut W, bytes: &[u8]) -> Result<(), Failed>
    ensures { OnOk result (Appends (W.contents writer.old) (W.contents writer.new) bytes.now) }
{
    writer.write_all(bytes).map_err(|_| Failed)
}
