//! Opening files, and reading and writing them as what they are opened for.
ghost use Rattle.std.specs.Prelude.{◌≡◌, [], take, unwrap_or, IfOk, IsSome, OnErr, OnOk, true};
ghost use Rattle.std.specs.Fs.{IsDir, file_type, new_options, with_create, with_read, with_truncate, with_write};
ghost use Rattle.verity_io.specs.Moving.{file_of};

use crate::progress::progress_reader::ProgressReader;
use crate::progress::progress_runtime::ProgressRuntime;
use crate::progress::shown_progress::ShownProgress;
use std::fs::{File, Metadata, OpenFile, OpenOptions};
use std::io;
use std::io::{ErrorKind, Read, Seek, SeekFrom, Write};
use std::rt::Files;
use verity_io::{Device, Failed, FileDevice, FileSource, Source};

/// A file that was opened, or the device or source over it, with the path that it was asked for by. Only the functions
/// of this module make one, and none lends what it holds to be changed, so that no caller can say of a file that another
/// path led to it. It is written, or read and written at any offset, as what it holds is.
#[derive(Drop)]
pub struct OpenedFile<'a, F> {
    file: F,
    path: &'a str,
}

impl<'a, F> OpenedFile<'a, F> {
    /// The path.
    pub fn path(&self) -> &'a str
        ensures { result ≡ self.now.path }
    {
        self.path
    }

    /// The file.
    pub fn file(&self) -> &F
        ensures { result.now ≡ self.now.file }
    {
        &self.file
    }
}

impl<'a, F: Read + Write + Seek> OpenedFile<'a, F> {
    /// The device over the file.
    pub fn into_device(self) -> OpenedFile<'a, FileDevice<F>>
        ensures path { result.path ≡ self.entry.path }
        ensures file { file_of result.file ≡ self.entry.file }
    {
        OpenedFile {
            file: FileDevice::new(self.file),
            path: self.path,
        }
    }
}

impl<D: Device> Device for OpenedFile<'_, D> {
    ghost tells = { λ d. D.tells d.file };

    ghost content = { λ d. D.content d.file };

    ghost failures = { λ d. D.failures d.file };

    fn read_at(&mut self, at: u64, buf: &mut [u8]) -> Result<usize, Failed> {
        self.file.read_at(at, buf)
    }

    fn write_at(&mut self, at: u64, bytes: &[u8]) -> Result<(), Failed> {
        self.file.write_at(at, bytes)
    }
}

impl<W: Write> Write for OpenedFile<'_, W> {
    ghost contents = { λ w. W.contents w.file };

    fn write(&mut self, buf: &[u8]) -> io::Result<usize> {
        self.file.write(buf)
    }

    fn flush(&mut self) -> io::Result<()> {
        self.file.flush()
    }
}

/// A file that was opened for reading, or the source over it, with its length in bytes, as `open_measured` found it.
/// Only this module makes one, so that no caller can say another length. It is read as what it holds is.
#[derive(Drop)]
pub struct MeasuredFile<'a, F> {
    opened: OpenedFile<'a, F>,
    length: u64,
}

impl<'a, F> MeasuredFile<'a, F> {
    /// The file, with its path.
    pub fn opened(&self) -> &OpenedFile<'a, F>
        ensures { result.now ≡ self.now.opened }
    {
        &self.opened
    }

    /// The length.
    pub fn length(&self) -> u64
        ensures { result ≡ self.now.length }
    {
        self.length
    }
}

impl<'a, F: Read> MeasuredFile<'a, F> {
    /// A source of the file's bytes. `progress` shows how many of the first `total` are read.
    pub fn into_source<'b, R: ProgressRuntime>(
        self,
        total: u64,
        progress: &'b ShownProgress<'b, R>,
    ) -> MeasuredFile<'a, FileSource<ProgressReader<'b, R, F>>>
        ensures path { result.opened.path ≡ self.entry.opened.path }
        ensures length { result.length ≡ self.entry.length }
        ensures told { IsSome (F.remaining self.entry.opened.file)
            → ⟦<FileSource<ProgressReader<'b, R, F>> as Source>⟧.tells result.opened.file }
        ensures bytes { ⟦<FileSource<ProgressReader<'b, R, F>> as Source>⟧.remaining result.opened.file
            ≡ take self.entry.length (unwrap_or (F.remaining self.entry.opened.file) []) }
        ensures failures { ⟦<FileSource<ProgressReader<'b, R, F>> as Source>⟧.failures result.opened.file ≡ 0 }
    {
        let length = self.length;
        let OpenedFile { file, path } = self.opened;
        let reader = ProgressReader::new(file, total, progress);
        let opened = OpenedFile {
            file: FileSource::new(reader, length),
            path,
        };
        MeasuredFile { opened, length }
    }
}

impl<S: Source> Source for MeasuredFile<'_, S> {
    ghost tells = { λ s. S.tells s.opened.file };

    ghost remaining = { λ s. S.remaining s.opened.file };

    ghost failures = { λ s. S.failures s.opened.file };

    fn read(&mut self, buf: &mut [u8]) -> Result<usize, Failed> {
        self.opened.file.read(buf)
    }
}

/// A file opened for reading. A folder is refused: some systems open one, and then let nobody read it.
pub fn open_readable<'a, R: Files>(rt: &R, path: &'a str) -> io::Result<OpenedFile<'a, R::File>>
    ensures { IfOk result (λ opened. opened.path ≡ path.entry) }
{
    let file = File::open(rt, path)?;
    refuse_folder(&file.metadata()?)?;
    Ok(OpenedFile { file, path })
}

/// A file opened for reading, with its length in bytes, which is found by seeking to its end. A folder is refused, and
/// so is a file that can't be sought in, as a pipe.
pub fn open_measured<'a, R: Files>(rt: &R, path: &'a str) -> io::Result<MeasuredFile<'a, R::File>>
    ensures { IfOk result (λ measured. measured.opened.path ≡ path.entry) }
{
    let mut opened = open_readable(rt, path)?;
    let length = opened.file.seek(SeekFrom::End(0))?;
    opened.file.rewind()?;
    Ok(MeasuredFile { opened, length })
}

/// A file opened for reading and writing. It is created if it is missing, and never truncated.
pub fn open_writable<'a, R: Files>(rt: &R, path: &'a str) -> io::Result<OpenedFile<'a, R::File>>
    ensures { IfOk result (λ opened. opened.path ≡ path.entry) }
{
    let file = open_or_create(rt, writable_options(), path)?;
    Ok(OpenedFile { file, path })
}

/// The options for reading and writing a file.
fn writable_options() -> OpenOptions
    ensures { result ≡ with_write (with_read new_options true) true }
{
    let mut options = OpenOptions::new();
    options.read(true).write(true);
    options
}

/// A file opened for writing. It is created if it is missing, and otherwise truncated.
pub fn open_truncated<'a, R: Files>(rt: &R, path: &'a str) -> io::Result<OpenedFile<'a, R::File>>
    ensures { IfOk result (λ opened. opened.path ≡ path.entry) }
{
    let file = open_or_create(rt, truncating_options(), path)?;
    Ok(OpenedFile { file, path })
}

/// The options for writing a file that is truncated.
fn truncating_options() -> OpenOptions
    ensures { result ≡ with_truncate (with_write new_options true) true }
{
    let mut options = OpenOptions::new();
    options.write(true).truncate(true);
    options
}

/// A file opened by these options. It is created if it is missing. Only then is the system asked to create it, since it
/// may refuse that for somebody else's file in a folder such as `/tmp` (proc_sys_fs(5), "protected_regular").
fn open_or_create<R: Files>(rt: &R, options: OpenOptions, path: &str) -> io::Result<R::File> {
    let mut options = options;
    match options.open(rt, path) {
        Err(error) if error.kind() == ErrorKind::NotFound => {
            ask_to_create(&mut options);
            options.open(rt, path)
        }
        opened => opened,
    }
}

/// Has a file created if it is missing, with the permissions that the system gives by itself (open(2), umask(2)).
fn ask_to_create(options: &mut OpenOptions)
    ensures { options.new ≡ with_create options.old true }
{
    options.create(true);
}

/// Whether the system says that a path leads to a folder.
pub fn is_folder<R: Files>(rt: &R, path: &str) -> bool {
    match rt.metadata(path) {
        Ok(metadata) => metadata.is_dir(),
        Err(_) => false,
    }
}

/// Refuses a file if the system says that it is a folder.
fn refuse_folder(metadata: &Metadata) -> io::Result<()>
    ensures folder { OnErr result (IsDir (file_type metadata.now)) }
    ensures other { OnOk result (IsDir (file_type metadata.now) → ⊥) }
{
    if metadata.is_dir() {
        return Err(io::Error::from(ErrorKind::IsADirectory));
    }
    Ok(())
}
