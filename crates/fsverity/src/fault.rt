//! Every way in which a run ends early, with its status and its message.
ghost use Rattle.std.specs.Prelude.{◌≡◌, ◌<◌, IfSome, IsOk, IsTrue};
ghost use Rattle.std.specs.Io.KnownBytes.{Appends};
ghost use Rattle.command_line.specs.Writing.{AppendsPrefix};
ghost use Rattle.fsverity.specs.Faults.{IsStatus, IsTold, message_of, print_message, result_status, status_of};
ghost use Rattle.fsverity.specs.Texts.Messages.{digest_message};

use crate::runs::completed::Completed;
use crate::texts::messages::{CANNOT_OPEN, DESCRIPTOR_UNWRITTEN, OUT_OF_MEMORY, OUTPUT_UNWRITTEN};
use crate::words::usage::USAGE;
use crate::{DigestFault, FsOptionFault, LineFault, digest_message, option_message};
use command_line::{
    PrintFault, WordsFault, not_utf8_message, write_message, write_pieces, write_text,
};
use std::alloc::Global;
use std::io::Write;

/// All is done.
const STATUS_DONE: u8 = 0;

/// A file can't be opened, read or written, it has no digest, output can't be written, or there is no memory.
const STATUS_FAILED: u8 = 1;

/// The command line or an option is refused.
const STATUS_REFUSED: u8 = 2;

/// Why a run ends early. The file's name stands beside the fault of a file.
#[derive(Debug, Drop)]
pub(crate) enum Fault<'a> {
    /// The words of the command line can't be read: one is not UTF-8, or there is no memory for them or their texts.
    Words(WordsFault),
    /// The command line is refused, by `clap`, or there is no memory for the copies of its words.
    Line(LineFault),
    /// An option is refused.
    Option(FsOptionFault),
    /// The file of this name, of the input or the output, or a placeholder for a standard stream, can't be opened, or
    /// its length can't be found.
    Unopened(&'a str),
    /// The file of this name has no digest, or its tree can't be written.
    Digest(DigestFault, &'a str),
    /// The writer took only so many bytes of the descriptor, fewer than all.
    Descriptor(usize),
    /// The file's line is not written whole.
    DigestLine(PrintFault),
}

impl Fault<'_> {
    /// The status that the run ends with.
    fn status(&self) -> u8
        ensures value { result ≡ status_of self.now }
        ensures known { IsStatus result }
        ensures early { 0 < result }
    {
        match self {
            Fault::Words(WordsFault::NotUtf8(_, _)) => STATUS_REFUSED,
            Fault::Words(WordsFault::Memory) => STATUS_FAILED,
            Fault::Line(LineFault::Refused(_)) => STATUS_REFUSED,
            Fault::Line(LineFault::Memory) => STATUS_FAILED,
            Fault::Option(_) => STATUS_REFUSED,
            Fault::Unopened(_) => STATUS_FAILED,
            Fault::Digest(_, _) => STATUS_FAILED,
            Fault::Descriptor(_) => STATUS_FAILED,
            Fault::DigestLine(_) => STATUS_FAILED,
        }
    }

    /// Writes the message of the fault, as far as memory and the writer allow. The one that a file can't be opened takes no
    /// memory. The answer says whether the writer took all of it; of `clap`'s text it isn't known, and the answer is false.
    fn write_message<M: Write>(&self, alloc: Global, msgs: &mut M) -> bool
        ensures whole { IsTrue result → IfSome (message_of self.now)
            (Appends (M.contents msgs.old) (M.contents msgs.new)) }
        ensures prefix { IfSome (message_of self.now)
            (λ text. AppendsPrefix text (M.contents msgs.old) (M.contents msgs.new)) }
    {
        match self {
            Fault::Words(WordsFault::NotUtf8(number, word)) => write_message(
                not_utf8_message(alloc, *number, word.as_slice()),
                msgs,
            ),
            Fault::Words(WordsFault::Memory) => write_text(OUT_OF_MEMORY, msgs),
            Fault::Line(LineFault::Memory) => write_text(OUT_OF_MEMORY, msgs),
            Fault::Line(fault) => {
                fault.write_message(USAGE, msgs);
                false
            }
            Fault::Option(fault) => write_text(option_message(fault), msgs),
            Fault::Unopened(name) => write_pieces(&[CANNOT_OPEN, name, ".\n"], msgs),
            Fault::Digest(fault, name) => write_digest_message(alloc, fault, name, msgs),
            Fault::Descriptor(_) => write_text(DESCRIPTOR_UNWRITTEN, msgs),
            Fault::DigestLine(fault) => write_text(print_message(fault), msgs),
        }
    }
}

/// Writes why the file of this name has no digest, as far as memory and the writer allow. The message of out of memory
/// needs none. The answer says whether the writer took all of it.
fn write_digest_message<M: Write>(
    alloc: Global,
    fault: &DigestFault,
    name: &str,
    msgs: &mut M,
) -> bool
    ensures whole { IsTrue result
        → Appends (M.contents msgs.old) (M.contents msgs.new) (digest_message fault.now name.now) }
    ensures prefix { AppendsPrefix (digest_message fault.now name.now) (M.contents msgs.old) (M.contents msgs.new) }
{
    match fault {
        DigestFault::Memory => write_text(OUT_OF_MEMORY, msgs),
        fault => write_message(digest_message(alloc, fault, name), msgs),
    }
}

/// The message of a line that isn't written whole.
fn print_message(fault: &PrintFault) -> &'static str
    ensures { result.now ≡ print_message fault.now }
{
    match fault {
        PrintFault::Memory => OUT_OF_MEMORY,
        PrintFault::Output(_) => OUTPUT_UNWRITTEN,
    }
}

/// Ends a run: writes the message of its fault, if there is one, as far as memory and `msgs` allow, and gives the
/// status. All is done only where the outcome holds what a run has answered.
pub(crate) fn end_run<T: Completed + Drop, M: Write>(
    alloc: Global,
    outcome: Result<T, Fault<'_>>,
    msgs: &mut M,
) -> u8
    ensures status { result ≡ result_status outcome.entry }
    ensures message { IsTold outcome.entry (M.contents msgs.old) (M.contents msgs.new) }
    ensures known { IsStatus result }
    ensures done { result ≡ 0 → IsOk outcome.entry }
    ensures quiet { result ≡ 0 → msgs.new ≡ msgs.old }
{
    match outcome {
        Ok(_) => STATUS_DONE,
        Err(fault) => {
            fault.write_message(alloc, msgs);
            fault.status()
        }
    }
}
