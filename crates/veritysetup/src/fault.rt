//! Every way in which a run ends early, with its status and its message.
ghost use Rattle.std.specs.Prelude.{◌≡◌, ◌<◌, Ok, IfSome, IsTrue};
ghost use Rattle.std.specs.Io.KnownBytes.{Appends, Keeps};
ghost use Rattle.command_line.specs.Writing.{AppendsPrefix};
ghost use Rattle.veritysetup.specs.Faults.{IsStatus, IsTold, compare_status, message_of, print_message, result_status};
ghost use Rattle.veritysetup.specs.Faults.{status_of};

use crate::options::option_fault::OptionFault;
use crate::runs::completed::Completed;
use crate::texts::messages::{
    CANNOT_OPEN, CANNOT_WRITE, INCOMPLETE_LINE, LINE_END, NO_RANDOM_BYTES, OUT_OF_MEMORY,
    OUTPUT_UNWRITTEN, SUPERBLOCK_UNREAD, SUPERBLOCK_UNWRITTEN, TOO_LARGE, build_message,
    compare_message, option_message, super_message,
};
use command_line::{
    LineFault, PrintFault, WordsFault, not_utf8_message, write_message, write_pieces, write_text,
};
use std::alloc::Global;
use std::io::Write;
use verity_format::SuperFault;
use verity_pass::{BuildFault, CompareFault};

/// All is done.
const STATUS_DONE: u8 = 0;

/// The command line, an option, the superblock or the root hash is refused.
const STATUS_REFUSED: u8 = 1;

/// The stored tree or the root hash differs.
const STATUS_VERIFICATION_FAILED: u8 = 2;

/// Out of memory.
const STATUS_NO_MEMORY: u8 = 3;

/// A file can't be opened, read or written, there are no random bytes, the data is too short, or output can't be
/// written.
const STATUS_FAILED: u8 = 4;

/// Why a run ends early.
#[derive(Drop)]
pub enum Fault<'a> {
    /// The words of the command line can't be read: one is not UTF-8, or there is no memory for them or for a list of
    /// their texts.
    Words(WordsFault),
    /// The command line is refused, by `clap` and with this usage, or there is no memory for the copies of its words.
    Line(LineFault, &'a str),
    /// The command line is accepted, but without a file that it must have. `clap` lets no such line pass.
    IncompleteLine,
    /// The file could not be opened, or its length could not be found.
    Unopened(&'a str),
    /// The system does not keep what was written to the file.
    Unwritten(&'a str),
    /// There are no random bytes.
    NoRandomBytes,
    /// An option is refused, or the text of a root hash.
    Option(OptionFault),
    /// The superblock could not be read from the device.
    SuperblockUnread,
    /// What the device holds is no superblock.
    Superblock(SuperFault),
    /// The hash area that the superblock describes is too large.
    HashAreaTooLarge,
    /// There is no memory for the store.
    Store,
    /// The tree is not built.
    Build(BuildFault),
    /// The tree could not be compared, or it differs.
    Compare(CompareFault),
    /// The superblock is not written.
    SuperblockUnwritten,
    /// The report is not printed whole.
    Report(PrintFault),
}

impl Fault<'_> {
    /// The status that the run ends with.
    fn status(&self) -> u8
        ensures value { result ≡ status_of self.now }
        ensures known { IsStatus result }
        ensures early { 0 < result }
    {
        match self {
            Fault::Words(WordsFault::NotUtf8(_, _)) => STATUS_REFUSED,
            Fault::Words(WordsFault::Memory) => STATUS_NO_MEMORY,
            Fault::Line(LineFault::Refused(_), _) => STATUS_REFUSED,
            Fault::Line(LineFault::Memory, _) => STATUS_NO_MEMORY,
            Fault::IncompleteLine => STATUS_REFUSED,
            Fault::Unopened(_) => STATUS_FAILED,
            Fault::Unwritten(_) => STATUS_FAILED,
            Fault::NoRandomBytes => STATUS_FAILED,
            Fault::Option(_) => STATUS_REFUSED,
            Fault::SuperblockUnread => STATUS_FAILED,
            Fault::Superblock(_) => STATUS_REFUSED,
            Fault::HashAreaTooLarge => STATUS_REFUSED,
            Fault::Store => STATUS_NO_MEMORY,
            Fault::Build(_) => STATUS_FAILED,
            Fault::Compare(fault) => compare_status(fault),
            Fault::SuperblockUnwritten => STATUS_FAILED,
            Fault::Report(PrintFault::Memory) => STATUS_NO_MEMORY,
            Fault::Report(PrintFault::Output(_)) => STATUS_FAILED,
        }
    }

    /// Writes the message of the fault. The answer says whether the writer took all of it. For `clap`'s text that isn't
    /// known, and the answer is false.
    fn write_message<M: Write>(&self, alloc: Global, msgs: &mut M) -> bool
        ensures whole { IsTrue result → IfSome (message_of self.now)
            (Appends (M.contents msgs.old) (M.contents msgs.new)) }
        ensures prefix { IfSome (message_of self.now)
            (λ text. AppendsPrefix text (M.contents msgs.old) (M.contents msgs.new)) }
    {
        match self {
            Fault::Words(WordsFault::NotUtf8(number, word)) => write_message(
                not_utf8_message(alloc, *number, word.as_slice()),
                msgs,
            ),
            Fault::Words(WordsFault::Memory) => write_text(OUT_OF_MEMORY, msgs),
            Fault::Line(LineFault::Memory, _) => write_text(OUT_OF_MEMORY, msgs),
            Fault::Line(fault, usage) => {
                fault.write_message(usage, msgs);
                false
            }
            Fault::IncompleteLine => write_text(INCOMPLETE_LINE, msgs),
            Fault::Unopened(path) => write_pieces(&[CANNOT_OPEN, path, LINE_END], msgs),
            Fault::Unwritten(path) => write_pieces(&[CANNOT_WRITE, path, LINE_END], msgs),
            Fault::NoRandomBytes => write_text(NO_RANDOM_BYTES, msgs),
            Fault::Option(fault) => write_message(option_message(alloc, fault), msgs),
            Fault::SuperblockUnread => write_text(SUPERBLOCK_UNREAD, msgs),
            Fault::Superblock(fault) => write_message(super_message(alloc, fault), msgs),
            Fault::HashAreaTooLarge => write_text(TOO_LARGE, msgs),
            Fault::Store => write_text(OUT_OF_MEMORY, msgs),
            Fault::Build(fault) => write_message(build_message(alloc, fault), msgs),
            Fault::Compare(fault) => write_message(compare_message(alloc, fault), msgs),
            Fault::SuperblockUnwritten => write_text(SUPERBLOCK_UNWRITTEN, msgs),
            Fault::Report(fault) => write_text(print_message(fault), msgs),
        }
    }
}

/// The status of a comparison that ends with a fault.
fn compare_status(fault: &CompareFault) -> u8
    ensures value { result ≡ compare_status fault.now }
    ensures known { IsStatus result }
    ensures early { 0 < result }
{
    match fault {
        CompareFault::Differs { .. } => STATUS_VERIFICATION_FAILED,
        CompareFault::RootDiffers(_) => STATUS_VERIFICATION_FAILED,
        CompareFault::SourceShort(_) => STATUS_FAILED,
        CompareFault::SourceFailed(_) => STATUS_FAILED,
        CompareFault::DeviceFailed { .. } => STATUS_FAILED,
    }
}

/// The message of a report that isn't printed whole.
fn print_message(fault: &PrintFault) -> &'static str
    ensures { result.now ≡ print_message fault.now }
{
    match fault {
        PrintFault::Memory => OUT_OF_MEMORY,
        PrintFault::Output(_) => OUTPUT_UNWRITTEN,
    }
}

/// Ends a run: writes the message of its fault, if there is one, as far as `msgs` takes it, and gives the status.
/// All is done only where the outcome holds what a run has answered.
pub(crate) fn end_run<T: Completed + Drop, M: Write>(
    alloc: Global,
    outcome: Result<T, Fault<'_>>,
    msgs: &mut M,
) -> u8
    ensures status { result ≡ result_status outcome.entry }
    ensures message { IsTold outcome.entry (M.contents msgs.old) (M.contents msgs.new) }
    ensures known { IsStatus result }
    ensures done { result ≡ 0 → (value : T) × (outcome.entry ≡ Ok value) }
    ensures quiet { result ≡ 0 → Keeps (M.contents msgs.old) (M.contents msgs.new) }
{
    match outcome {
        Ok(_) => STATUS_DONE,
        Err(fault) => {
            fault.write_message(alloc, msgs);
            fault.status()
        }
    }
}
