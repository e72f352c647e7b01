//! The run of dump.
ghost use Rattle.std.specs.Prelude.{◌≡◌, IfOk, None};
ghost use Rattle.std.specs.Io.KnownBytes.{Appends};
ghost use Rattle.verity_io.specs.Counting.{change};
ghost use Rattle.verity_format.specs.Superblocks.{IsSuperblock};
ghost use Rattle.veritysetup.specs.Runs.Dump.{DumpRun, DumpsTo};
ghost use Rattle.veritysetup.specs.Runs.HashDevice.{superblock_at};
ghost use Rattle.veritysetup.specs.Runs.OnlyRead.{IsOnlyRead};
ghost use Rattle.veritysetup.specs.Texts.Reports.{report_text, uuid_text};
ghost use Rattle.veritysetup.specs.Texts.TextChanges.{Grows, text_change};

use crate::fault::{Fault, end_run};
use crate::runs::completed::Completed;
use crate::runs::stored_superblock::stored_superblock;
use crate::texts::reports::report;
use command_line::{OpenedFile, write_whole};
use std::alloc::Global;
use std::io::Write;
use verity_format::Superblock;
use verity_io::Device;

/// The superblock that was printed, the byte at which it was read, and the path of the device. Only `dump` makes one,
/// and for the program only `dump_opened` gives one out.
#[derive(Drop)]
pub(crate) struct Dumped<'p> {
    superblock: Superblock,
    offset: u64,
    hash: &'p str,
}

impl Completed for Dumped<'_> {}

/// Reads the superblock and prints its report.
fn dump<'p, D: Device, O: Write>(
    alloc: Global,
    offset: u64,
    hash_path: &'p str,
    device: &mut D,
    out: &mut O,
) -> Result<Dumped<'p>, Fault<'p>>
    ensures superblock { D.tells device.old →
        IfOk result (λ dumped. IsSuperblock (superblock_at offset (D.content device.old)) dumped.superblock) }
    ensures offset { IfOk result (λ dumped. dumped.offset ≡ offset) }
    ensures hash { IfOk result (λ dumped. dumped.hash ≡ hash_path.entry) }
    ensures report { IfOk result (λ dumped. Appends (O.contents out.old) (O.contents out.new)
        (report_text hash_path.now (uuid_text dumped.superblock.uuid) dumped.superblock None)) }
    ensures only_read { IsOnlyRead D.tells D.content D.failures device.old device.new result }
    ensures printed { DumpsTo offset hash_path.now (change D.tells D.content D.failures device.old device.new) result
        (O.contents out.old) (O.contents out.new) }
{
    let superblock = match stored_superblock(device, offset) {
        Ok(superblock) => superblock,
        Err(fault) => return Err(fault),
    };
    match write_whole(report(alloc, &superblock, None, hash_path), out) {
        Ok(()) => Ok(Dumped {
            superblock,
            offset,
            hash: hash_path,
        }),
        Err(fault) => Err(Fault::Report(fault)),
    }
}

/// Prints what the superblock of an opened hash device says. A file of the system tells nothing, so `superblock` says
/// nothing of one; by it a body is refused that reads another device.
pub(crate) fn dump_opened<'p, D: Device, O: Write>(
    alloc: Global,
    offset: u64,
    hash: &mut OpenedFile<'p, D>,
    out: &mut O,
) -> Result<Dumped<'p>, Fault<'p>>
    ensures superblock { D.tells hash.old.file → IfOk result (λ dumped.
        IsSuperblock (superblock_at offset (D.content hash.old.file)) dumped.superblock) }
    ensures offset { IfOk result (λ dumped. dumped.offset ≡ offset) }
    ensures hash { IfOk result (λ dumped. dumped.hash ≡ hash.old.path) }
    ensures report { IfOk result (λ dumped. Appends (O.contents out.old) (O.contents out.new)
        (report_text dumped.hash.now (uuid_text dumped.superblock.uuid) dumped.superblock None)) }
    ensures grows { Grows (O.contents out.old) (O.contents out.new) }
{
    dump(alloc, offset, hash.path(), hash, out)
}

/// Prints what the superblock at an offset, in bytes, of a hash device says, without a root hash (veritysetup(8),
/// "dump"). The answer is the status: 0 done, 1 no superblock, 3 out of memory, 4 the device can't be read or `out`
/// can't be written. A fault's message goes to `msgs` as far as that takes it. The device is not changed.
pub fn run_dump<D: Device, O: Write, M: Write>(
    alloc: Global,
    offset: u64,
    hash_path: &str,
    device: &mut D,
    out: &mut O,
    msgs: &mut M,
) -> u8
    ensures told { D.tells device.old → D.tells device.new }
    ensures stands { D.tells device.old → D.content device.new ≡ D.content device.old }

    // One outcome gives the status, what is printed, the message, and the count of failures.
    ensures run { DumpRun offset hash_path.now result (change D.tells D.content D.failures device.old device.new)
        (text_change O.contents M.contents out.old out.new msgs.old msgs.new) }
{
    end_run(alloc, dump(alloc, offset, hash_path, device, out), msgs)
}
