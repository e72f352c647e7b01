//! The run of verify.
ghost use Rattle.std.specs.Prelude.{◌≡◌, IfErr, IfOk};
ghost use Rattle.verity_io.specs.Counting.{Counts, TheSource, change, failed_at};
ghost use Rattle.veritysetup.specs.Faults.{side_of};
ghost use Rattle.veritysetup.specs.Runs.OnlyRead.{IsOnlyRead};
ghost use Rattle.veritysetup.specs.Runs.Verify.{IsVerifyFault, Verifies, VerifyRun};
ghost use Rattle.veritysetup.specs.Runs.VerifySteps.{IsVerifiedBy};
ghost use Rattle.veritysetup.specs.Runs.Verified.{IsVerified};

use crate::fault::{Fault, end_run};
use crate::runs::completed::Completed;
use crate::runs::file_names::FileNames;
use crate::runs::trusted_tree::{TrustedTree, read_trusted_tree};
use crate::runs::verify_input::VerifyInput;
use command_line::{MeasuredFile, OpenedFile};
use std::alloc::Global;
use std::io::Write;
use verity_io::{Device, Source};
use verity_pass::{Store, compare};

/// By what a hash device was verified, and what is said of the files that this was done over. Only `verify` makes one,
/// and for the program only `verify_opened` gives one out.
#[derive(Drop)]
pub(crate) struct Verified<N> {
    tree: TrustedTree,
    /// The byte at which the superblock was read, if one was.
    offset: Option<u64>,
    files: N,
}

impl<N> Completed for Verified<N> {}

/// Compares the stored tree with the one above the data.
fn verify<'f, N: Copy, S: Source, D: Device>(
    alloc: Global,
    input: &VerifyInput,
    files: N,
    source: &mut S,
    device: &mut D,
) -> Result<Verified<N>, Fault<'f>>
    ensures by { IfOk result (IsVerifiedBy input.now) }
    ensures files { IfOk result (λ verified. verified.files ≡ files) }
    ensures source_told { S.tells source.old → S.tells source.new }
    ensures only_read { IsOnlyRead D.tells D.content D.failures device.old device.new result }
    ensures verdict { S.tells source.old → D.tells device.old →
        Verifies input.now (D.content device.old) (S.remaining source.old) (S.remaining source.new) result }
    ensures possible { IfErr result IsVerifyFault }
    ensures source_count { Counts (failed_at side_of TheSource result) (S.failures source.old) (S.failures source.new) }
{
    let tree = match read_trusted_tree(device, input) {
        Ok(tree) => tree,
        Err(fault) => return Err(fault),
    };
    let mut store = match Store::new(alloc, &tree.plan) {
        Ok(store) => store,
        Err(_) => return Err(Fault::Store),
    };
    match compare(&tree.plan, &mut store, source, device, &tree.root) {
        Ok(()) => Ok(Verified {
            tree,
            offset: input.superblock_offset(),
            files,
        }),
        Err(fault) => Err(Fault::Compare(fault)),
    }
}

/// Verifies an opened hash device against an opened data file. Files of the system tell nothing, so `verdict` says nothing
/// of them; by it a body is refused that compares with other data.
pub(crate) fn verify_opened<'p, S: Source, D: Device>(
    alloc: Global,
    input: &VerifyInput,
    data: &mut MeasuredFile<'p, S>,
    hash: &mut OpenedFile<'p, D>,
) -> Result<Verified<FileNames<'p>>, Fault<'p>>
    ensures by { IfOk result (IsVerifiedBy input.now) }
    ensures data { IfOk result (λ verified. verified.files.data ≡ data.old.opened.path) }
    ensures length { IfOk result (λ verified. verified.files.length ≡ data.old.length) }
    ensures hash { IfOk result (λ verified. verified.files.hash ≡ hash.old.path) }
    ensures verdict { S.tells data.old.opened.file → D.tells hash.old.file →
        Verifies input.now (D.content hash.old.file) (S.remaining data.old.opened.file)
        (S.remaining data.new.opened.file) result }
{
    verify(alloc, input, FileNames::of(data, hash), data, hash)
}

/// Verifies a hash device against the data of a source and a root hash (veritysetup(8), "verify"). The answer is the
/// status: 0 all is right, 1 the superblock or the root hash is refused, 2 the tree or the root hash differs, 3 out
/// of memory, 4 the source or the device failed or the data is too short. A fault's message goes to `msgs` as far as
/// that takes it. The device is not changed.
pub fn run_verify<S: Source, D: Device, M: Write>(
    alloc: Global,
    input: &VerifyInput,
    source: &mut S,
    device: &mut D,
    msgs: &mut M,
) -> u8
    ensures source_told { S.tells source.old → S.tells source.new }
    ensures device_told { D.tells device.old → D.tells device.new }
    ensures stands { D.tells device.old → D.content device.new ≡ D.content device.old }

    // Status 0: superblock and root are accepted, and every byte of every hash block and the root are the tree's.
    ensures verified { result ≡ 0 → S.tells source.old → D.tells device.old →
        IsVerified input.now (D.content device.old) (S.remaining source.old) (S.remaining source.new) }

    // Each status: one outcome gives the verdict, the message and which count of failures rose.
    ensures run { VerifyRun input.now result
        (change S.tells S.remaining S.failures source.old source.new)
        (change D.tells D.content D.failures device.old device.new)
        (M.contents msgs.old) (M.contents msgs.new) }
{
    end_run(alloc, verify(alloc, input, (), source, device), msgs)
}
