//! A run over one file with output files.

pub(crate) mod over_files;

ghost use Rattle.std.specs.Prelude.{◌≡◌, ◌↔◌, ◌⊎◌, length, false, IfErr, IfOk, IsTrue, OnOk};
ghost use Rattle.verity_hash.specs.declared.salting.SaltRule.TheVariants.{PaddedBefore};
ghost use Rattle.verity_plan.specs.Settings.{digest_len};
ghost use Rattle.verity_io.specs.Counting.{Counts, TheDevice, TheSource, change, failed_at};
ghost use Rattle.fsverity.specs.Faults as faults;
ghost use Rattle.fsverity.specs.Runs.FileDigest.{GivesDigest, IsDigestOfSource, side_of};
ghost use Rattle.fsverity.specs.Runs.Digested.{is_too_large};
ghost use Rattle.fsverity.specs.Runs.Outputs.{IsOutputFault, IsWritten, OutputRun, Reads, WritesOutputs, WritesTree};
ghost use Rattle.fsverity.specs.Runs.Outputs.{digest_result, output_task};
ghost use Rattle.fsverity.specs.Texts.TextChanges.{output_change};
ghost use Rattle.fsverity.specs.Runs.OutputSteps.{WritesIfWanted, task_of};
ghost use Rattle.fsverity.specs.declared.runs.digest_fault.DigestFault.TheVariants.{TooLarge};

use crate::fault::{Fault, end_run};
use crate::program::output_files::OutputNames;
use crate::runs::completed::Completed;
use crate::texts::digest_line_writing::write_digest_line;
use crate::{DigestFault, FileDigest, Form, digest_file, digest_file_with_tree};
use std::alloc::Global;
use std::io::Write;
use verity_io::{Device, PutFault, Source, put_all};
use verity_plan::TreeSettings;

/// What a run is asked for: the digest and the line of a file, and its tree and its descriptor if they are wanted.
#[derive(Drop)]
pub(crate) struct OutputTask<'a> {
    pub settings: TreeSettings,
    pub form: Form,
    pub name: &'a str,
    pub size: u64,
    pub wants_tree: bool,
    pub wants_descriptor: bool,
}

impl<'a> OutputTask<'a> {
    /// The same task once more.
    fn copied(&self) -> OutputTask<'a>
        ensures { result ≡ self.now }
    {
        OutputTask {
            settings: self.settings,
            form: self.form,
            name: self.name,
            size: self.size,
            wants_tree: self.wants_tree,
            wants_descriptor: self.wants_descriptor,
        }
    }
}

/// All that a task asks for is written, to the output files of these names if they are files of the system. Only
/// `write_outputs` makes one, and for the program only `write_to_files` gives one out.
#[derive(Drop)]
pub(crate) struct Written<'a> {
    task: OutputTask<'a>,
    names: OutputNames<'a>,
}

impl Completed for Written<'_> {}

/// The digest of a file. Its tree is written if it is wanted.
fn digest_for_task<S: Source, D: Device>(
    alloc: Global,
    task: &OutputTask<'_>,
    source: &mut S,
    tree: &mut D,
) -> Result<FileDigest, DigestFault>
    requires { task.now.settings.rule ≡ PaddedBefore }
    ensures source_told { S.tells source.old → S.tells source.new }
    ensures tree_told { D.tells tree.old → D.tells tree.new }
    ensures kept { task.now.wants_tree ≡ false → tree.new ≡ tree.old }
    ensures too_large { (result ≡ Err TooLarge) ↔ IsTrue (is_too_large task.now.settings task.now.size) }
    ensures described { IfOk result
        (IsDigestOfSource task.now.settings task.now.size (S.tells source.old) (S.remaining source.old)) }
    ensures length { IfOk result (λ made. length made.digest ≡ digest_len task.now.settings) }
    ensures source_count { Counts (failed_at side_of TheSource result) (S.failures source.old) (S.failures source.new) }
    ensures tree_count { Counts (failed_at side_of TheDevice result) (D.failures tree.old) (D.failures tree.new) }
    ensures bytes { S.tells source.old
        → GivesDigest task.now.settings task.now.size result (S.remaining source.old) (S.remaining source.new) }
    ensures stands { S.tells source.old → D.tells tree.old
        → WritesTree (task_of task.now) (S.remaining source.old) result (D.content tree.old) (D.content tree.new) }
{
    if task.wants_tree {
        digest_file_with_tree(alloc, &task.settings, task.size, source, tree)
    } else {
        digest_file(alloc, &task.settings, task.size, source)
    }
}

/// Writes the descriptor if it is wanted. The fault says how many of its bytes were taken.
fn write_descriptor_to<W: Write>(
    made: &FileDigest,
    wants_descriptor: bool,
    descriptor: &mut W,
) -> Result<(), PutFault>
    ensures kept { wants_descriptor ≡ false → descriptor.new ≡ descriptor.old }
    ensures written { WritesIfWanted made.now.descriptor wants_descriptor result
        (W.contents descriptor.old) (W.contents descriptor.new) }
{
    if wants_descriptor {
        put_all(descriptor, &made.descriptor)
    } else {
        Ok(())
    }
}

/// Writes the tree, the descriptor and the line of a file, in this order, up to the first fault.
fn write_outputs<'a, S: Source, D: Device, W: Write, O: Write>(
    alloc: Global,
    task: &OutputTask<'a>,
    names: OutputNames<'a>,
    source: &mut S,
    tree: &mut D,
    descriptor: &mut W,
    out: &mut O,
) -> Result<Written<'a>, Fault<'a>>
    requires { task.now.settings.rule ≡ PaddedBefore }
    ensures source_told { S.tells source.old → S.tells source.new }
    ensures tree_told { D.tells tree.old → D.tells tree.new }
    ensures tree_kept { task.now.wants_tree ≡ false → tree.new ≡ tree.old }
    ensures descriptor_kept { task.now.wants_descriptor ≡ false → descriptor.new ≡ descriptor.old }
    ensures too_large { (digest_result result ≡ Err TooLarge)
        ↔ IsTrue (is_too_large task.now.settings task.now.size) }
    ensures read { S.tells source.old
        → Reads (task_of task.now) (digest_result result) (S.remaining source.old) (S.remaining source.new) }
    ensures stands { S.tells source.old → D.tells tree.old
        → WritesTree (task_of task.now) (S.remaining source.old) (digest_result result)
        (D.content tree.old) (D.content tree.new) }
    ensures written { WritesOutputs (task_of task.now) result (S.tells source.old) (S.remaining source.old)
        (output_change W.contents O.contents descriptor.old descriptor.new out.old out.new) }
    ensures all { OnOk result (S.tells source.old → IsWritten (task_of task.now)
        (change S.tells S.remaining S.failures source.old source.new)
        (change D.tells D.content D.failures tree.old tree.new)
        (output_change W.contents O.contents descriptor.old descriptor.new out.old out.new)) }
    ensures value { IfOk result (λ written. (written.task ≡ task.now) × (written.names ≡ names.entry)) }
    ensures possible { IfErr result (IsOutputFault task.now.name.now) }
    ensures failed { IfErr result (λ fault. faults.status_of fault ≡ faults.status_failed) }
    ensures source_count { Counts (failed_at faults.side_of TheSource result) (S.failures source.old) (S.failures source.new) }
    ensures tree_count { Counts (failed_at faults.side_of TheDevice result) (D.failures tree.old) (D.failures tree.new) }
{
    let made = match digest_for_task(alloc, task, source, tree) {
        Ok(made) => made,
        Err(fault) => return Err(Fault::Digest(fault, task.name)),
    };
    match write_descriptor_to(&made, task.wants_descriptor, descriptor) {
        Ok(()) => {}
        Err(PutFault(count)) => return Err(Fault::Descriptor(count)),
    }
    match write_digest_line(alloc, &task.settings, task.form, task.name, &made, out) {
        Ok(()) => Ok(Written {
            task: task.copied(),
            names,
        }),
        Err(fault) => Err(Fault::DigestLine(fault)),
    }
}

/// Digests one file of `size` bytes, and writes what is wanted of it: the hash blocks of its tree to `tree`, the top
/// level first at its start, then the 256 bytes of the descriptor to `descriptor`, then the line to `out` (fsverity(1),
/// "--out-merkle-tree", "--out-descriptor"). What is not wanted stays.
///
/// The status is 0 if all is written. The first fault ends the run with status 1: its message goes to `msgs` as far as
/// that takes it, and nothing that comes later is written. The settings must be of fs-verity.
pub fn run_digest_to<S: Source, D: Device, W: Write, O: Write, M: Write>(
    alloc: Global,
    settings: &TreeSettings,
    form: Form,
    name: &str,
    size: u64,
    source: &mut S,
    want_tree: bool,
    tree: &mut D,
    want_descriptor: bool,
    descriptor: &mut W,
    out: &mut O,
    msgs: &mut M,
) -> u8
    requires { settings.now.rule ≡ PaddedBefore }
    ensures status { (result ≡ 0) ⊎ (result ≡ 1) }
    ensures source_told { S.tells source.old → S.tells source.new }
    ensures tree_told { D.tells tree.old → D.tells tree.new }

    // What is not wanted stays, and so do the messages if all is written.
    ensures tree_kept { want_tree ≡ false → tree.new ≡ tree.old }
    ensures descriptor_kept { want_descriptor ≡ false → descriptor.new ≡ descriptor.old }
    ensures quiet { result ≡ 0 → msgs.new ≡ msgs.old }

    // Status 0: the file was read once, and what is wanted is written.
    ensures all { result ≡ 0 → S.tells source.old
        → IsWritten (output_task settings.now form name.now size want_tree want_descriptor)
        (change S.tells S.remaining S.failures source.old source.new)
        (change D.tells D.content D.failures tree.old tree.new)
        (output_change W.contents O.contents descriptor.old descriptor.new out.old out.new) }

    // Each status: one outcome says what became of source, tree, descriptor, out and msgs, and which count rises.
    ensures run { OutputRun (output_task settings.now form name.now size want_tree want_descriptor) result
        (change S.tells S.remaining S.failures source.old source.new)
        (change D.tells D.content D.failures tree.old tree.new)
        (record {
          outputs = output_change W.contents O.contents descriptor.old descriptor.new out.old out.new;
          msgs_before = M.contents msgs.old;
          msgs_after = M.contents msgs.new;
        }) }
{
    let task = OutputTask {
        settings: *settings,
        form,
        name,
        size,
        wants_tree: want_tree,
        wants_descriptor: want_descriptor,
    };
    let names = OutputNames {
        tree: None,
        descriptor: None,
    };
    let outcome = write_outputs(alloc, &task, names, source, tree, descriptor, out);
    end_run(alloc, outcome, msgs)
}
