//! A run over one input file, with those output files that there are.
ghost use Rattle.std.specs.Prelude.{◌≡◌, [], ◌∷◌, is_some, IfErr, IfOk, OnOk};
ghost use Rattle.verity_hash.specs.declared.salting.SaltRule.TheVariants.{PaddedBefore};
ghost use Rattle.verity_io.specs.Counting.{change};
ghost use Rattle.fsverity.specs.Faults.{status_failed, status_of};
ghost use Rattle.fsverity.specs.OutputFiles.{contents_in, content_in, failures_in, file_task, names_of, tells_in};
ghost use Rattle.fsverity.specs.Program.{PrintsDigestLines};
ghost use Rattle.fsverity.specs.Runs.OutputSteps.{task_of};
ghost use Rattle.fsverity.specs.Runs.Outputs.{IsWritten};
ghost use Rattle.fsverity.specs.Texts.TextChanges.{output_change};

use crate::Form;
use crate::fault::Fault;
use crate::program::output_files::{OutputFiles, OutputNames};
use crate::runs::outputs::{OutputTask, Written, write_outputs};
use command_line::{MeasuredFile, OpenedFile};
use std::alloc::Global;
use std::io;
use std::io::Write;
use verity_io::{Device, Nowhere, Source};
use verity_plan::TreeSettings;

/// Digests the input file, and writes its tree and its descriptor to those output files that there are. A file of the
/// system tells nothing, so `all` says nothing of one; by it a body is refused that writes a wanted file's bytes nowhere.
pub(crate) fn write_to_files<'a, S: Source, D: Device, W: Write, O: Write>(
    alloc: Global,
    settings: &TreeSettings,
    form: Form,
    input: &mut MeasuredFile<'a, S>,
    files: &mut OutputFiles<'a, D, W>,
    out: &mut O,
) -> Result<Written<'a>, Fault<'a>>
    requires { settings.now.rule ≡ PaddedBefore }
    ensures task { IfOk result (λ done. done.task ≡ file_task settings.now form input.old files.old) }
    ensures names { IfOk result (λ done. done.names ≡ names_of files.old) }
    ensures failed { IfErr result (λ fault. status_of fault ≡ status_failed) }
    ensures line { OnOk result (PrintsDigestLines settings.now form (input.old.opened.path.now ∷ [])
        (O.contents out.old) (O.contents out.new)) }
    ensures all { OnOk result (S.tells input.old.opened.file
        → IsWritten (task_of (file_task settings.now form input.old files.old))
        (change S.tells S.remaining S.failures input.old.opened.file input.new.opened.file)
        (change (tells_in D.tells) (content_in D.content) (failures_in D.failures) files.old.tree files.new.tree)
        (output_change (contents_in W.contents) O.contents files.old.descriptor files.new.descriptor
        out.old out.new)) }
{
    let task = file_task(settings, form, input, files);
    let names = files.names();
    match &mut files.tree {
        Some(tree) => write_to_device(alloc, &task, names, input, tree, &mut files.descriptor, out),
        None => write_to_device(
            alloc,
            &task,
            names,
            input,
            &mut Nowhere,
            &mut files.descriptor,
            out,
        ),
    }
}

/// The task of an input file: its own name and length, and what there are output files for.
fn file_task<'a, S, D, W>(
    settings: &TreeSettings,
    form: Form,
    input: &MeasuredFile<'a, S>,
    files: &OutputFiles<'_, D, W>,
) -> OutputTask<'a>
    ensures { result ≡ file_task settings.now form input.now files.now }
{
    OutputTask {
        settings: *settings,
        form,
        name: input.opened().path(),
        size: input.length(),
        wants_tree: files.tree.is_some(),
        wants_descriptor: files.descriptor.is_some(),
    }
}

/// Digests the input file, and writes its tree to a device if it is wanted, and its descriptor if there is a file for
/// it.
fn write_to_device<'a, S: Source, D: Device, W: Write, O: Write>(
    alloc: Global,
    task: &OutputTask<'a>,
    names: OutputNames<'a>,
    source: &mut S,
    tree: &mut D,
    descriptor: &mut Option<OpenedFile<'_, W>>,
    out: &mut O,
) -> Result<Written<'a>, Fault<'a>>
    requires rule { task.now.settings.rule ≡ PaddedBefore }
    requires descriptor { task.now.wants_descriptor ≡ is_some descriptor.old }
    ensures value { IfOk result (λ written. (written.task ≡ task.now) × (written.names ≡ names.entry)) }
    ensures failed { IfErr result (λ fault. status_of fault ≡ status_failed) }
    ensures line { OnOk result (PrintsDigestLines task.now.settings task.now.form (task.now.name.now ∷ [])
        (O.contents out.old) (O.contents out.new)) }
    ensures all { OnOk result (S.tells source.old → IsWritten (task_of task.now)
        (change S.tells S.remaining S.failures source.old source.new)
        (change D.tells D.content D.failures tree.old tree.new)
        (output_change (contents_in W.contents) O.contents descriptor.old descriptor.new out.old out.new)) }
{
    match descriptor {
        Some(file) => write_outputs(alloc, task, names, source, tree, file, out),
        None => write_outputs(alloc, task, names, source, tree, &mut io::sink(), out),
    }
}
