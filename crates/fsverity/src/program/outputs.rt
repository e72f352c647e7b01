//! The program with output files, over any runtime.
ghost use Rattle.std.specs.Prelude.{◌≡◌, [], ◌∷◌, IfErr, IfOk, OnOk};
ghost use Rattle.verity_hash.specs.declared.salting.SaltRule.TheVariants.{PaddedBefore};
ghost use Rattle.fsverity.specs.Faults.{status_failed, status_of};
ghost use Rattle.fsverity.specs.OutputFiles.{SaysWritten};
ghost use Rattle.fsverity.specs.Program.{PrintsDigestLines};

use crate::Form;
use crate::fault::Fault;
use crate::program::output_files::{OutputFiles, OutputNames};
use crate::runs::outputs::Written;
use crate::runs::outputs::over_files::write_to_files;
use command_line::{Identities, ProgressRuntime, ShownProgress, open_measured};
use std::io::Write;
use verity_plan::TreeSettings;

/// What a command line with output files asks for.
#[derive(Clone, Copy)]
pub(crate) struct OutputRequest<'a> {
    pub form: Form,
    /// The name of the input file.
    pub name: &'a str,
    pub outputs: OutputNames<'a>,
}

/// `fsverity digest` of one file, with output files: the input file is opened and its length is found, and then the
/// output files are opened.
pub(crate) fn digest_with_outputs<'a, R: Identities + ProgressRuntime + AllocGlobal, O: Write>(
    rt: &R,
    progress: &ShownProgress<'_, R>,
    settings: &TreeSettings,
    request: OutputRequest<'a>,
    out: &mut O,
) -> Result<Written<'a>, Fault<'a>>
    requires { settings.now.rule ≡ PaddedBefore }
    ensures failed { IfErr result (λ fault. status_of fault ≡ status_failed) }
    ensures value { IfOk result (SaysWritten settings.now request.entry) }
    ensures printed { OnOk result (PrintsDigestLines settings.now request.entry.form (request.entry.name.now ∷ [])
        (O.contents out.old) (O.contents out.new)) }
{
    let OutputRequest {
        form,
        name,
        outputs,
    } = request;
    let measured = match open_measured(rt, name) {
        Ok(measured) => measured,
        Err(_) => return Err(Fault::Unopened(name)),
    };
    let mut files = match OutputFiles::open(rt, measured.opened().file(), outputs) {
        Ok(files) => files,
        Err(refused) => return Err(Fault::Unopened(refused)),
    };
    let length = measured.length();
    let mut input = measured.into_source(length, progress);
    let outcome = write_to_files(rt.alloc(), settings, form, &mut input, &mut files, out);
    // What was opened last is closed first.
    drop(files);
    outcome
}
