//! The command `digest`, over any runtime.
ghost use Rattle.std.specs.Prelude.{◌≡◌, ◌≢◌, ◌||◌, None, [], ◌∷◌, true, IfErr, IfOk, IfSome, OnOk, is_some, length};
ghost use Rattle.verity_hash.specs.declared.salting.SaltRule.TheVariants.{PaddedBefore};
ghost use Rattle.fsverity.specs.Faults.{status_failed, status_of};
ghost use Rattle.fsverity.specs.Program.{CarriesOut, SaysDone};

use crate::Line;
use crate::fault::Fault;
use crate::program::done::Done;
use crate::program::output_files::OutputNames;
use crate::program::outputs::{OutputRequest, digest_with_outputs};
use crate::runs::digest::digest_files;
use command_line::{
    Identities, NULL_DEVICE, Placeholders, ProgressRuntime, ShownProgress, WordsFault, texts_of,
};
use std::io::Write;
use verity_plan::TreeSettings;

/// `fsverity digest` of the files of a command line, with the output files that it names for one of them.
pub(crate) fn digest_files_of_line<'a, R: Identities + ProgressRuntime + AllocGlobal, O: Write>(
    rt: &R,
    progress: &ShownProgress<'_, R>,
    settings: &TreeSettings,
    line: &'a Line,
    out: &mut O,
) -> Result<Done<'a>, Fault<'a>>
    requires { settings.now.rule ≡ PaddedBefore }
    ensures failed { IfErr result (λ fault. status_of fault ≡ status_failed) }
    ensures printed { OnOk result (CarriesOut settings.now line.now (O.contents out.old) (O.contents out.new)) }
    ensures value { IfOk result (SaysDone settings.now line.now) }
{
    let Ok(texts) = texts_of(rt.alloc(), line.files.as_slice()) else {
        return Err(Fault::Words(WordsFault::Memory));
    };
    let placeholders = Placeholders::open(rt);
    if !placeholders.are_open() {
        return Err(Fault::Unopened(NULL_DEVICE));
    }
    let (form, names, outputs) = (line.form(), texts.as_slice(), OutputNames::of_line(line));
    match name_with_outputs(&outputs, names) {
        Some(name) => {
            let request = OutputRequest {
                form,
                name,
                outputs,
            };
            match digest_with_outputs(rt, progress, settings, request, out) {
                Ok(written) => Ok(Done::Written(written)),
                Err(fault) => Err(fault),
            }
        }
        None => match digest_files(rt, progress, settings, form, names, out) {
            Ok(printed) => Ok(Done::Printed(printed)),
            Err(fault) => Err(fault),
        },
    }
}

/// The one name, if output files are given.
fn name_with_outputs<'a>(outputs: &OutputNames<'_>, names: &[&'a str]) -> Option<&'a str>
    ensures one { IfSome result (λ name. names.now ≡ name ∷ []) }
    ensures other { result ≡ None → (is_some outputs.now.tree || is_some outputs.now.descriptor) ≡ true
        → length names.now ≢ 1 }
{
    match names {
        [name] if outputs.are_given() => Some(*name),
        _ => None,
    }
}
