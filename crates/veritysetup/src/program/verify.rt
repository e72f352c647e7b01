//! `veritysetup verify` over the files of a runtime.
ghost use Rattle.std.specs.Prelude.{◌≡◌, IfErr, IfOk, IsOkAnd, None, false};
ghost use Rattle.veritysetup.specs.Options.Choices.{settings_of};
ghost use Rattle.veritysetup.specs.Options.OptionTexts.{option_texts};
ghost use Rattle.veritysetup.specs.Program.Refusals.{EndsRefused, line_offset};
ghost use Rattle.veritysetup.specs.Program.Steps.{IsBySettings, IsVerifiedByLine};
ghost use Rattle.veritysetup.specs.Runs.VerifySteps.{IsVerifiedBy};

use crate::Line;
use crate::fault::Fault;
use crate::options::hash_offset::offset_of;
use crate::options::raw_options::RawOptions;
use crate::options::settings::settings_of;
use crate::program::file_paths::FilePaths;
use crate::runs::file_names::FileNames;
use crate::runs::verify::{Verified, verify_opened};
use crate::runs::verify_input::VerifyInput;
use command_line::{MeasuredFile, ProgressRuntime, ShownProgress, open_measured, open_readable};
use std::alloc::AllocGlobal;
use std::rt::Files;
use verity_io::Source;

/// Verifies a hash device against a data file and a root hash. With a superblock only the hash offset is read of the
/// options, before any file is opened. Without one all options are read, once DATA's length is known and before HASH is
/// opened.
pub(crate) fn verify_files<'a, R>(
    rt: &R,
    progress: &ShownProgress<'_, R>,
    line: &Line,
    paths: FilePaths<'a>,
    root: &str,
) -> Result<Verified<FileNames<'a>>, Fault<'a>>
where
    R: Files + ProgressRuntime + AllocGlobal,
    ensures by { IfOk result (IsVerifiedByLine line.now root.now) }
    ensures data { IfOk result (λ verified. verified.files.data ≡ paths.entry.data) }
    ensures hash { IfOk result (λ verified. verified.files.hash ≡ paths.entry.hash) }
    ensures refused { line.now.no_superblock ≡ false → IfErr (line_offset line.now) (EndsRefused result) }
{
    if line.no_superblock {
        return match open_measured(rt, paths.data) {
            Ok(measured) => verify_by(rt, progress, &line.raw(false), measured, paths.hash),
            Err(_) => Err(Fault::Unopened(paths.data)),
        };
    }
    let offset = match offset_of(&line.raw(false)) {
        Ok(offset) => offset,
        Err(fault) => return Err(Fault::Option(fault)),
    };
    match open_measured(rt, paths.data) {
        Ok(measured) => {
            let total = measured.length();
            let input = VerifyInput::Stored { offset, root };
            let data = measured.into_source(total, progress);
            verify_source(rt, &input, data, paths.hash)
        }
        Err(_) => Err(Fault::Unopened(paths.data)),
    }
}

/// Verifies a hash device without a superblock against an opened data file, by the options. A refused option opens no
/// HASH.
fn verify_by<'a, R>(
    rt: &R,
    progress: &ShownProgress<'_, R>,
    raw: &RawOptions,
    measured: MeasuredFile<'a, R::File>,
    hash_path: &'a str,
) -> Result<Verified<FileNames<'a>>, Fault<'a>>
where
    R: Files + ProgressRuntime + AllocGlobal,
    ensures by { IfOk result (λ verified.
        IsOkAnd (settings_of (option_texts raw.now) verified.files.length None) (IsBySettings verified)) }
    ensures data { IfOk result (λ verified. verified.files.data ≡ measured.entry.opened.path) }
    ensures hash { IfOk result (λ verified. verified.files.hash ≡ hash_path.entry) }
    ensures refused { IfErr (settings_of (option_texts raw.now) measured.entry.length None) (EndsRefused result) }
{
    match settings_of(raw, measured.length(), None) {
        Ok(settings) => {
            let data = measured.into_source(settings.plan().wanted(), progress);
            verify_source(rt, &VerifyInput::Given(&settings), data, hash_path)
        }
        Err(fault) => Err(Fault::Option(fault)),
    }
}

/// Opens HASH and verifies it against the data of a source.
fn verify_source<'a, R, S>(
    rt: &R,
    input: &VerifyInput,
    data: MeasuredFile<'a, S>,
    hash_path: &'a str,
) -> Result<Verified<FileNames<'a>>, Fault<'a>>
where
    R: Files + AllocGlobal,
    S: Source + Drop,
    ensures by { IfOk result (IsVerifiedBy input.now) }
    ensures data { IfOk result (λ verified. verified.files.data ≡ data.entry.opened.path) }
    ensures length { IfOk result (λ verified. verified.files.length ≡ data.entry.length) }
    ensures hash { IfOk result (λ verified. verified.files.hash ≡ hash_path.entry) }
{
    let mut data = data;
    match open_readable(rt, hash_path) {
        Ok(opened) => verify_opened(rt.alloc(), input, &mut data, &mut opened.into_device()),
        Err(_) => Err(Fault::Unopened(hash_path)),
    }
}
