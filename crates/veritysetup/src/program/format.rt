//! `veritysetup format` over the files of a runtime.
ghost use Rattle.std.specs.Prelude.{◌≡◌, ◌<◌, ◌≤◌, ◌&&◌, ℕ, List, length, not, is_some, IfErr, IfNone, IfOk, IfSome};
ghost use Rattle.std.specs.Prelude.{Ok};
ghost use Rattle.std.specs.Io.KnownBytes.{Appends};
ghost use Rattle.verity_blocks.specs.Levels.{whole_blocks};
ghost use Rattle.veritysetup.specs.Options.Choices.{settings_of};
ghost use Rattle.veritysetup.specs.Options.OptionTexts.{option_texts};
ghost use Rattle.veritysetup.specs.Options.Settings.{SettingsFields};
ghost use Rattle.veritysetup.specs.Runs.Formatted.{format_report};
ghost use Rattle.veritysetup.specs.Texts.TextChanges.{Grows};
ghost use Rattle.veritysetup.specs.Program.RandomBytes.{IsDrawnFrom};
ghost use Rattle.veritysetup.specs.Program.Refusals.{EndsRefused, EndsShort};
ghost use Rattle.veritysetup.specs.Program.Steps.{IsFormattedByLine};

use crate::Line;
use crate::fault::Fault;
use crate::options::raw_options::RawOptions;
use crate::options::settings::{Settings, settings_of};
use crate::program::file_paths::FilePaths;
use crate::program::random_bytes::draw_seeded;
use crate::program::syncing::{Synced, is_unknown, sync_hash_device};
use crate::runs::file_names::FileNames;
use crate::runs::format::{Formatted, format_opened};
use command_line::{
    Identities, ProgressRuntime, ShownProgress, open_measured, open_writable, paths_are_same_file,
};
use rand::rngs::StdRng;
use rand::{Rng, SeedableRng};
use std::alloc::AllocGlobal;
use std::io;
use std::io::Write;
use std::random::RandomSource;
use verity_io::Failed;
use verity_pass::BuildFault;
use verity_plan::Plan;

/// Makes the hash device of a data file, and asks the system to keep it, with its name if it is a new file. HASH is
/// opened only once the options are read and DATA is known to be long enough, so neither a refused option nor short data
/// leaves a new file. Before that, the system is asked whether HASH is DATA by another name.
#[tactic(auto, using(crate::proofs::LineLemmas::some_text))]
pub(crate) fn format_files<'a, R, O>(
    rt: &R,
    progress: &ShownProgress<'_, R>,
    line: &Line,
    paths: FilePaths<'a>,
    out: &mut O,
) -> Result<(Formatted<FileNames<'a>>, Synced), Fault<'a>>
where
    R: Identities + ProgressRuntime + RandomSource + AllocGlobal,
    O: Write,
    ensures by { IfOk result (λ answer. IsFormattedByLine (λ answer. (file : R.File) × R.file_is rt.now file answer)
        (R.path_is rt.now)
        (IsDrawnFrom (λ seed. ⟦<StdRng as Rng>⟧.stream (⟦<StdRng as SeedableRng>⟧.of_seed seed))) line.now answer.0) }
    ensures data { IfOk result (λ answer. answer.0.files.data ≡ paths.entry.data) }
    ensures hash { IfOk result (λ answer. answer.0.files.hash ≡ paths.entry.hash) }
    ensures report { IfOk result (λ answer. Appends (O.contents out.old) (O.contents out.new)
        (format_report answer.0.settings answer.0.files.hash.now answer.0.root)) }
    ensures grows { Grows (O.contents out.old) (O.contents out.new) }
{
    let measured = match open_measured(rt, paths.data) {
        Ok(measured) => measured,
        Err(_) => return Err(Fault::Unopened(paths.data)),
    };
    let opened = rt.file_identity(measured.opened().file());
    let other = rt.path_identity(paths.hash);
    let same_file = paths_are_same_file(paths.data, paths.hash, opened, other);
    let raw = line.raw(same_file);
    let random = match draw_if_missing(rt, &raw) {
        Ok(random) => random,
        Err(_) => return Err(Fault::NoRandomBytes),
    };
    let settings = match settings_for_data(&raw, measured.length(), random) {
        Ok(settings) => settings,
        Err(fault) => return Err(fault),
    };
    let mut data = measured.into_source(settings.plan().wanted(), progress);
    let is_new = is_unknown(rt, paths.hash);
    let mut hash = match open_writable(rt, paths.hash) {
        Ok(opened) => opened.into_device(),
        Err(_) => return Err(Fault::Unopened(paths.hash)),
    };
    let made = match format_opened(rt.alloc(), &settings, &mut data, &mut hash, out) {
        Ok(made) => made,
        Err(fault) => return Err(fault),
    };
    match sync_hash_device(rt, hash.file(), paths.hash, is_new) {
        Ok(synced) => Ok((made, synced)),
        Err(Failed) => Err(Fault::Unwritten(paths.hash)),
    }
}

/// Random bytes of a generator that the runtime seeds, if salt or UUID is missing.
fn draw_if_missing<R: RandomSource>(rt: &R, raw: &RawOptions) -> io::Result<Option<[u8; 48]>>
    ensures drawn { IfOk result (λ random. IfSome random
        (IsDrawnFrom (λ seed. ⟦<StdRng as Rng>⟧.stream (⟦<StdRng as SeedableRng>⟧.of_seed seed)))) }
    ensures missing { IfOk result (λ random. is_some random ≡ not (is_some raw.now.salt && is_some raw.now.uuid)) }
{
    if raw.salt.is_some() && raw.uuid.is_some() {
        return Ok(None);
    }
    Ok(Some(draw_seeded(rt)?))
}

/// The settings that the options choose for data of this size, with random bytes in place of a salt or a UUID that is
/// not given. If more data is wanted than there is, the fault names the first data block that isn't whole.
fn settings_for_data(
    raw: &RawOptions,
    size: u64,
    random: Option<[u8; 48]>,
) -> Result<Settings, Fault<'static>>
    ensures chosen { IfOk result (λ settings. settings_of (option_texts raw.now) size random ≡ Ok settings) }
    ensures enough { IfOk result (λ settings. settings.plan.wanted ≤ size) }
    ensures refused { IfErr (settings_of (option_texts raw.now) size random) (EndsRefused result) }
    ensures short { (settings : SettingsFields) → settings_of (option_texts raw.now) size random ≡ Ok settings
        → size < settings.plan.wanted → (bytes : List ℕ) → length bytes ≡ size
        → EndsShort result (whole_blocks settings.plan bytes) }
{
    let settings = match settings_of(raw, size, random.as_ref()) {
        Ok(settings) => settings,
        Err(fault) => return Err(Fault::Option(fault)),
    };
    match missing_block(settings.plan(), size) {
        Some(block) => Err(Fault::Build(BuildFault::SourceShort(block))),
        None => Ok(settings),
    }
}

/// The number of the first data block that is not whole in data of this size, if the plan wants more data.
fn missing_block(plan: &Plan, size: u64) -> Option<u64>
    ensures enough { IfNone result (plan.now.wanted ≤ size) }
    ensures short { IfSome result (λ block. (size < plan.now.wanted)
        × ((bytes : List ℕ) → length bytes ≡ size → block ≡ whole_blocks plan.now bytes)) }
{
    if size < plan.wanted() {
        Some(size / u64::from(plan.settings().data_block()))
    } else {
        None
    }
}
