//! The run of format.
ghost use Rattle.std.specs.Prelude.{◌≡◌, ℕ, true, List, length, IfOk, OnOk, OnErr, string_bytes};
ghost use Rattle.std.specs.Io.KnownBytes.{Appends};
ghost use Rattle.verity_io.specs.Counting.{Counts, CountsFailure, TheDevice, TheSource, change, failed_at};
ghost use Rattle.verity_io.specs.Writing.{Spoiled};
ghost use Rattle.verity_plan.specs.Plans.{IsPlan, superblock_size};
ghost use Rattle.verity_blocks.specs.Levels.{data_blocks};
ghost use Rattle.veritysetup.specs.Faults.{side_of};
ghost use Rattle.veritysetup.specs.Options.Settings.{PartsAgree};
ghost use Rattle.veritysetup.specs.Runs.Format.{FormatRun, PrintsReport, Reads, Writes, with_superblock};
ghost use Rattle.veritysetup.specs.Runs.Formatted.{IsFormatted, format_report, root_above};
ghost use Rattle.veritysetup.specs.Texts.TextChanges.{Grows, text_change};

use crate::fault::{Fault, end_run};
use crate::options::settings::Settings;
use crate::runs::completed::Completed;
use crate::runs::file_names::FileNames;
use crate::texts::reports::{report, report_bare};
use command_line::{MeasuredFile, OpenedFile, write_whole};
use std::alloc::{AllocError, Global};
use std::io::Write;
use verity_format::write_superblock;
use verity_hash::Digest;
use verity_io::{Device, Failed, Source};
use verity_pass::{Store, build};

/// Writes the superblock at the hash offset, if the settings have one.
fn write_superblock_to<D: Device>(settings: &Settings, device: &mut D) -> Result<(), Failed>
    ensures told { D.tells device.old → D.tells device.new }
    ensures ok { D.tells device.old →
        OnOk result (D.content device.new ≡ with_superblock settings.now (D.content device.old)) }
    ensures failed { D.tells device.old →
        OnErr result (Spoiled (D.content device.old) settings.now.offset superblock_size (D.content device.new)) }
    ensures wanted { OnErr result (settings.now.superblock ≡ true) }
    ensures count { CountsFailure (D.failures device.old) (D.failures device.new) result }
{
    // Called for the proof: by its contract the parts of the settings agree.
    let _plan = settings.plan();
    if settings.has_superblock() {
        device.write_at(settings.offset(), &write_superblock(&settings.superblock()))
    } else {
        Ok(())
    }
}

/// The report with the root hash; without a superblock there is no UUID in it.
fn settings_report(
    alloc: Global,
    settings: &Settings,
    root: &Digest,
    hash_path: &str,
) -> Result<String, AllocError>
    ensures { IfOk result (λ s. string_bytes s ≡ format_report settings.now hash_path.now root.now) }
{
    let superblock = settings.superblock();
    if settings.has_superblock() {
        report(alloc, &superblock, Some(root), hash_path)
    } else {
        report_bare(alloc, &superblock, Some(root), hash_path)
    }
}

/// The settings that a hash device was made by, the root hash that was printed, and what is said of the files that this
/// was done over. Only `format` makes one, and for the program only `format_opened` gives one out.
#[derive(Drop)]
pub(crate) struct Formatted<N> {
    settings: Settings,
    root: Digest,
    files: N,
}

impl<N> Completed for Formatted<N> {}

/// Builds the tree, writes the superblock after it, and prints the report.
fn format<'f, N: Copy, S: Source, D: Device, O: Write>(
    alloc: Global,
    settings: &Settings,
    hash_path: &str,
    files: N,
    source: &mut S,
    device: &mut D,
    out: &mut O,
) -> Result<Formatted<N>, Fault<'f>>
    ensures settings { IfOk result (λ formatted. formatted.settings ≡ settings.now) }
    ensures files { IfOk result (λ formatted. formatted.files ≡ files) }
    ensures root { S.tells source.old →
        IfOk result (λ formatted. formatted.root ≡ root_above settings.now (S.remaining source.old)) }
    ensures report { IfOk result (λ formatted. Appends (O.contents out.old) (O.contents out.new)
        (format_report settings.now hash_path.now formatted.root)) }
    ensures source_told { S.tells source.old → S.tells source.new }
    ensures device_told { D.tells device.old → D.tells device.new }
    ensures read { S.tells source.old → Reads settings.now result (S.remaining source.old) (S.remaining source.new) }
    ensures stands { S.tells source.old → D.tells device.old →
        Writes settings.now (data_blocks settings.now.plan (S.remaining source.old)) result
        (D.content device.old) (D.content device.new) }
    ensures printed { (root : List ℕ) × (S.tells source.old → root ≡ root_above settings.now (S.remaining source.old))
        × PrintsReport (format_report settings.now hash_path.now root) result
        (O.contents out.old) (O.contents out.new) }
    ensures source_count { Counts (failed_at side_of TheSource result) (S.failures source.old) (S.failures source.new) }
    ensures device_count { Counts (failed_at side_of TheDevice result) (D.failures device.old) (D.failures device.new) }
{
    let plan = settings.plan();
    let mut store = match Store::new(alloc, plan) {
        Ok(store) => store,
        Err(_) => return Err(Fault::Store),
    };
    let root = match build(plan, &mut store, source, device) {
        Ok(root) => root,
        Err(fault) => return Err(Fault::Build(fault)),
    };
    match write_superblock_to(settings, device) {
        Ok(()) => {}
        Err(Failed) => return Err(Fault::SuperblockUnwritten),
    }
    match write_whole(settings_report(alloc, settings, &root, hash_path), out) {
        Ok(()) => Ok(Formatted {
            settings: *settings,
            root,
            files,
        }),
        Err(fault) => Err(Fault::Report(fault)),
    }
}

/// Makes an opened hash device of an opened data file. A file of the system tells nothing, so `root`, `read` and `stands`
/// say nothing of one; by them bodies are refused that make the device of other data, or another device.
pub(crate) fn format_opened<'p, S: Source, D: Device, O: Write>(
    alloc: Global,
    settings: &Settings,
    data: &mut MeasuredFile<'p, S>,
    hash: &mut OpenedFile<'p, D>,
    out: &mut O,
) -> Result<Formatted<FileNames<'p>>, Fault<'p>>
    ensures settings { IfOk result (λ made. made.settings ≡ settings.now) }
    ensures data { IfOk result (λ made. made.files.data ≡ data.old.opened.path) }
    ensures length { IfOk result (λ made. made.files.length ≡ data.old.length) }
    ensures hash { IfOk result (λ made. made.files.hash ≡ hash.old.path) }
    ensures root { S.tells data.old.opened.file → IfOk result (λ made. made.root
        ≡ root_above settings.now (S.remaining data.old.opened.file)) }
    ensures read { S.tells data.old.opened.file →
        Reads settings.now result (S.remaining data.old.opened.file) (S.remaining data.new.opened.file) }
    ensures stands { S.tells data.old.opened.file → D.tells hash.old.file →
        Writes settings.now (data_blocks settings.now.plan (S.remaining data.old.opened.file)) result
        (D.content hash.old.file) (D.content hash.new.file) }
    ensures report { IfOk result (λ made. Appends (O.contents out.old) (O.contents out.new)
        (format_report settings.now made.files.hash.now made.root)) }
    ensures grows { Grows (O.contents out.old) (O.contents out.new) }
{
    let files = FileNames::of(data, hash);
    format(alloc, settings, files.hash, files, data, hash, out)
}

/// What all settings keep to. Called for the proof.
fn settings_are_valid(settings: &Settings)
    ensures planned { IsPlan settings.now.plan }
    ensures agree { PartsAgree settings.now }
    ensures uuid { length settings.now.uuid ≡ 16 }
{
    let _uuid = settings.uuid();
    let _blocks = settings.plan().blocks();
}

/// Makes a hash device for the data of a source: builds the tree and writes it, then the superblock if one is
/// wanted, and prints a report with the root hash (veritysetup(8), "format"). The answer is the status: 0 done, 3 out
/// of memory, 4 the source or the device failed, the data is too short, or `out` can't be written. A fault's message
/// goes to `msgs` as far as that takes it, and no later step is done.
pub fn run_format<S: Source, D: Device, O: Write, M: Write>(
    alloc: Global,
    settings: &Settings,
    hash_path: &str,
    source: &mut S,
    device: &mut D,
    out: &mut O,
    msgs: &mut M,
) -> u8
    ensures source_told { S.tells source.old → S.tells source.new }
    ensures device_told { D.tells device.old → D.tells device.new }

    // Status 0: the device is formatted, the data was read once, the report is printed.
    ensures formatted { result ≡ 0 → S.tells source.old → D.tells device.old → IsFormatted settings.now hash_path.now
        (S.remaining source.old) (S.remaining source.new) (D.content device.old) (D.content device.new)
        (O.contents out.old) (O.contents out.new) }

    // Each status: one outcome says what became of source, device, out and msgs, and which count of failures rose.
    ensures run { FormatRun settings.now hash_path.now result
        (change S.tells S.remaining S.failures source.old source.new)
        (change D.tells D.content D.failures device.old device.new)
        (text_change O.contents M.contents out.old out.new msgs.old msgs.new) }
{
    settings_are_valid(settings);
    let outcome = format(alloc, settings, hash_path, (), source, device, out);
    end_run(alloc, outcome, msgs)
}
