//! A run over files, one after another.
ghost use Rattle.std.specs.Prelude.{◌≡◌, ◌⊎◌, ℕ, ◌+◌, ◌<◌, ◌≤◌, List, length, map, IfOk, IfErr, OnOk, MatchResult};
ghost use Rattle.std.specs.Io.KnownBytes.{Appends};
ghost use Rattle.verity_hash.specs.declared.salting.SaltRule.TheVariants.{PaddedBefore};
ghost use Rattle.verity_plan.specs.Settings.{digest_len};
ghost use Rattle.fsverity.specs.Openers.Opening.{SameFiles, opener_change};
ghost use Rattle.fsverity.specs.Runs.Digest.{CountsFault, EndsAt, first_without_digest};
ghost use Rattle.fsverity.specs.Runs.Digested.{AreDigestLines, IsDigestAt};
ghost use Rattle.fsverity.specs.Faults.{IsAtFile, status_failed, status_of};
ghost use Rattle.fsverity.specs.Program.{PrintsDigestLines};
ghost use Rattle.fsverity.specs.Runs.DigestSteps.{ComesBeforeLine, StopsRun, StopsStep, WritesStep};
ghost use Rattle.fsverity.specs.Texts.Lines.{digest_line};

use crate::fault::{Fault, end_run};
use crate::runs::completed::Completed;
use crate::texts::digest_line_writing::write_digest_line;
use crate::{FileDigest, FileOpener, Form, Opener, digest_file};
use command_line::{ProgressRuntime, ShownProgress};
use std::alloc::Global;
use std::io::Write;
use std::rt::Files;
use verity_plan::TreeSettings;

/// The lines of all files of a run are written: so many, by these settings and in this form. Only `write_digest_lines`
/// makes one, and for the program only `digest_files` gives one out.
#[derive(Drop)]
pub(crate) struct Printed {
    settings: TreeSettings,
    form: Form,
    lines: usize,
}

impl Completed for Printed {}

/// The digest of the opener's next file, whose name is given.
fn next_digest<'a, O: Opener>(
    alloc: Global,
    settings: &TreeSettings,
    name: &'a str,
    opener: &mut O,
) -> Result<FileDigest, Fault<'a>>
    requires settings { settings.now.rule ≡ PaddedBefore }
    requires more { O.next opener.old < O.count opener.old }
    ensures next { O.next opener.new ≡ O.next opener.old + 1 }
    ensures same { SameFiles O.tells O.files O.count opener.old opener.new }
    ensures failures { O.failures opener.old ≤ O.failures opener.new }
    ensures reason { IfErr result (StopsStep settings.now
        (opener_change O.tells O.files O.next O.failures opener.old opener.new)) }
    ensures counted { MatchResult result (λ _. O.failures opener.new ≡ O.failures opener.old)
        (λ fault. CountsFault fault (O.failures opener.old) (O.failures opener.new)) }
    ensures length { IfOk result (λ made. length made.digest ≡ digest_len settings.now) }
    ensures digest { IfOk result (λ made. IsDigestAt settings.now (O.tells opener.old) (O.files opener.old)
        (O.next opener.old) made.digest) }
    ensures at_file { IfErr result (IsAtFile name.now) }
    ensures failed { IfErr result (λ fault. status_of fault ≡ status_failed) }
    ensures early { IfErr result ComesBeforeLine }
{
    match opener.start() {
        Err(_) => Err(Fault::Unopened(name)),
        Ok((length, mut stream)) => {
            let made = digest_file(alloc, settings, length, &mut stream);
            opener.end(stream);
            match made {
                Ok(made) => Ok(made),
                Err(fault) => Err(Fault::Digest(fault, name)),
            }
        }
    }
}

/// Writes the line of the opener's next file.
#[tactic(auto, using(crate::proofs::RunLemmas::wrote_nothing))]
fn write_next_digest_line<'a, O: Opener, W: Write>(
    alloc: Global,
    settings: &TreeSettings,
    form: Form,
    name: &'a str,
    opener: &mut O,
    out: &mut W,
) -> Result<(), Fault<'a>>
    requires settings { settings.now.rule ≡ PaddedBefore }
    requires more { O.next opener.old < O.count opener.old }
    ensures next { O.next opener.new ≡ O.next opener.old + 1 }
    ensures same { SameFiles O.tells O.files O.count opener.old opener.new }
    ensures failures { O.failures opener.old ≤ O.failures opener.new }
    ensures reason { IfErr result (StopsStep settings.now
        (opener_change O.tells O.files O.next O.failures opener.old opener.new)) }
    ensures counted { MatchResult result (λ _. O.failures opener.new ≡ O.failures opener.old)
        (λ fault. CountsFault fault (O.failures opener.old) (O.failures opener.new)) }
    ensures written { WritesStep settings.now (λ digest. digest_line form settings.now.algorithm digest name.now)
        (O.tells opener.old) (O.files opener.old) (O.next opener.old) result (W.contents out.old) (W.contents out.new) }
    ensures at_file { IfErr result (IsAtFile name.now) }
    ensures failed { IfErr result (λ fault. status_of fault ≡ status_failed) }
{
    let made = match next_digest(alloc, settings, name, opener) {
        Ok(made) => made,
        Err(fault) => return Err(fault),
    };
    match write_digest_line(alloc, settings, form, name, &made, out) {
        Ok(()) => Ok(()),
        Err(fault) => Err(Fault::DigestLine(fault)),
    }
}

/// Writes the line of each file to `out`, in the order of their names, up to the first file that fails: the fault names
/// it.
fn write_digest_lines<'a, O: Opener, W: Write>(
    alloc: Global,
    settings: &TreeSettings,
    form: Form,
    names: &[&'a str],
    opener: &mut O,
    out: &mut W,
) -> Result<Printed, Fault<'a>>
    requires settings { settings.now.rule ≡ PaddedBefore }
    requires names { length names.now ≡ O.count opener.old }
    requires first { O.next opener.old ≡ 0 }
    ensures done { OnOk result (O.next opener.new ≡ length names.now) }
    ensures no_failure { OnOk result (O.failures opener.new ≡ O.failures opener.old) }
    ensures all { O.tells opener.old
        → OnOk result (first_without_digest settings.now (O.files opener.old) ≡ length names.now) }
    ensures printed { OnOk result ((lines : List ℕ) × AreDigestLines
        (record { settings = settings.now; form = form; names = map (λ n. n.now) names.now })
        (O.tells opener.old) (O.files opener.old) (length names.now) lines
        × Appends (W.contents out.old) (W.contents out.new) lines) }
    ensures ended { IfErr result (StopsRun
        (record { settings = settings.now; form = form; names = map (λ n. n.now) names.now })
        (opener_change O.tells O.files O.next O.failures opener.old opener.new)
        (W.contents out.old) (W.contents out.new)) }
    ensures failed { IfErr result (λ fault. status_of fault ≡ status_failed) }
    ensures value { IfOk result (λ done. (done.settings ≡ settings.now) × (done.form ≡ form)
        × (done.lines ≡ length names.now)) }
{
    for name in names {
        match write_next_digest_line(alloc, settings, form, name, opener, out) {
            Ok(()) => {}
            Err(fault) => return Err(fault),
        }
    }
    Ok(Printed {
        settings: *settings,
        form,
        lines: names.len(),
    })
}

/// Writes the line of each file of these names, which are opened one after another.
pub(crate) fn digest_files<'a, R: Files + ProgressRuntime + AllocGlobal, O: Write>(
    rt: &R,
    progress: &ShownProgress<'_, R>,
    settings: &TreeSettings,
    form: Form,
    names: &[&'a str],
    out: &mut O,
) -> Result<Printed, Fault<'a>>
    requires { settings.now.rule ≡ PaddedBefore }
    ensures failed { IfErr result (λ fault. status_of fault ≡ status_failed) }
    ensures printed { OnOk result (PrintsDigestLines settings.now form (map (λ n. n.now) names.now)
        (O.contents out.old) (O.contents out.new)) }
    ensures value { IfOk result (λ done. (done.settings ≡ settings.now) × (done.form ≡ form)
        × (done.lines ≡ length names.now)) }
{
    // Lent again, since the opener needs the names for a shorter time than a fault does.
    let mut opener = FileOpener::new(rt, progress, &*names);
    write_digest_lines(rt.alloc(), settings, form, names, &mut opener, out)
}

/// Writes the line of each file to `out`, in the order of their names (fsverity(1), "fsverity digest"). The status is 0
/// if all are written. The first file that fails ends the run with status 1: its message goes to `msgs`, the lines
/// before it stay, and later files are not opened. A line is made whole before any of it is written. A fault of `msgs`
/// changes nothing.
///
/// The settings must be of fs-verity, and the opener must have as many files as there are names, none of them opened
/// yet.
pub fn run_digest<O: Opener, W: Write, M: Write>(
    alloc: Global,
    settings: &TreeSettings,
    form: Form,
    names: &[&str],
    opener: &mut O,
    out: &mut W,
    msgs: &mut M,
) -> u8
    requires settings { settings.now.rule ≡ PaddedBefore }
    requires names { length names.now ≡ O.count opener.old }
    requires first { O.next opener.old ≡ 0 }
    ensures status { (result ≡ 0) ⊎ (result ≡ 1) }

    // Status 0: all files have lines.
    ensures done { result ≡ 0 → O.next opener.new ≡ length names.now }
    ensures quiet { result ≡ 0 → msgs.new ≡ msgs.old }
    ensures no_failure { result ≡ 0 → O.failures opener.new ≡ O.failures opener.old }
    ensures all { O.tells opener.old → result ≡ 0 → first_without_digest settings.now (O.files opener.old) ≡ length names.now }
    ensures printed { result ≡ 0 → (lines : List ℕ) × AreDigestLines
        (record { settings = settings.now; form = form; names = map (λ n. n.now) names.now })
        (O.tells opener.old) (O.files opener.old) (length names.now) lines
        × Appends (W.contents out.old) (W.contents out.new) lines }

    // Status 1: the run ended at one file, with its message.
    ensures ended { result ≡ 1 → EndsAt
        (record { settings = settings.now; form = form; names = map (λ n. n.now) names.now })
        (opener_change O.tells O.files O.next O.failures opener.old opener.new)
        (W.contents out.old) (W.contents out.new) (M.contents msgs.old) (M.contents msgs.new) }
{
    let result = write_digest_lines(alloc, settings, form, names, opener, out);
    end_run(alloc, result, msgs)
}
