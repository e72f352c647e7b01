//! The program veritysetup, over any runtime.
ghost use Rattle.std.specs.Prelude.{◌≡◌, IfOk};
ghost use Rattle.std.specs.Io.KnownBytes.{Keeps};
ghost use Rattle.veritysetup.specs.Faults.{IsStatus};
ghost use Rattle.veritysetup.specs.Program.RandomBytes.{IsDrawnFrom};
ghost use Rattle.veritysetup.specs.Program.Steps.{IsDone};
ghost use Rattle.veritysetup.specs.Texts.TextChanges.{Grows};

use crate::fault::{Fault, end_run};
use crate::program::done::Done;
use crate::program::dump::dump_file;
use crate::program::file_paths::FilePaths;
use crate::program::format::format_files;
use crate::program::verify::verify_files;
use crate::words::reading::read_words;
use crate::words::usage::usage_of;
use crate::{CommandName, Line};
use command_line::{
    Identities, NULL_DEVICE, Placeholders, ProgressRuntime, ShownProgress, WordsFault, given_words,
    texts_of,
};
use rand::rngs::StdRng;
use rand::{Rng, SeedableRng};
use std::alloc::AllocGlobal;
use std::env::Env;
use std::io::Write;
use std::random::RandomSource;

/// The program `veritysetup` (veritysetup(8)): reads the words of its command line, opens their files, and carries the
/// command out. Reports go to `out` and messages to `msgs`; `progress` says how far long work is, and is erased at the
/// end. The answer is the status: 0 done, 1 the command line, an option, the superblock or the root hash is refused, 2
/// verification failed, 3 out of memory, 4 a file can't be opened, read or written, there are no random bytes, or the
/// data is too short.
pub fn run_program<R, O, M>(
    rt: &R,
    progress: &ShownProgress<'_, R>,
    out: &mut O,
    msgs: &mut M,
) -> u8
where
    R: Env + Identities + ProgressRuntime + RandomSource + AllocGlobal,
    O: Write,
    M: Write,
    ensures status { IsStatus result }
    ensures quiet { result ≡ 0 → Keeps (M.contents msgs.old) (M.contents msgs.new) }
{
    let status = match read_line(rt) {
        Ok(line) => {
            let outcome = run_line(rt, progress, &line, out);
            end_run(rt.alloc(), outcome, msgs)
        }
        Err(fault) => {
            let refused: Result<Done<'_>, Fault<'_>> = Err(fault);
            end_run(rt.alloc(), refused, msgs)
        }
    };
    progress.erase();
    status
}

/// Reads the words of the command line, the program's name first.
fn read_line<R: Env + AllocGlobal>(rt: &R) -> Result<Line, Fault<'static>> {
    let words = match given_words(rt) {
        Ok(words) => words,
        Err(fault) => return Err(Fault::Words(fault)),
    };
    let texts = match texts_of(rt.alloc(), words.as_slice()) {
        Ok(texts) => texts,
        Err(_) => return Err(Fault::Words(WordsFault::Memory)),
    };
    match read_words(rt.alloc(), texts.as_slice()) {
        Ok(line) => Ok(line),
        Err(fault) => Err(Fault::Line(fault, usage_of(texts.as_slice()))),
    }
}

/// Carries out the command of a line. Before that, a placeholder is opened for each standard stream: a stream may be
/// closed, and no file of the command is to get its number.
fn run_line<'a, R, O>(
    rt: &R,
    progress: &ShownProgress<'_, R>,
    line: &'a Line,
    out: &mut O,
) -> Result<Done<'a>, Fault<'a>>
where
    R: Identities + ProgressRuntime + RandomSource + AllocGlobal,
    O: Write,
    ensures done { IfOk result (IsDone (λ answer. (file : R.File) × R.file_is rt.now file answer) (R.path_is rt.now)
        (IsDrawnFrom (λ seed. ⟦<StdRng as Rng>⟧.stream (⟦<StdRng as SeedableRng>⟧.of_seed seed))) line.now) }
    ensures grows { Grows (O.contents out.old) (O.contents out.new) }
{
    let placeholders = Placeholders::open(rt);
    if !placeholders.are_open() {
        return Err(Fault::Unopened(NULL_DEVICE));
    }
    match (line.command, line.files.as_slice()) {
        (CommandName::Format, [data, hash]) => {
            let paths = FilePaths {
                data: data.as_str(),
                hash: hash.as_str(),
            };
            match format_files(rt, progress, line, paths, out) {
                Ok((made, synced)) => Ok(Done::Formatted(made, synced)),
                Err(fault) => Err(fault),
            }
        }
        (CommandName::Dump, [hash]) => match dump_file(rt, line, hash.as_str(), out) {
            Ok(file) => Ok(Done::Dumped(file)),
            Err(fault) => Err(fault),
        },
        (CommandName::Verify, [data, hash, root]) => {
            let paths = FilePaths {
                data: data.as_str(),
                hash: hash.as_str(),
            };
            match verify_files(rt, progress, line, paths, root.as_str()) {
                Ok(files) => Ok(Done::Verified(files)),
                Err(fault) => Err(fault),
            }
        }
        _ => Err(Fault::IncompleteLine),
    }
}
