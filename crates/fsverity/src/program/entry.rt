//! The program fsverity, over any runtime.
ghost use Rattle.std.specs.Prelude.{◌≡◌, ◌≤◌, Err, IfErr, IfOk, OnOk};
ghost use Rattle.fsverity.specs.Faults.{status_failed, status_of};
ghost use Rattle.fsverity.specs.Program.{CarriesOut, SaysDone, line_settings};
ghost use Rattle.fsverity.specs.declared.fault.Fault.TheVariants as ending;

use crate::fault::{Fault, end_run};
use crate::program::digest::digest_files_of_line;
use crate::program::done::Done;
use crate::{Line, digest_settings, read_words};
use command_line::{Identities, ProgressRuntime, ShownProgress, WordsFault, given_words, texts_of};
use std::env::Env;
use std::io::Write;

/// The program `fsverity` (fsverity(1)): reads the words of its command line, opens their files, and carries the command
/// out. Lines go to `out` and messages to `msgs`; `progress` says how far long work is, and is erased at the end. The
/// answer is the status: 0 done, 1 a file failed, the output could not be written or there was no memory, 2 the command
/// line or an option is refused, and no file has been opened then.
pub fn run_program<R: Identities + ProgressRuntime + Env + AllocGlobal, O: Write, M: Write>(
    rt: &R,
    progress: &ShownProgress<'_, R>,
    out: &mut O,
    msgs: &mut M,
) -> u8
    ensures status { result ≤ 2 }
    ensures quiet { result ≡ 0 → msgs.new ≡ msgs.old }
{
    let status = match read_line(rt) {
        Ok(line) => end_run(rt.alloc(), run_line(rt, progress, &line, out), msgs),
        Err(fault) => {
            let refused: Result<Done<'_>, Fault<'_>> = Err(fault);
            end_run(rt.alloc(), refused, msgs)
        }
    };
    progress.erase();
    status
}

/// Reads the words of the command line, the program's name first. The words that the system gave are dropped here, so
/// that only the line's own copies of many names stay in memory.
fn read_line<R: Env + AllocGlobal>(rt: &R) -> Result<Line, Fault<'static>> {
    let words = match given_words(rt) {
        Ok(words) => words,
        Err(fault) => return Err(Fault::Words(fault)),
    };
    let Ok(texts) = texts_of(rt.alloc(), words.as_slice()) else {
        return Err(Fault::Words(WordsFault::Memory));
    };
    match read_words(rt.alloc(), texts.as_slice()) {
        Ok(line) => Ok(line),
        Err(fault) => Err(Fault::Line(fault)),
    }
}

/// Carries out the command of a line.
fn run_line<'a, R: Identities + ProgressRuntime + AllocGlobal, O: Write>(
    rt: &R,
    progress: &ShownProgress<'_, R>,
    line: &'a Line,
    out: &mut O,
) -> Result<Done<'a>, Fault<'a>>
    ensures refused { IfErr (line_settings line.now) (λ fault.
        (result ≡ Err (ending.Option fault)) × (out.new ≡ out.old)) }
    ensures accepted { IfOk (line_settings line.now) (λ _. IfErr result (λ fault. status_of fault ≡ status_failed)) }

    // Done: each file has its line, and the value says that what the output files are to hold was written.
    ensures printed { IfOk (line_settings line.now) (λ settings.
        OnOk result (CarriesOut settings line.now (O.contents out.old) (O.contents out.new))) }
    ensures value { IfOk (line_settings line.now) (λ settings. IfOk result (SaysDone settings line.now)) }
{
    match digest_settings(&line.options()) {
        Ok(settings) => digest_files_of_line(rt, progress, &settings, line, out),
        Err(fault) => Err(Fault::Option(fault)),
    }
}
