//! Reading the words of a command line by clap.
ghost use Rattle.std.specs.Prelude.{◌≡◌, [], IfOk, IfErr, map, true};
ghost use Rattle.clap.specs.Words.{fault_of, found_of, rows_of, subcommand_of, takes};
ghost use Rattle.command_line.specs.LineFaults.{HasCause, LacksMemory};
ghost use Rattle.fsverity.specs.Words.CommandLines.{HoldsCommand, HoldsRows, fsverity_app};

use crate::words::commands::defined_program;
use crate::{Line, LineFault};
use clap::ArgMatches;
use command_line::{copied_value, copied_values, is_given};
use std::alloc::{AllocError, Global};

/// Copies what clap found in a line. The error is out of memory.
fn line_of_matches(alloc: Global, matches: &ArgMatches<'_>) -> Result<Line, AllocError>
    ensures { IfOk result (HoldsRows (rows_of (found_of matches.now))) }
{
    Ok(Line {
        hash_alg: copied_value(alloc, matches, "hash-alg")?,
        block_size: copied_value(alloc, matches, "block-size")?,
        salt: copied_value(alloc, matches, "salt")?,
        compact: is_given(matches, "compact"),
        for_builtin_sig: is_given(matches, "for-builtin-sig"),
        out_merkle_tree: copied_value(alloc, matches, "out-merkle-tree")?,
        out_descriptor: copied_value(alloc, matches, "out-descriptor")?,
        files: copied_values(alloc, matches, "files")?,
    })
}

/// Reads the words of a command line, the program's name first: `fsverity digest`, its options, each at most once, and
/// the names of the files (fsverity(1)). The error is `Refused`, with clap's text, if clap refuses the line or itself
/// has no memory, and `Memory` if clap accepts the line and there is no memory for the copies of its words. The help
/// flag and the help command are switched off.
pub fn read_words(alloc: Global, words: &[&str]) -> Result<Line, LineFault>
    ensures holds { IfOk result (HoldsCommand (subcommand_of fsverity_app (map (λ w. w.now) words.now))) }
    ensures only { IfOk result (λ _. fault_of fsverity_app (map (λ w. w.now) words.now) ≡ []) }
    ensures cause { IfErr result (HasCause (fault_of fsverity_app (map (λ w. w.now) words.now))) }
    ensures memory { takes fsverity_app (map (λ w. w.now) words.now) ≡ true → IfErr result LacksMemory }
{
    let program = match defined_program(alloc) {
        Ok(program) => program,
        Err(error) => return Err(LineFault::Refused(clap::Error::from(error))),
    };
    let matches = program.try_get_matches_from(words)?;
    match matches.subcommand() {
        Some((_, inner)) => Ok(line_of_matches(alloc, inner)?),
        None => unreachable!(),
    }
}
