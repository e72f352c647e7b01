//! The words of a command line, read by clap.
ghost use Rattle.std.specs.Prelude.{◌≡◌, ◌++◌, [], IfOk, IfErr, map, string_bytes, true};
ghost use Rattle.clap.specs.Words.{fault_of, first_of, found_of, rows_of, subcommand_of, takes};
ghost use Rattle.command_line.specs.LineFaults.{HasCause, LacksMemory};
ghost use Rattle.veritysetup.specs.Words.CommandLines.{HoldsCommand, HoldsRows, given_files, veritysetup_app, word_list};

use crate::words::commands::defined_program;
use crate::{CommandName, Line};
use clap::ArgMatches;
use command_line::{LineFault, copied_value, is_given};
use std::alloc::{AllocError, Global};

/// Adds a copy of the word that an argument has, if it is given.
fn push_word(
    alloc: Global,
    matches: &ArgMatches<'_>,
    name: &str,
    files: &mut Vec<String>,
) -> Result<(), AllocError>
    ensures { IfOk result (λ _. map string_bytes files.new.items
        ≡ map string_bytes files.old.items ++ word_list (first_of name.now (rows_of (found_of matches.now)))) }
{
    match copied_value(alloc, matches, name)? {
        Some(word) => files.push(word)?,
        None => {}
    }
    Ok(())
}

fn files_of(alloc: Global, matches: &ArgMatches<'_>) -> Result<Vec<String>, AllocError>
    ensures { IfOk result (λ files. map string_bytes files.items ≡ given_files (rows_of (found_of matches.now))) }
{
    let mut files = Vec::new(alloc);
    push_word(alloc, matches, "DATA", &mut files)?;
    push_word(alloc, matches, "HASH", &mut files)?;
    push_word(alloc, matches, "ROOT", &mut files)?;
    Ok(files)
}

fn line_of(
    alloc: Global,
    command: CommandName,
    matches: &ArgMatches<'_>,
) -> Result<Line, AllocError>
    ensures command { IfOk result (λ line. line.command ≡ command) }
    ensures rows { IfOk result (HoldsRows (rows_of (found_of matches.now))) }
{
    Ok(Line {
        command,
        hash: copied_value(alloc, matches, "hash")?,
        format: copied_value(alloc, matches, "format")?,
        data_block_size: copied_value(alloc, matches, "data-block-size")?,
        hash_block_size: copied_value(alloc, matches, "hash-block-size")?,
        data_blocks: copied_value(alloc, matches, "data-blocks")?,
        salt: copied_value(alloc, matches, "salt")?,
        uuid: copied_value(alloc, matches, "uuid")?,
        hash_offset: copied_value(alloc, matches, "hash-offset")?,
        no_superblock: is_given(matches, "no-superblock"),
        files: files_of(alloc, matches)?,
    })
}

/// Reads the words of a command line, the program's name first: `veritysetup format`, `dump` or `verify`, its options,
/// each once, and its files (veritysetup(8)). A line that clap refuses is `Refused`, with clap's text and the usage of
/// the command, also if clap itself has no memory; the help flags and the help command are switched off. `Memory` means
/// that clap accepts the line, and that there is no memory for the copies of its words.
pub fn read_words(alloc: Global, words: &[&str]) -> Result<Line, LineFault>
    ensures holds { IfOk result (HoldsCommand (subcommand_of veritysetup_app (map (λ w. w.now) words.now))) }
    ensures only { IfOk result (λ _. fault_of veritysetup_app (map (λ w. w.now) words.now) ≡ []) }
    ensures cause { IfErr result (HasCause (fault_of veritysetup_app (map (λ w. w.now) words.now))) }
    ensures memory { takes veritysetup_app (map (λ w. w.now) words.now) ≡ true → IfErr result LacksMemory }
{
    let program = match defined_program(alloc) {
        Ok(program) => program,
        Err(error) => return Err(LineFault::Refused(clap::Error::from(error))),
    };
    let matches = program.try_get_matches_from(words)?;
    match matches.subcommand() {
        Some((name, inner)) => match CommandName::from_name(name) {
            Some(command) => Ok(line_of(alloc, command, inner)?),
            None => unreachable!(),
        },
        None => unreachable!(),
    }
}
