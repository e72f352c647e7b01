//! The tables of the commands and their arguments (veritysetup(8)).
ghost use Rattle.std.specs.Prelude.{◌≡◌, IfOk, true};
ghost use Rattle.clap.specs.declared.Command.TheViews.{out-Command as fields_of};
ghost use Rattle.command_line.specs.Arguments.{Defines};
ghost use Rattle.veritysetup.specs.Words.CommandLines.{veritysetup_app};

use crate::words::usage::{DUMP_USAGE, FORMAT_USAGE, USAGE, VERIFY_USAGE};
use clap::Command;
use command_line::{Argument, CommandTable, program};
use std::alloc::{AllocError, Global};

/// The commands.
const COMMANDS: &[CommandTable] = &[
    CommandTable {
        name: "format",
        usage: FORMAT_USAGE,
        arguments: FORMAT,
    },
    CommandTable {
        name: "dump",
        usage: DUMP_USAGE,
        arguments: DUMP,
    },
    CommandTable {
        name: "verify",
        usage: VERIFY_USAGE,
        arguments: VERIFY,
    },
];

/// The arguments of `format`.
const FORMAT: &[Argument] = &[
    Argument::Option("hash"),
    Argument::Option("format"),
    Argument::Option("data-block-size"),
    Argument::Option("hash-block-size"),
    Argument::Option("data-blocks"),
    Argument::Option("salt"),
    Argument::Option("hash-offset"),
    Argument::Option("uuid"),
    Argument::Flag("no-superblock"),
    Argument::Word("DATA"),
    Argument::Word("HASH"),
];

/// The arguments of `dump`.
const DUMP: &[Argument] = &[Argument::Option("hash-offset"), Argument::Word("HASH")];

/// The arguments of `verify`.
const VERIFY: &[Argument] = &[
    Argument::Option("hash"),
    Argument::Option("format"),
    Argument::Option("data-block-size"),
    Argument::Option("hash-block-size"),
    Argument::Option("data-blocks"),
    Argument::Option("salt"),
    Argument::Option("hash-offset"),
    Argument::Flag("no-superblock"),
    Argument::Word("DATA"),
    Argument::Word("HASH"),
    Argument::Word("ROOT"),
];

/// The program with these commands, as clap defines it. The error is out of memory.
pub(crate) fn defined_program<'a>(alloc: Global) -> Result<Command<'a>, AllocError>
    ensures defined { IfOk result (Defines veritysetup_app) }
    ensures required { IfOk result (λ c. (fields_of c).subcommand_required ≡ true) }
{
    program(alloc, "veritysetup", USAGE, COMMANDS)
}
