//! The table of the command and its arguments (fsverity(1)).
ghost use Rattle.std.specs.Prelude.{◌≡◌, IfOk, true};
ghost use Rattle.clap.specs.declared.Command.TheViews.{out-Command as fields_of};
ghost use Rattle.command_line.specs.Arguments.{Defines};
ghost use Rattle.fsverity.specs.Words.CommandLines.{fsverity_app};

use crate::words::usage::USAGE;
use clap::Command;
use command_line::{Argument, CommandTable, program};
use std::alloc::{AllocError, Global};

/// The commands, of which there is one.
const COMMANDS: &[CommandTable] = &[CommandTable {
    name: "digest",
    usage: USAGE,
    arguments: DIGEST,
}];

/// The arguments of `digest`.
const DIGEST: &[Argument] = &[
    Argument::Option("hash-alg"),
    Argument::Option("block-size"),
    Argument::Option("salt"),
    Argument::Flag("compact"),
    Argument::Flag("for-builtin-sig"),
    Argument::Option("out-merkle-tree"),
    Argument::Option("out-descriptor"),
    Argument::Words("files"),
];

/// The program with these commands, as clap defines it. The error is out of memory.
pub(crate) fn defined_program<'a>(alloc: Global) -> Result<Command<'a>, AllocError>
    ensures defined { IfOk result (Defines fsverity_app) }
    ensures required { IfOk result (λ c. (fields_of c).subcommand_required ≡ true) }
{
    program(alloc, "fsverity", USAGE, COMMANDS)
}
