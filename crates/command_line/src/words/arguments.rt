//! The tables of a program's commands and of their arguments, and how clap is told of them.
ghost use Rattle.std.specs.Prelude.{◌≡◌, IfOk, false, map, true};
ghost use Rattle.clap.specs.Words.{rule_of};
ghost use Rattle.clap.specs.declared.Command.TheViews.{out-Command as fields_of};
ghost use Rattle.command_line.specs.Arguments.{Defines, command_app, program_app, rule_of_argument};

use clap::{Arg, ArgAction, Command};
use std::alloc::{AllocError, Global};

/// An argument of a command, with its name.
#[derive(Clone, Copy, Debug)]
pub enum Argument {
    /// `--NAME VALUE`, at most once.
    Option(&'static str),
    /// `--NAME`, at most once.
    Flag(&'static str),
    /// A word that is no option and has to be given.
    Word(&'static str),
    /// One or more words that are no options.
    Words(&'static str),
}

/// A command of a program.
#[derive(Clone, Copy, Debug)]
pub struct CommandTable {
    /// The command's name.
    pub name: &'static str,
    /// How the command is used.
    pub usage: &'static str,
    /// The arguments, the words that are no options in their order.
    pub arguments: &'static [Argument],
}

/// The argument, as clap defines it.
fn defined_argument<'a>(alloc: Global, argument: Argument) -> Arg<'a>
    ensures rule { rule_of result ≡ rule_of_argument argument }
    ensures local { result.global ≡ false }
{
    match argument {
        Argument::Option(name) => Arg::new(alloc, name).long(name).action(ArgAction::Set),
        Argument::Flag(name) => Arg::new(alloc, name).long(name).action(ArgAction::SetTrue),
        Argument::Word(name) => Arg::new(alloc, name).action(ArgAction::Set).required(true),
        Argument::Words(name) => Arg::new(alloc, name)
            .action(ArgAction::Append)
            .required(true),
    }
}

/// The command, as clap defines it. The error is out of memory.
fn defined_command<'a>(alloc: Global, table: &CommandTable) -> Result<Command<'a>, AllocError>
    ensures { IfOk result (Defines (command_app table.now)) }
{
    let mut command = Command::new(alloc, table.name).override_usage(table.usage);
    for argument in table.arguments {
        command = command.arg(defined_argument(alloc, *argument))?;
    }
    Ok(command)
}

/// A program of this name, with this usage text and these commands, as clap defines it. A command has to be given; the
/// help flags and the command `help` are switched off. The error is out of memory.
pub fn program<'a>(
    alloc: Global,
    name: &'static str,
    usage: &'static str,
    commands: &[CommandTable],
) -> Result<Command<'a>, AllocError>
    ensures defined { IfOk result (Defines (program_app name.entry.now (map command_app commands.now))) }
    ensures required { IfOk result (λ c. (fields_of c).subcommand_required ≡ true) }
{
    let mut program = Command::new(alloc, name)
        .disable_help_flag(true)
        .disable_help_subcommand(true)
        .subcommand_required(true)
        .override_usage(usage);
    for command in commands {
        program = program.subcommand(defined_command(alloc, command)?)?;
    }
    Ok(program)
}
