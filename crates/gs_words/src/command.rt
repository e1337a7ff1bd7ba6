//! The command of `clap` that parses the words.

ghost use Rattle.std.specs.Prelude.{◌≡◌, IfOk, false, map};
ghost use Rattle.clap.specs.Words.{rule_of};
ghost use Rattle.gs_words.specs.Commands.{options_of};
ghost use Rattle.gs_words.specs.Program.{Is, app_for, bare, program as whole, rule_by, rule_for, with_commands};

use crate::names::{COMMANDS, CommandName};
use clap::{Arg, ArgAction, Command};
use std::alloc::{AllocError, Global};

// An option of a command: the flag `--summary`, the option `--classes`, or one of this name that
// has to be given a value.
#[derive(Clone, Copy)]
enum Choice {
    Summary,
    Classes,
    Value(&'static str),
}

// Returns the options of a command, in the order of its table.
fn choices_of(name: CommandName) -> &'static [Choice]
    ensures { map rule_by result.now ≡ map rule_for (options_of name) }
{
    match name {
        CommandName::Shrink => &[Choice::Summary],
        CommandName::Check => &[Choice::Classes, Choice::Summary],
        CommandName::Solve | CommandName::Path => &[Choice::Classes],
        CommandName::Play => &[Choice::Classes, Choice::Value("turns")],
        CommandName::Query => &[
            Choice::Value("player"),
            Choice::Value("line"),
            Choice::Value("signal"),
        ],
        CommandName::Make => &[
            Choice::Value("kind"),
            Choice::Value("ranks"),
            Choice::Value("suits"),
            Choice::Value("cap"),
            Choice::Summary,
        ],
        CommandName::Evaluate
        | CommandName::Upgrade
        | CommandName::Judge
        | CommandName::Duel
        | CommandName::Certify
        | CommandName::Verify => &[],
    }
}

// Returns an option as `clap` has it.
fn arg_of<'a>(alloc: Global, choice: Choice) -> Arg<'a>
    ensures rule { rule_of result ≡ rule_by choice }
    ensures local { result.global ≡ false }
{
    match choice {
        Choice::Summary => Arg::new(alloc, "summary")
            .long("summary")
            .action(ArgAction::SetTrue),
        Choice::Classes => Arg::new(alloc, "classes").long("classes"),
        Choice::Value(name) => Arg::new(alloc, name).long(name).required(true),
    }
}

// Returns the subcommand of this name with its options.
fn command_for<'a>(alloc: Global, name: CommandName) -> Result<Command<'a>, AllocError>
    ensures { IfOk result (Is (app_for name)) }
{
    let word: &'a str = name.word();
    let mut command = Command::new(alloc, word);
    for choice in choices_of(name) {
        command = command.arg(arg_of(alloc, *choice))?;
    }
    Ok(command)
}

fn bare_command<'a>(alloc: Global) -> Command<'a>
    ensures { Is bare result }
{
    Command::new(alloc, "gameshrink")
        .no_binary_name(true)
        .subcommand_required(true)
}

// Returns the bare command with these subcommands.
fn with_commands<'a>(alloc: Global, names: &[CommandName]) -> Result<Command<'a>, AllocError>
    ensures { IfOk result (Is (with_commands names.now)) }
{
    let mut command = bare_command(alloc);
    for name in names {
        command = command.subcommand(command_for(alloc, *name)?)?;
    }
    Ok(command)
}

/// Returns the program's command with all its subcommands.
pub(crate) fn program<'a>(alloc: Global) -> Result<Command<'a>, AllocError>
    ensures { IfOk result (Is whole) }
{
    with_commands(alloc, &COMMANDS)
}
