// The command line of the whole program.
ghost use Rattle.std.specs.Prelude.{◌≡◌, IfOk, false};
ghost use Rattle.clap.specs.Simple.{App, with_subcommand};
ghost use Rattle.clap.specs.Words.{app_of};
ghost use Rattle.clap.specs.declared.builder.command.Command.TheViews.{out-Command as fields_of};
ghost use Rattle.command_words.specs.App.{bare_app, blifww_app};
ghost use Rattle.command_words.specs.Arguments.{with_forms};

use crate::app::{Argument, CommandForm, command_with};
use clap::Command;
use std::alloc::{AllocError, Global};

// What a command takes that streams drive.
const DRIVEN: &[Argument] = &[Argument::Required("cycles"), Argument::Streams];

const COMMANDS: &[CommandForm] = &[
    CommandForm {
        name: "compile",
        arguments: &[Argument::Free("contexts"), Argument::Streams],
    },
    CommandForm {
        name: "simulate",
        arguments: DRIVEN,
    },
    CommandForm {
        name: "eval",
        arguments: DRIVEN,
    },
    CommandForm {
        name: "probe",
        arguments: &[
            Argument::Required("cycles"),
            Argument::Required("net"),
            Argument::Free("path"),
            Argument::Streams,
        ],
    },
    CommandForm {
        name: "window",
        arguments: &[
            Argument::Required("gen"),
            Argument::Required("x"),
            Argument::Required("y"),
            Argument::Required("width"),
            Argument::Required("height"),
            Argument::Streams,
        ],
    },
    CommandForm {
        name: "make",
        arguments: &[Argument::Required("seed"), Argument::Required("size")],
    },
    CommandForm {
        name: "self",
        arguments: &[
            Argument::Required("seed"),
            Argument::Required("size"),
            Argument::Required("cycles"),
        ],
    },
    CommandForm {
        name: "tape",
        arguments: DRIVEN,
    },
    CommandForm {
        name: "aiger",
        arguments: &[],
    },
    CommandForm {
        name: "vcd",
        arguments: DRIVEN,
    },
    CommandForm {
        name: "lift",
        arguments: &[],
    },
];

// The program's own level, without clap's help and version.
fn bare_command<'a>(alloc: Global) -> Command<'a>
    ensures { app_of result ≡ bare_app }
{
    Command::new(alloc, "blifww")
        .subcommand_required(true)
        .disable_help_flag(true)
        .disable_help_subcommand(true)
        .disable_version_flag(true)
}

// The program with this subcommand added, if the subcommand was made.
fn with_command<'a>(
    program: Command<'a>,
    command: Result<Command<'a>, AllocError>,
) -> Result<Command<'a>, AllocError>
    ensures { (app : App) → IfOk command.entry (λ c. app_of c ≡ app) →
        IfOk command.entry (λ c. (fields_of c).has_globals ≡ false)
        → IfOk result (λ c. app_of c ≡ with_subcommand (app_of program.entry) app.top) }
{
    match command {
        Ok(command) => program.subcommand(command),
        Err(error) => Err(error),
    }
}

// The program with commands of these forms added.
fn with_commands<'a>(
    alloc: Global,
    program: Command<'a>,
    forms: &[CommandForm],
) -> Result<Command<'a>, AllocError>
    ensures { (app : App) → app_of program.entry ≡ app →
        IfOk result (λ c. app_of c ≡ with_forms app forms.now) }
{
    let mut whole = program;
    'forms: for form in forms {
        whole = with_command(whole, command_with(alloc, form))?;
    }
    Ok(whole)
}

/// Makes the program's command line, with one subcommand for each command.
pub fn blifww_command<'a>(alloc: Global) -> Result<Command<'a>, AllocError>
    ensures { IfOk result (λ c. app_of c ≡ blifww_app) }
{
    with_commands(alloc, bare_command(alloc), COMMANDS)
}
