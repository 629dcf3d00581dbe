// The command line as clap reads it.
ghost use Rattle.std.specs.Prelude.{◌≡◌, IfOk, false};
ghost use Rattle.clap.specs.Words.{app_of, rule_of};
ghost use Rattle.clap.specs.declared.builder.command.Command.TheViews.{out-Command as fields_of};
ghost use Rattle.command_words.specs.App.{stream_words};
ghost use Rattle.command_words.specs.Arguments.{app_for, option_by, rule_for};

use clap::{Arg, ArgAction, Command};
use std::alloc::{AllocError, Global};

/// What a command takes after its name.
pub enum Argument {
    // A required option of one value.
    Required(&'static str),
    // An option of one value that may be missing.
    Free(&'static str),
    // Any number of words, last.
    Streams,
}

/// A command's name, and what it takes.
pub struct CommandForm {
    pub name: &'static str,
    pub arguments: &'static [Argument],
}

// An option of one value.
fn option<'a>(alloc: Global, name: &'static str, required: bool) -> Arg<'a>
    ensures rule { rule_of result ≡ option_by name.now required }
    ensures local { result.global ≡ false }
{
    Arg::new(alloc, name)
        .long(name)
        .required(required)
        .action(ArgAction::Set)
}

// Any number of words, last.
fn streams<'a>(alloc: Global) -> Arg<'a>
    ensures rule { rule_of result ≡ stream_words }
    ensures local { result.global ≡ false }
{
    Arg::new(alloc, "streams")
        .num_args(0..)
        .action(ArgAction::Append)
}

// The argument in clap's form.
fn arg_of<'a>(alloc: Global, argument: &Argument) -> Arg<'a>
    ensures rule { rule_of result ≡ rule_for argument.now }
    ensures local { result.global ≡ false }
{
    match argument {
        Argument::Required(name) => option(alloc, name, true),
        Argument::Free(name) => option(alloc, name, false),
        Argument::Streams => streams(alloc),
    }
}

/// Makes the command of a form.
pub fn command_with<'a>(alloc: Global, form: &CommandForm) -> Result<Command<'a>, AllocError>
    ensures app { IfOk result (λ c. app_of c ≡ app_for form.now) }
    ensures plain { IfOk result (λ c. (fields_of c).has_globals ≡ false) }
{
    let mut command = Command::new(alloc, form.name);
    'arguments: for argument in form.arguments {
        command = command.arg(arg_of(alloc, argument))?;
    }
    Ok(command)
}
