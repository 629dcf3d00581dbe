// The command that words ask for.
ghost use Rattle.std.specs.Prelude.{◌≡◌, ◌≤◌, ◌==◌, not, IfOk, IfSome, List, None, OnOk, IsErrOf, MatchResult, Some, codes, length, map, option_and_then, option_map, string_bytes};
ghost use Rattle.clap.specs.Simple.{subcommand_rows_of};
ghost use Rattle.clap.specs.Lexer.{usize_max};
ghost use Rattle.clap.specs.Walk.{Row, first_of, rows_of};
ghost use Rattle.clap.specs.Words.{found_of};
ghost use Rattle.command_words.specs.StreamCommands.{Reads, range_of, values_by, values_of_kind};
ghost use Rattle.command_words.specs.Numbers.{TakesNumber, contexts_range, seed_range, size_range};
ghost use Rattle.command_words.specs.Shapes.{CommandValues, HasNumbersInRange, HasViewInRange, IsTaken, IsWritten, command_values, compile_by, contexts_met, driven_command_by, make_by, number_met, probe_by, self_by, streams_met, values_by_name, values_met, values_of, view_met, window_by};

use crate::WordsError;
use crate::numbers::number_between;
use crate::program::blifww_command;
use clap::ArgMatches;
use lists::List;
use std::alloc::{AllocError, Global};

// The greatest number of cycles, of `tape` and of the other commands.
const MOST_TAPE_CYCLES: u64 = 4_096;

const MOST_CYCLES: u64 = 1_048_576;

/// A part of the plane at a generation: `height` rows of `width` cells, of which the first is the
/// cell at column `x` and row `y`.
#[derive(Clone, Copy)]
pub struct View {
    pub generation: u64,
    pub x: u64,
    pub y: u64,
    pub width: u64,
    pub height: u64,
}

/// A command with its values. `cycles` is the number of cycles, and `streams` are the words that
/// give the streams.
#[derive(Drop)]
pub enum Command {
    /// `starts` are the words that give the start states. If the words give no number of contexts,
    /// `contexts` is 1 and there are no `starts`.
    Compile {
        contexts: u64,
        starts: List<String>,
    },
    Simulate {
        cycles: usize,
        streams: List<String>,
    },
    Eval {
        cycles: usize,
        streams: List<String>,
    },
    /// `path` is `-` if the words give none.
    Probe {
        cycles: usize,
        net: String,
        path: String,
        streams: List<String>,
    },
    Window {
        view: View,
        streams: List<String>,
    },
    Make {
        seed: u32,
        size: u32,
    },
    Self_ {
        seed: u32,
        size: u32,
        cycles: usize,
    },
    Tape {
        cycles: usize,
        streams: List<String>,
    },
    Aiger,
    Vcd {
        cycles: usize,
        streams: List<String>,
    },
    Lift,
}

// A command that streams drive.
#[derive(Clone, Copy)]
enum StreamCommand {
    Simulate,
    Eval,
    Tape,
    Vcd,
}

impl StreamCommand {
    // The number of cycles that the options give.
    fn cycles_in(self, found: &ArgMatches<'_>) -> Option<usize>
        ensures value { result ≡ number_met (range_of self) (rows_of (found_of found.now)) }
        ensures bounds { IfSome result (TakesNumber (range_of self)) }
    {
        match self {
            StreamCommand::Tape => cycles_in(found, MOST_TAPE_CYCLES),
            StreamCommand::Simulate | StreamCommand::Eval | StreamCommand::Vcd => {
                cycles_in(found, MOST_CYCLES)
            }
        }
    }

    // The command with its values.
    fn with(self, cycles: usize, streams: List<String>) -> Command
        requires { TakesNumber (range_of self) cycles }
        ensures values { values_of result ≡ values_by self cycles (map string_bytes streams) }
        ensures numbers { HasNumbersInRange (values_of result) }
    {
        match self {
            StreamCommand::Simulate => Command::Simulate { cycles, streams },
            StreamCommand::Eval => Command::Eval { cycles, streams },
            StreamCommand::Tape => Command::Tape { cycles, streams },
            StreamCommand::Vcd => Command::Vcd { cycles, streams },
        }
    }
}

// The texts, each in a String of its own.
fn owned(alloc: Global, texts: &[&str]) -> Result<List<String>, AllocError>
    ensures { IfOk result (λ words. map string_bytes words ≡ map (λ t. t.now) texts.now) }
{
    let mut words = Vec::new(alloc);
    'texts: for text in texts {
        words.push(String::from_str(alloc, text)?)?;
    }
    Ok(List::of(words))
}

// The last words.
fn streams_in(alloc: Global, found: &ArgMatches<'_>) -> Result<List<String>, AllocError>
    ensures { IfOk result (λ streams. map string_bytes streams ≡
        streams_met (rows_of (found_of found.now))) }
{
    owned(alloc, found.get_strs("streams").unwrap_or(&[]))
}

// The text that is given for an option of this name.
fn text_in<'a>(found: &ArgMatches<'a>, name: &str) -> Option<&'a str>
    ensures { option_map (λ t. t.now) result ≡ first_of name.now (rows_of (found_of found.now)) }
{
    found.get_str(name)
}

// The number that is given for an option of this name, if it lies between the bounds.
fn number_in(found: &ArgMatches<'_>, name: &str, least: u64, most: u64) -> Option<u64>
    ensures value { result ≡ number_met (record { name = name.now; least = least; most = most })
        (rows_of (found_of found.now)) }
    ensures bounds { IfSome result (λ number. (least ≤ number) × (number ≤ most)) }
{
    number_between(text_in(found, name)?, least, most)
}

fn cycles_in(found: &ArgMatches<'_>, most: u64) -> Option<usize>
    ensures value { result ≡ number_met (record { name = codes "cycles"; least = 1; most = most })
        (rows_of (found_of found.now)) }
    ensures bounds { IfSome result (λ cycles. (1 ≤ cycles) × (cycles ≤ most)) }
{
    Some(number_in(found, "cycles", 1, most)? as usize)
}

fn seed_in(found: &ArgMatches<'_>) -> Option<u32>
    ensures value { result ≡ number_met seed_range (rows_of (found_of found.now)) }
    ensures bounds { IfSome result (TakesNumber seed_range) }
{
    Some(number_in(found, "seed", 0, 2_147_483_647)? as u32)
}

fn size_in(found: &ArgMatches<'_>) -> Option<u32>
    ensures value { result ≡ number_met size_range (rows_of (found_of found.now)) }
    ensures bounds { IfSome result (TakesNumber size_range) }
{
    Some(number_in(found, "size", 1, 128)? as u32)
}

fn view_in(found: &ArgMatches<'_>) -> Option<View>
    ensures value { result ≡ view_met (rows_of (found_of found.now)) }
    ensures bounds { IfSome result HasViewInRange }
{
    let generation = number_in(found, "gen", 0, 4_294_967_296)?;
    let x = number_in(found, "x", 0, 4_294_967_295)?;
    let y = number_in(found, "y", 0, 4_294_967_295)?;
    let width = number_in(found, "width", 1, 4_096)?;
    let height = number_in(found, "height", 1, 4_096)?;
    Some(View {
        generation,
        x,
        y,
        width,
        height,
    })
}

// Whether there are last words.
fn has_words(found: &ArgMatches<'_>) -> bool
    ensures { result ≡ not (length (streams_met (rows_of (found_of found.now))) == 0) }
{
    !found.get_strs("streams").unwrap_or(&[]).is_empty()
}

// The number of contexts: one if no option gives it, and none if there are last words then.
fn contexts_in(found: &ArgMatches<'_>) -> Option<u64>
    ensures value { result ≡ contexts_met (rows_of (found_of found.now)) }
    ensures bounds { IfSome result (TakesNumber contexts_range) }
{
    match text_in(found, "contexts") {
        Some(text) => number_between(text, 1, 4_294_967_295),
        None if has_words(found) => None,
        None => Some(1),
    }
}

// For each command its values, by what clap has found for its options and words.
fn compile_in(alloc: Global, found: &ArgMatches<'_>) -> Result<Command, WordsError>
    ensures { Reads (compile_by (rows_of (found_of found.now))) result }
{
    let contexts = contexts_in(found).ok_or(WordsError::Usage)?;
    let starts = streams_in(alloc, found)?;
    Ok(Command::Compile { contexts, starts })
}

fn driven_in(
    alloc: Global,
    driven: StreamCommand,
    found: &ArgMatches<'_>,
) -> Result<Command, WordsError>
    ensures { Reads (driven_command_by (range_of driven) (values_by driven)
        (rows_of (found_of found.now))) result }
{
    let cycles = driven.cycles_in(found).ok_or(WordsError::Usage)?;
    let streams = streams_in(alloc, found)?;
    Ok(driven.with(cycles, streams))
}

fn probe_in(alloc: Global, found: &ArgMatches<'_>) -> Result<Command, WordsError>
    ensures { Reads (probe_by (rows_of (found_of found.now))) result }
{
    let cycles = cycles_in(found, MOST_CYCLES).ok_or(WordsError::Usage)?;
    let net = text_in(found, "net").ok_or(WordsError::Usage)?;
    let path = text_in(found, "path").unwrap_or("-");
    let net = String::from_str(alloc, net)?;
    let path = String::from_str(alloc, path)?;
    let streams = streams_in(alloc, found)?;
    Ok(Command::Probe {
        cycles,
        net,
        path,
        streams,
    })
}

fn window_in(alloc: Global, found: &ArgMatches<'_>) -> Result<Command, WordsError>
    ensures { Reads (window_by (rows_of (found_of found.now))) result }
{
    let view = view_in(found).ok_or(WordsError::Usage)?;
    let streams = streams_in(alloc, found)?;
    Ok(Command::Window { view, streams })
}

fn make_in(found: &ArgMatches<'_>) -> Result<Command, WordsError>
    ensures { Reads (make_by (rows_of (found_of found.now))) result }
{
    let seed = seed_in(found).ok_or(WordsError::Usage)?;
    let size = size_in(found).ok_or(WordsError::Usage)?;
    Ok(Command::Make { seed, size })
}

fn self_in(found: &ArgMatches<'_>) -> Result<Command, WordsError>
    ensures { Reads (self_by (rows_of (found_of found.now))) result }
{
    let seed = seed_in(found).ok_or(WordsError::Usage)?;
    let size = size_in(found).ok_or(WordsError::Usage)?;
    let cycles = cycles_in(found, MOST_CYCLES).ok_or(WordsError::Usage)?;
    Ok(Command::Self_ { seed, size, cycles })
}

// The commands, without their values.
#[derive(Clone, Copy)]
enum CommandKind {
    Compile,
    StreamCommand(StreamCommand),
    Probe,
    Window,
    Make,
    Self_,
    Aiger,
    Lift,
}

// The command of this name.
fn kind_named(name: &str) -> Option<CommandKind>
    ensures { (rows : List Row) → values_by_name name.now rows ≡
        option_and_then (λ kind. values_of_kind kind rows) result }
{
    match name {
        "compile" => Some(CommandKind::Compile),
        "simulate" => Some(CommandKind::StreamCommand(StreamCommand::Simulate)),
        "eval" => Some(CommandKind::StreamCommand(StreamCommand::Eval)),
        "probe" => Some(CommandKind::Probe),
        "window" => Some(CommandKind::Window),
        "make" => Some(CommandKind::Make),
        "self" => Some(CommandKind::Self_),
        "tape" => Some(CommandKind::StreamCommand(StreamCommand::Tape)),
        "aiger" => Some(CommandKind::Aiger),
        "vcd" => Some(CommandKind::StreamCommand(StreamCommand::Vcd)),
        "lift" => Some(CommandKind::Lift),
        _ => None,
    }
}

// The command of this kind, with its values.
fn command_by(
    alloc: Global,
    kind: CommandKind,
    found: &ArgMatches<'_>,
) -> Result<Command, WordsError>
    ensures { Reads (values_of_kind kind (rows_of (found_of found.now))) result }
{
    match kind {
        CommandKind::Compile => compile_in(alloc, found),
        CommandKind::StreamCommand(driven) => driven_in(alloc, driven, found),
        CommandKind::Probe => probe_in(alloc, found),
        CommandKind::Window => window_in(alloc, found),
        CommandKind::Make => make_in(found),
        CommandKind::Self_ => self_in(found),
        CommandKind::Aiger => Ok(Command::Aiger),
        CommandKind::Lift => Ok(Command::Lift),
    }
}

// The command that clap has found, with its values.
fn command_in(alloc: Global, found: &ArgMatches<'_>) -> Result<Command, WordsError>
    ensures { Reads (values_met (subcommand_rows_of found.now)) result }
{
    let Some((name, inner)) = found.subcommand() else {
        return Err(WordsError::Usage);
    };
    match kind_named(name) {
        Some(kind) => command_by(alloc, kind, inner),
        None => Err(WordsError::Usage),
    }
}

// Does nothing: its clause says that a slice has no more items than the machine can count.
fn length_fits(words: &[String])
    ensures { length words.now ≤ usize_max }
{
    words.len();
}

/// Returns the command that the words of a command line ask for. The first word is the program's
/// name, and after it stands one of `compile [--contexts C word..]`, `simulate --cycles N word..`,
/// `eval --cycles N word..`, `probe --cycles N --net NAME [--path PATH] word..`,
/// `window --gen G --x X --y Y --width W --height H word..`, `make --seed S --size K`,
/// `self --seed S --size K --cycles N`, `tape --cycles N word..`, `aiger`, `vcd --cycles N word..`,
/// `lift`. Numbers are in decimal digits, with or without leading zeros: C from 1 to 4,294,967,295;
/// N from 1 to 1,048,576, but for `tape` to 4,096; G to 4,294,967,296; X and Y to 4,294,967,295; W
/// and H from 1 to 4,096; S to 2,147,483,647; K from 1 to 128. `Usage` comes only if
/// clap finds a fault in the words, or these have no values; a command only if the words have its
/// values, and clap finds no fault in them.
pub fn command_of(alloc: Global, words: &[String]) -> Result<Command, WordsError>
    ensures ok { IfOk result (λ c. command_values (map string_bytes words.now) ≡
        Some (values_of c)) }
    ensures taken { OnOk result (IsTaken (map string_bytes words.now)) }
    ensures numbers { IfOk result (λ c. HasNumbersInRange (values_of c)) }
    ensures usage { IsErrOf result WordsError.Usage → IsTaken (map string_bytes words.now) →
        command_values (map string_bytes words.now) ≡ None }
    ensures written { (v : CommandValues) → IsWritten v (map string_bytes words.now) →
        MatchResult result (λ c. values_of c ≡ v) (λ e. e ≡ WordsError.NoMemory) }
{
    length_fits(words);
    let found = blifww_command(alloc)?.try_get_matches_from(words)?;
    let command = command_in(alloc, &found);
    drop(found);
    command
}
