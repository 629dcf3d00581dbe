// Runs over sources and sinks in memory.
//
// A list of cases is one text, since each row of a table adds to the cost of its proof, and stands in bytes, which cost
// half of what a `str` does. A case begins with `>` and a line of commands with `|` between them; each command reads
// what the one before wrote. A command alone may have three numbers in brackets: the number of the source's call that
// fails, counted from 0, and the rooms of the output and of the errors; a case with malformed brackets fails. Other
// commands may follow, each after ` & `: they end in the same way, and write the same to the output, byte for byte. A
// remark on the case stands after ` -- `. `none` is no word at all, and `''` an empty one; `route` and `extract` are
// the commands of `wwroute`. Then come the lines of the text that the first command reads; a case without them reads
// the text that the last line with `@` names. Then come `== ` with the status, and the lines that the last command
// writes: to the output if the status is 0, and else to the errors, or to the output up to `== err` and to the errors
// after it. It writes nothing more. Three full stops stand for anything.
//
// If a command follows the name after `@`, the cases are changes: the command reads the named text with the lines of
// the case in place of the case's first line, at the first place where that stands.

mod circuits;
mod compiling;
mod contexts;
mod dumps;
mod evaluating;
mod failing;
mod lifts;
mod long;
mod nets;
mod repeating;
mod routing;
mod runner;
mod simulating;
mod tables;
mod tapes;
mod twice;
mod words;

use failing::wrong_counts;
use repeating::is_repeated;
use runner::{AMPLE, Limits, Runner};
use std::str::from_utf8;
use std::test::Fail;

/// The netlist of an OR gate.
pub const GATE: &[u8] = b".model or\n.inputs a b\n.outputs y\n.names a b y\n1- 1\n-1 1\n.end\n";

/// The pattern that `compile` writes for `GATE`: 321 bytes.
pub const PATTERN: &[u8] =
    b"#C BLIFWW 2 P 32 L 32 C 1\n#C BLIFWW IN 0 8 a\n#C BLIFWW IN 0 24 b\n#C BLIFWW OUT 32 8 y\n#C BLIFWW NET 0 8 0 a -\n#C BLIFWW NET 0 24 0 b -\n#C BLIFWW NET 31 8 31 y -\nx = 33, y = 32, rule = WireWorld\n8$5C18.10C$5.C16.C$6.C14.C$7.C12.C$8.C10.C$9.C.2C5.C$10.2C.C3.C$11.2C.\nC.C$15.C$11.2C.C$10.2C.C$9.C.2C$8.C$7.C$6.C$5.C$5C26.C!\n";

// The text that bytes are. What they are not is a group that names no text.
fn text_of(bytes: &[u8]) -> &str {
    match from_utf8(bytes) {
        Ok(text) => text,
        Err(_) => "no UTF-8\n",
    }
}

/// Returns what stands before a mark and what stands after it: the whole text and the empty text if
/// the mark is not there.
pub fn halves<'a>(text: &'a str, mark: &str) -> (&'a str, &'a str) {
    match text.split_once(mark) {
        Some(both) => both,
        None => (text, ""),
    }
}

/// A case, without its `>`.
#[derive(Clone, Copy)]
pub struct Case<'a> {
    commands: &'a str,
    limits: Limits,
    text: &'a str,
    status: u64,
    out: &'a str,
    err: &'a str,
}

// The number that digits write, or the greatest if they write none.
fn number_of(digits: &str) -> u64 {
    digits.parse().unwrap_or(u64::MAX)
}

// The limits that three numbers before the bracket at the end of a line give. There is no such room if they are
// malformed.
fn limits_of(numbers: &str) -> Limits {
    let (call, rooms) = halves(numbers, " ");
    let (out, rest) = halves(rooms, " ");
    let err = rest.strip_suffix("]").unwrap_or("");
    Limits {
        read: number_of(call),
        rooms: (number_of(out) as usize, number_of(err) as usize),
        ..AMPLE
    }
}

// What a run with this status writes to the output and to the errors.
fn written_of(status: u64, said: &str) -> (&str, &str) {
    let (out, err) = halves(said, "== err\n");
    if status == 0 || out.len() < said.len() {
        (out, err)
    } else {
        ("", said)
    }
}

// Reads a case from its text, without its `>`. No run has the status of a malformed text.
fn case_of(case: &str) -> Case<'_> {
    let (asked, wanted) = halves(case, "== ");
    let (line, text) = halves(asked, "\n");
    let (line, _) = halves(line, " -- ");
    let (commands, numbers) = halves(line, " [");
    let (number, said) = halves(wanted, "\n");
    let status = number_of(number);
    let (out, err) = written_of(status, said);
    Case {
        commands: commands.trim(),
        limits: if numbers.is_empty() {
            AMPLE
        } else {
            limits_of(numbers)
        },
        text,
        status,
        out,
        err,
    }
}

// The text that a line with `@` names. The cases above the first such line read the empty text.
fn text_named(name: &str) -> Option<&'static [u8]> {
    match name {
        "" => Some(b""),
        "gate" => Some(GATE),
        "gate's pattern" => Some(PATTERN),
        "inverter" => Some(compiling::INVERTER),
        "toggle" => Some(compiling::TOGGLE),
        "counter" => Some(nets::COUNTER),
        "adder" => Some(nets::ADDER),
        "heavy" => Some(routing::HEAVY),
        "circuit" => Some(circuits::NAND),
        "gate's lines" => Some(lifts::GATE_LINES),
        "ring's lines" => Some(lifts::RING_LINES),
        "wire" => Some(contexts::WIRE),
        "latch" => Some(simulating::LATCH),
        "latches" => Some(contexts::LATCHES),
        _ => None,
    }
}

/// Returns whether the commands, and those after ` & `, end as a case wants when they read this text, and write one
/// output.
pub fn are_ends(runner: &mut Runner, case: &Case, commands: &str, text: &[u8]) -> bool {
    let (mut is_so, mut is_first) = (true, true);
    for chain in commands.split('&') {
        runner.run_all(chain.trim(), text, case.limits);
        is_so &= runner.is(case.status, case.out, case.err) && runner.is_again(is_first);
        is_first = false;
    }
    is_so
}

// Whether a case ends as it wants, with its commands and with those after ` & `. A case without a
// text reads `other`; one that begins with a number repeats parts so often.
fn is_met(runner: &mut Runner, case: &Case, other: &str) -> bool {
    let (number, commands) = halves(case.commands, " ");
    let times = number_of(number);
    if times < u64::MAX {
        return is_repeated(runner, case, commands, times as usize);
    }
    let text = if case.text.is_empty() {
        other
    } else {
        case.text
    };
    are_ends(runner, case, case.commands, text.as_bytes())
}

// Whether the command over the changed lines ends as the change wants. It finds the first place of the line that is
// changed.
fn is_change_met(runner: &mut Runner, change: &Case, command: &str, lines: &str) -> bool {
    let (before, rest) = halves(lines, change.commands);
    let (_, after) = halves(rest, "\n");
    let mut text = String::new(runner.alloc());
    let is_short = text.push_str(before).is_err()
        | text.push_str(change.text).is_err()
        | text.push_str(after).is_err();
    let is_so = !is_short
        && before.len() < lines.len()
        && text.as_str() != lines
        && are_ends(runner, change, command, text.as_bytes());
    drop(text);
    is_so
}

// Whether a case of a group ends as it wants. The case reads a text if it has none of its own; if there is a command,
// the case is a change, and the command reads the changed text.
fn is_case_met(runner: &mut Runner, said: &str, command: &str, text: &str) -> bool {
    let case = case_of(said);
    if command.is_empty() {
        is_met(runner, &case, text)
    } else {
        is_change_met(runner, &case, command, text)
    }
}

// The first case of a group that does not end as it wants, or the group's first line if it names no text.
fn wrong_case<'a>(runner: &mut Runner, group: &'a str) -> Option<&'a str> {
    let (head, cases) = halves(group, "\n");
    let (name, command) = halves(head, ": ");
    let Some(text) = text_named(name.trim()) else {
        return Some(head);
    };
    for case in cases.split('>') {
        if !case.is_empty() && !is_case_met(runner, case, command, text_of(text)) {
            return Some(case);
        }
    }
    None
}

// The first case of a list that does not end as it wants.
fn wrong_in<'a>(runner: &mut Runner, list: &'a str) -> Option<&'a str> {
    for group in list.split('@') {
        let wrong = wrong_case(runner, group);
        if wrong.is_some() {
            return wrong;
        }
    }
    None
}

// The lists of cases by number.
fn list_at(number: usize) -> &'static [u8] {
    match number {
        0 => circuits::CASES,
        1 => compiling::CASES,
        2 => contexts::CASES,
        3 => dumps::CASES,
        4 => evaluating::CASES,
        5 => failing::CASES,
        6 => lifts::CASES,
        7 => long::CASES,
        8 => nets::CASES,
        9 => repeating::CASES,
        10 => routing::CASES,
        11 => simulating::CASES,
        12 => tables::CASES,
        13 => tapes::CASES,
        14 => twice::CASES,
        _ => words::CASES,
    }
}

// The first case of all lists that does not end as it wants.
fn first_wrong(runner: &mut Runner) -> Option<&'static str> {
    for number in 0..16 {
        let wrong = wrong_in(runner, text_of(list_at(number)));
        if wrong.is_some() {
            return wrong;
        }
    }
    wrong_counts(runner)
}

#[test]
fn commands_write_or_tell_why_not(rt: HostRuntime) -> Result<(), Fail> {
    let mut runner = Runner::new(rt.alloc());
    let wrong = first_wrong(&mut runner);
    drop(runner);
    match wrong {
        None => Ok(()),
        Some(case) => Err(Fail::new(format_args!("this is not so: {case}"))),
    }
}
