// The top call.
ghost use Rattle.std.specs.Prelude.{◌≡◌, ℕ, List, map, string_bytes, take, OnOk, OnErr, IfOk, IfErr};
ghost use Rattle.std.specs.Io.KnownBytes.{Appends};
ghost use Rattle.ww_base.specs.Faults.{HasCause};
ghost use Rattle.program_runs.specs.Netlists.{WritesItsNetlist};
ghost use Rattle.program_runs.specs.Runs.{call, reading, writing, Gained, Gave, NoWriteFailed};
ghost use Rattle.wwroute_tool.specs.declared.words.Command.TheVariants.{Extract, Route};
ghost use Rattle.routed_plans.specs.declared.nets.ShownNets.{ShownNets};
ghost use Rattle.wwroute_tool.specs.Words.{AsksFor};
ghost use Rattle.wwroute_tool.specs.Answers.{answer_text, report_line, report_of, IsWritableAnswer};
ghost use Rattle.wwroute_tool.specs.Runs.{AnswersAll, HasEarlyEnd, HasRouteReason, RouteEnds, RoutesEachNetlist, WritesItsNets, WritesItsPattern};
ghost use Rattle.wwroute_tool.specs.Tasks.{BreaksOffTask, ForTask, HasTask, IsSoundTask, MakesAll};

use crate::RouteRefusal;
use crate::answer::Answer;
use crate::report::Report;
use crate::task::{Task, task_of};
use crate::words::command_of;
use std::alloc::Global;
use ww_base::{Failed, Sink, Source, read_all};

// The greatest number of bytes that are read.
const TEXT_LIMIT: usize = 16_777_216;

/// Why a run ends before its last line.
#[derive(Drop)]
pub enum Stop {
    /// The refusal is to be told.
    Refused(RouteRefusal),
    /// The notice was cut off.
    Untold,
}

impl From<RouteRefusal> for Stop {
    ghost use Rattle.wwroute_tool.specs.declared.top.Stop.TheVariants.{Refused};

    ghost from_gives = { λ r stop. stop ≡ Refused r };

    fn from(refusal: RouteRefusal) -> Self {
        Stop::Refused(refusal)
    }
}

// Reads the text of the command that the words ask for.
fn begin<S: Source>(alloc: Global, words: &[String], src: &mut S) -> Result<Task, RouteRefusal>
    ensures begun { IfOk result (HasTask (map string_bytes words.now)
        (reading S.left S.faults src.old src.new)) }
    ensures refused { IfErr result (HasRouteReason (map string_bytes words.now)
        (reading S.left S.faults src.old src.new)) }
    ensures front { (given : List ℕ) × Gave (reading S.left S.faults src.old src.new) given }
{
    let Some(command) = command_of(words) else {
        return Err(RouteRefusal::Usage);
    };
    let text = read_all(alloc, src, TEXT_LIMIT)?;
    let task = task_of(alloc, command, text)?;
    Ok(task)
}

// Writes an answer, and drops it. Returns what is told beside it.
fn send<O: Sink>(answer: Answer, out: &mut O) -> Result<Report, Failed>
    requires { IsWritableAnswer answer }
    ensures ok { OnOk result
        (Appends (O.written out.old) (O.written out.new) (answer_text answer)) }
    ensures report { IfOk result (λ report. report ≡ report_of answer) }
    ensures front { OnErr result
        ((n : ℕ) × Appends (O.written out.old) (O.written out.new) (take n (answer_text answer))) }
    ensures cause { HasCause (O.faults out.old) (O.faults out.new) result }
{
    let written = answer.write(out);
    let report = answer.report();
    drop(answer);
    match written {
        Ok(()) => Ok(report),
        Err(failed) => Err(failed),
    }
}

// Does a task, and writes its answer. Returns what is to be told beside it.
fn finish<O: Sink>(alloc: Global, task: &Task, out: &mut O) -> Result<Report, RouteRefusal>
    requires { IsSoundTask task.now }
    ensures done { IfOk result (λ report. ForTask task.now (λ command text. MakesAll command text
        (writing O.written O.faults out.old out.new) (report_line report))) }
    ensures calm { OnOk result (NoWriteFailed (writing O.written O.faults out.old out.new)) }
    ensures stopped { IfErr result (λ r. ForTask task.now (λ command text.
        BreaksOffTask command text task.now (writing O.written O.faults out.old out.new) r)) }
{
    let answer = task.answer(alloc)?;
    let report = send(answer, out)?;
    Ok(report)
}

// Does what the words ask for, and returns what is to be told beside the answer. Before that it tells
// the notice.
fn work<S: Source, O: Sink, E: Sink>(
    alloc: Global,
    words: &[String],
    src: &mut S,
    out: &mut O,
    err: &mut E,
) -> Result<Report, Stop>
    ensures done { IfOk result (λ report. (done : AnswersAll (map string_bytes words.now)
        (reading S.left S.faults src.old src.new)
        (writing O.written O.faults out.old out.new) (report_line report))
        × Gained (writing E.written E.faults err.old err.new) done.begun.notice) }
    ensures out_calm { OnOk result (NoWriteFailed (writing O.written O.faults out.old out.new)) }
    ensures err_calm { OnOk result (NoWriteFailed (writing E.written E.faults err.old err.new)) }
    ensures stopped { IfErr result (HasEarlyEnd (map string_bytes words.now)
        (reading S.left S.faults src.old src.new)
        (writing O.written O.faults out.old out.new)
        (writing E.written E.faults err.old err.new)) }
    ensures front { (given : List ℕ) × Gave (reading S.left S.faults src.old src.new) given }
{
    let task = begin(alloc, words, src)?;
    match task.notice().tell(err) {
        Ok(()) => {
            let finished = finish(alloc, &task, out);
            drop(task);
            let report = finished?;
            Ok(report)
        }
        Err(Failed) => {
            drop(task);
            Err(Stop::Untold)
        }
    }
}

/// Does what the words ask for, and returns the exit status. `words` begins with the program's
/// name.
///
/// - `extract` reads a pattern with its port table from `src`. If it is a routed circuit, gates of the
///   library that stand apart and wires between them, `extract` writes the BLIF text of a netlist
///   that it carries to `out`, with the names of its inputs and outputs. Lines of comments may name
///   the gates and wires; where they do not, these are searched for.
/// - `route` reads the BLIF text of a netlist from `src` and writes a pattern that carries it to
///   `out`, as extended RLE with lines that say where its ports are: a routed circuit, after lines that
///   name its gates and wires, or, if none is found, the pattern that `blifww compile` draws by lanes.
///   A net that is drawn has a NET line. It writes one line to `err`, which tells the box and the
///   period. If the netlist weighs more than 400, it first writes a line there that tells the weight,
///   since the search may take long.
/// - `route --nets` draws all nets but the clock nets, and each of these has a NET line.
///
/// The statuses:
///
/// - 0: `out` has the whole netlist or the whole pattern.
/// - 1: the netlist's text breaks a rule.
/// - 2: the words are neither `extract` nor `route`, nor `route --nets`.
/// - 3: covers read each other in a circle.
/// - 4: the text has more than 16,777,216 bytes, the netlist weighs more than 8,192, or the pattern's
///   box has more than 67,108,864 cells.
/// - 5: `src` failed.
/// - 6: `out` or `err` failed.
/// - 7: there was not enough memory.
/// - 8: the text is no pattern, or its port table is at fault.
/// - 12: the pattern with its port table was not found to be a routed circuit, or has names that no
///   netlist's ports can have; the line says what is wrong, and names a cell of the gate, the wire or
///   the table's line that is at fault, or 0 0.
///
/// If several apply to a netlist, the first in this order is answered: 2, 5, 4 (the text), 1 (lines
/// and models), 4 (the weight), 1 (clocks), 3, 6. With each status except 0 and 6, one line on `err`
/// tells it, and `out` has gained nothing; with 7, the line of the weight may stand before it. With 2,
/// `src` is as it was.
pub fn run<S: Source, O: Sink, E: Sink>(
    alloc: Global,
    words: &[String],
    src: &mut S,
    out: &mut O,
    err: &mut E,
) -> u8
    // The bytes that `route` has written are the text of a pattern that carries the design of the
    // text that `src` had left: for all streams, at every generation.
    ensures headline { result ≡ 0 → (nets : ShownNets)
        → AsksFor (map string_bytes words.now) (Route nets)
        → WritesItsPattern (reading S.left S.faults src.old src.new)
        (writing O.written O.faults out.old out.new) }

    // Each NET line of it names a net of this design, and its cell shows the net's bits: for all
    // streams, at every generation. With `--nets` each net but the clock nets has such a line.
    ensures nets { result ≡ 0 → (nets : ShownNets)
        → AsksFor (map string_bytes words.now) (Route nets)
        → WritesItsNets nets (reading S.left S.faults src.old src.new)
        (writing O.written O.faults out.old out.new) }

    // Each netlist within the limits is routed, unless a read or a write fails or memory runs out.
    ensures routes { RoutesEachNetlist (call (map string_bytes words.now)
        (reading S.left S.faults src.old src.new)
        (writing O.written O.faults out.old out.new)
        (writing E.written E.faults err.old err.new)) result }

    // The bytes that `extract` has written are the text of a netlist without a fault or a loop, and
    // the pattern that `src` had left carries this netlist: for all streams, at every generation.
    ensures extracts { result ≡ 0 → AsksFor (map string_bytes words.now) Extract
        → WritesItsNetlist (reading S.left S.faults src.old src.new)
        (writing O.written O.faults out.old out.new) }

    // How the run ends: done, refused or cut off, each status only with its reason. A pattern that
    // is written is told by a line with its box and its period, and before a heavy netlist is drawn
    // stands a line with its weight.
    ensures ends { RouteEnds (call (map string_bytes words.now)
        (reading S.left S.faults src.old src.new)
        (writing O.written O.faults out.old out.new)
        (writing E.written E.faults err.old err.new)) result }
{
    match work(alloc, words, src, out, err) {
        Ok(report) => match report.tell(err) {
            Ok(()) => 0,
            Err(Failed) => 6,
        },
        Err(Stop::Refused(refusal)) => match refusal.tell(err) {
            Ok(()) => refusal.status(),
            Err(Failed) => 6,
        },
        Err(Stop::Untold) => 6,
    }
}
