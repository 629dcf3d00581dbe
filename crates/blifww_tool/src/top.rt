// The top call.
ghost use Rattle.std.specs.Prelude.{◌≡◌, ℕ, List, [], map, string_bytes, take, IfOk, IfErr, OnOk, OnErr, IsErrOf};
ghost use Rattle.std.specs.Io.KnownBytes.{Appends};
ghost use Rattle.ww_base.specs.Faults.{HasCause};
ghost use Rattle.command_words.specs.Shapes.{aiger, compile, lift, tape, values_of, vcd, HasNumbersInRange};
ghost use Rattle.blifww_tool.specs.Headline.{WritesDump, WritesInContexts, WritesItsAig, WritesTape, WritesWhatItRead};
ghost use Rattle.program_runs.specs.Netlists.{WritesItsNetlist};
ghost use Rattle.blifww_tool.specs.Commands.{Prints, HasTextCause};
ghost use Rattle.blifww_tool.specs.Answer.{output_text, IsWritableOutput, HasStopped, HasStoppedOn, PrintsPart};
ghost use Rattle.blifww_tool.specs.Run.{Asks, AsksForNoText, Does, Ends};
ghost use Rattle.program_runs.specs.Runs.{reading, writing, call, Gave, NoWriteFailed};

use crate::aiger::aiger;
use crate::compile::compile;
use crate::eval::eval;
use crate::input::text_for;
use crate::lift::lift;
use crate::make::make;
use crate::output::Output;
use crate::probe::probe;
use crate::simulate::simulate;
use crate::summary::summary;
use crate::tape::tape;
use crate::vcd::vcd;
use crate::window::window;
use command_words::{Command, command_of};
use program_runs::{Refusal, TextError};
use std::alloc::Global;
use ww_base::{Failed, Sink, Source};

// What a command prints of a text. All memory that the command needs is taken here.
fn answer(alloc: Global, command: &Command, text: &[u8]) -> Result<Output, TextError>
    requires numbers { HasNumbersInRange (values_of command.now) }
    ensures printed { IfOk result (λ output. Prints (values_of command.now) text.now
        (output_text output)) }
    ensures writable { IfOk result IsWritableOutput }
    ensures refused { IfErr result (λ e. HasTextCause (values_of command.now) text.now e) }
{
    match command {
        Command::Compile { contexts, starts } => {
            compile(alloc, *contexts, starts.as_slice(), text)
        }
        Command::Simulate { cycles, streams } => simulate(alloc, *cycles, streams.as_slice(), text),
        Command::Eval { cycles, streams } => eval(alloc, *cycles, streams.as_slice(), text),
        Command::Probe {
            cycles,
            net,
            path,
            streams,
        } => probe(
            alloc,
            *cycles,
            net.as_bytes(),
            path.as_bytes(),
            streams.as_slice(),
            text,
        ),
        Command::Window { view, streams } => window(alloc, *view, streams.as_slice(), text),
        Command::Make { seed, size } => make(alloc, *seed, *size),
        Command::Self_ { seed, size, cycles } => summary(alloc, *seed, *size, *cycles),
        Command::Tape { cycles, streams } => tape(alloc, *cycles, streams.as_slice(), text),
        Command::Aiger => aiger(alloc, text),
        Command::Vcd { cycles, streams } => vcd(alloc, *cycles, streams.as_slice(), text),
        Command::Lift => lift(alloc, text),
    }
}

// Writes an output, and drops it.
fn send<O: Sink>(output: Output, out: &mut O) -> Result<(), Failed>
    requires { IsWritableOutput output }
    ensures ok { OnOk result
        (Appends (O.written out.old) (O.written out.new) (output_text output)) }
    ensures front { OnErr result
        ((n : ℕ) × Appends (O.written out.old) (O.written out.new) (take n (output_text output))) }
    ensures cause { HasCause (O.faults out.old) (O.faults out.new) result }
{
    let written = output.write(out);
    drop(output);
    written
}

// Writes what the command prints of a text.
fn print<O: Sink>(alloc: Global, command: &Command, text: &[u8], out: &mut O) -> Result<(), Refusal>
    requires numbers { HasNumbersInRange (values_of command.now) }
    ensures done { OnOk result (PrintsPart (values_of command.now) text.now
        (writing O.written O.faults out.old out.new) (λ output. output)) }
    ensures calm { OnOk result (NoWriteFailed (writing O.written O.faults out.old out.new)) }
    ensures stopped { IfErr result (HasStoppedOn (values_of command.now) text.now
        (writing O.written O.faults out.old out.new)) }
{
    let output = answer(alloc, command, text)?;
    send(output, out)?;
    Ok(())
}

// Does what the words ask for.
fn work<S: Source, O: Sink>(
    alloc: Global,
    words: &[String],
    src: &mut S,
    out: &mut O,
) -> Result<(), Refusal>
    ensures done { OnOk result (Does (map string_bytes words.now)
        (reading S.left S.faults src.old src.new)
        (writing O.written O.faults out.old out.new) (λ output. output)) }
    ensures calm { OnOk result (NoWriteFailed (writing O.written O.faults out.old out.new)) }
    ensures stopped { IfErr result (λ r. HasStopped (map string_bytes words.now)
        (reading S.left S.faults src.old src.new)
        (writing O.written O.faults out.old out.new) r) }
    ensures front { (given : List ℕ) × Gave (reading S.left S.faults src.old src.new) given }
    ensures unread { AsksForNoText (map string_bytes words.now) → src.new ≡ src.old }
    ensures refused_unread { IsErrOf result Refusal.Usage → src.new ≡ src.old }
{
    let command = command_of(alloc, words)?;
    let text = text_for(alloc, &command, src)?;
    let done = print(alloc, &command, text.as_slice(), out);
    drop(text);
    drop(command);
    done
}

/// Does what the words ask for, and returns the exit status. `words` begins with the program's
/// name.
///
/// - `compile` reads the BLIF text of a netlist from `src` and writes a pattern that carries it to
///   `out`, as extended RLE with lines that say where its ports are.
/// - `compile --contexts C c:net=bit..` writes a pattern in which C machines run on the same wires,
///   each 32 generations after the one before. A word sets the bit with which a latch starts in
///   context c: the latch whose output is joined with that net of the main model. A latch that no
///   word sets starts as the netlist says.
/// - `simulate --cycles N name=bits..` reads such a pattern, with any ports, and writes a line
///   `name=bits` for each output, with the bits that its cell shows when the streams of the words
///   drive the inputs. If the pattern's table has several contexts, words and lines are
///   `c:name=bits`, and all outputs of context 0 come first.
/// - `eval --cycles N name=bits..` reads a netlist and writes such lines with the bits of its run
///   on the streams.
/// - `probe --cycles N --net NAME [--path PATH] name=bits..` reads a pattern and writes such a line
///   for a net of its port table, one for each context.
/// - `window --gen G --x X --y Y --width W --height H name=bits..` reads a pattern and writes the
///   cells of a part of its plane at a generation.
/// - `make --seed S --size K` reads nothing and writes the text of a netlist that is made from the
///   seed.
/// - `self --seed S --size K --cycles N` reads nothing and writes a summary of that netlist,
///   compiled, simulated and evaluated.
/// - `tape --cycles N name=bits..` reads a netlist and writes a pattern that needs no driving: the
///   streams lie in it, and it goes on with zeros.
/// - `aiger` reads a circuit in the AIGER format's ASCII form and writes a pattern that carries it,
///   as `compile` does for a netlist, but without lines for nets.
/// - `vcd --cycles N name=bits..` reads a pattern and writes the bits that all nets of its port
///   table show, as a VCD text: a variable for each net in each context, with all nets of context 0
///   first.
/// - `lift` reads a pattern and, if with its port table it is the drawing of a circuit, writes the
///   BLIF text of a netlist that it carries.
///
/// The statuses:
///
/// - 0: `out` has the whole output.
/// - 1: the netlist's text, or the AIGER circuit's, breaks a rule.
/// - 2: the words are no command.
/// - 3: covers, or the AIGER circuit's gates, read each other in a circle.
/// - 4: the text has more than 16,777,216 bytes; the netlist, or the AIGER circuit, weighs more
///   than 8,192; the pattern's box has more than 268,435,456 cells; its last bits come after
///   generation 4,294,967,296; or the pattern has no room for so many contexts (it has room for at
///   least one, and for 6 for each latch).
/// - 5: `src` failed.
/// - 6: `out` or `err` failed.
/// - 7: there was not enough memory.
/// - 8: the text is no pattern, or its port table is at fault.
/// - 9: the words are no streams for the inputs, or no starts for the latches, or the table does
///   not have the net that is asked for.
/// - 10: an injection is due at a cell that is no conductor then.
/// - 12: the pattern with its port table is the drawing of no circuit, or has names that no
///   netlist's ports can have.
///
/// If several apply, the first in this order is answered: 2, 5, 4 (the text); then for a netlist 1
/// (lines and models), 4 (the weight), 1 (clocks), 3; for an AIGER circuit 1, 4 (the weight), 3;
/// and for a pattern 8 (the header), 4 (the box), 8 (the items), 8 (the table); then 9 (words), 9
/// (the net), 4 (generations), 10, 4 (contexts), 12, 6. With each status except 0 and 6, one line
/// on `err` tells it, and `out` has gained nothing.
pub fn run<S: Source, O: Sink, E: Sink>(
    alloc: Global,
    words: &[String],
    src: &mut S,
    out: &mut O,
    err: &mut E,
) -> u8
    // The bytes that `compile` has written carry the design of the text that `src` had left,
    ensures headline { result ≡ 0 → Asks (map string_bytes words.now) (compile 1 [])
        → WritesWhatItRead (reading S.left S.faults src.old src.new)
        (writing O.written O.faults out.old out.new) }

    // and with `--contexts` they carry it in so many contexts, each from the state that the words
    // give it.
    ensures contexts { result ≡ 0 → (contexts : ℕ) (starts : List (List ℕ))
        → Asks (map string_bytes words.now) (compile contexts starts)
        → WritesInContexts contexts starts (reading S.left S.faults src.old src.new)
        (writing O.written O.faults out.old out.new) }

    // The bytes that `tape` has written run by themselves as the netlist of the text that `src` had
    // left, on the streams of the words, and on zeros after them.
    ensures tapes { result ≡ 0 → (cycles : ℕ) (streams : List (List ℕ)) →
        Asks (map string_bytes words.now) (tape cycles streams)
        → WritesTape cycles streams (reading S.left S.faults src.old src.new)
        (writing O.written O.faults out.old out.new) }

    // The bytes that `aiger` has written carry the AIGER circuit of the text that `src` had left.
    ensures aigs { result ≡ 0 → Asks (map string_bytes words.now) aiger
        → WritesItsAig (reading S.left S.faults src.old src.new)
        (writing O.written O.faults out.old out.new) }

    // The bytes that `vcd` has written are a VCD text of what the nets of the pattern that `src`
    // had left show when the streams of the words drive it, and they read as that alone.
    ensures dumps { result ≡ 0 → (cycles : ℕ) (streams : List (List ℕ)) →
        Asks (map string_bytes words.now) (vcd cycles streams)
        → WritesDump cycles streams (reading S.left S.faults src.old src.new)
        (writing O.written O.faults out.old out.new) }

    // The bytes that `lift` has written are the text of a netlist without a fault or a loop, and
    // the pattern that `src` had left carries this netlist.
    ensures lifts { result ≡ 0 → Asks (map string_bytes words.now) lift
        → WritesItsNetlist (reading S.left S.faults src.old src.new)
        (writing O.written O.faults out.old out.new) }

    // How the run ends, for every command: done, refused or cut off, each status only with its
    // cause. No stream fails twice: its count of faults stays, or rises by one. A cause in the
    // words or the text is always told, unless a read or a write fails or memory runs out.
    ensures ends { Ends (call (map string_bytes words.now) (reading S.left S.faults src.old src.new)
        (writing O.written O.faults out.old out.new)
        (writing E.written E.faults err.old err.new)) result }

    // The source is left alone if the words are no command, or those of a command that reads
    // nothing.
    ensures unread { AsksForNoText (map string_bytes words.now) → src.new ≡ src.old }
    ensures refused_unread { result ≡ 2 → src.new ≡ src.old }
{
    match work(alloc, words, src, out) {
        Ok(()) => 0,
        Err(refusal) => match refusal.tell(err) {
            Ok(()) => refusal.status(),
            Err(Failed) => 6,
        },
    }
}
