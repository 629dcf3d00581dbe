//! The program: fetches the words, makes the standard streams and calls `wwroute_tool`.
#![tactic(auto)]

ghost use Rattle.std.specs.Prelude.{◌≡◌, ◌≢◌, codes};
ghost use Rattle.std.specs.Io.KnownBytes.{Appends};
ghost use Rattle.ww_base.specs.Faults.{RoseByOne};

use std::env;
use std::process::ExitCode;
use ww_base::{Failed, Sink, StdSink, StdSource, write_all};

// Tells that there is no memory for the words, and returns the status.
fn tell_no_memory<E: Sink>(err: &mut E) -> u8
    ensures told { result ≡ 7 → Appends (E.written err.old) (E.written err.new)
        (codes "no memory\n") }
    ensures failed { result ≢ 7 → (result ≡ 6) × RoseByOne (E.faults err.old) (E.faults err.new) }
{
    match write_all(err, b"no memory\n") {
        Ok(()) => 7,
        Err(Failed) => 6,
    }
}

fn main(rt: HostRuntime) -> ExitCode {
    let mut src = StdSource::new(rt.stdin());
    let mut out = StdSink::new(rt.stdout());
    let mut err = StdSink::new(rt.stderr());
    // If the words cannot be had, they are no command.
    let words = match env::args(&rt) {
        Ok(words) => words.collect::<Vec<String>>(rt.alloc()),
        Err(_) => Ok(Vec::new(rt.alloc())),
    };
    ExitCode::from(match words {
        Ok(words) => wwroute_tool::run(rt.alloc(), &words, &mut src, &mut out, &mut err),
        Err(_) => tell_no_memory(&mut err),
    })
}
