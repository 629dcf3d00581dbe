// Commands of the two programs over a source and sinks in memory.
use crate::runs::halves;
use blifww_tool::run;
use std::alloc::Global;
use std::mem;
use ww_base::{MemSink, MemSource};

/// The call of the source that fails, the rooms of the output and of the errors, and the calls of each from which on all
/// fail.
#[derive(Clone, Copy)]
pub struct Limits {
    pub read: u64,
    pub rooms: (usize, usize),
    pub fails: (usize, usize),
}

/// No call fails: no run makes so many calls of the source, and none in these tests writes more.
pub const AMPLE: Limits = Limits {
    read: u64::MAX,
    rooms: (1 << 20, 99),
    fails: (13, 13),
};

// The numbers of calls of a sink. It takes 7 bytes a call, and the usage line takes fewer calls.
const CALLS: &[u64] = &[0, 1, 2, 3, 4, 5, 6, 7, 8, 9, 10, 11, 12];

// The numbers of calls from this one on.
fn calls_from(call: usize) -> &'static [u64] {
    if call < CALLS.len() {
        &CALLS[call..]
    } else {
        &[]
    }
}

/// What the next command reads, and how the last one ended: its status, what `out` and `err` hold, and how often these
/// failed. No call on it fails, since each `?` costs proof time: it notes that memory was refused, or that a command
/// wrote nothing for the next one.
#[derive(Drop)]
pub struct Runner {
    alloc: Global,
    words: Vec<String>,
    read: Vec<u8>,
    out: Vec<u8>,
    err: Vec<u8>,
    kept: Vec<u8>,
    status: u8,
    faults: (u64, u64),
    is_cut: bool,
}

impl Runner {
    /// Makes a runner, of which no command has run.
    pub fn new(alloc: Global) -> Runner {
        Runner {
            alloc,
            words: Vec::new(alloc),
            read: Vec::new(alloc),
            out: Vec::new(alloc),
            err: Vec::new(alloc),
            kept: Vec::new(alloc),
            status: 0,
            faults: (0, 0),
            is_cut: false,
        }
    }

    /// Returns the allocator of the runs.
    pub fn alloc(&self) -> Global {
        self.alloc
    }

    /// Runs commands over a text. The first reads the text, and each other one what the one before it wrote.
    pub fn run_all(&mut self, commands: &str, text: &[u8], limits: Limits) {
        self.read.clear();
        self.is_cut = self.read.extend_from_slice(text).is_err();
        let mut is_first = true;
        for command in commands.split('|') {
            if !is_first {
                self.hand_on();
            }
            is_first = false;
            self.run(command.trim(), limits);
        }
    }

    /// Returns whether the last command ended with this status, `out` and `err`, in which three full stops stand for
    /// anything.
    pub fn is(&self, status: u64, out: &str, err: &str) -> bool {
        !self.is_cut
            && u64::from(self.status) == status
            && matches(self.err.as_slice(), err)
            && matches(self.out.as_slice(), out)
    }

    /// Returns whether the last command ended with this status and these lengths of `out` and `err`, which failed so
    /// often.
    pub fn has_counts(&self, status: u8, faults: (u64, u64), lengths: (usize, usize)) -> bool {
        !self.is_cut
            && self.status == status
            && self.faults == faults
            && (self.out.len(), self.err.len()) == lengths
    }

    /// Keeps what the last command wrote to `out`, if it is the first of several; else returns whether it wrote what
    /// is kept.
    pub fn is_again(&mut self, is_first: bool) -> bool {
        if is_first {
            mem::swap(&mut self.kept, &mut self.out);
            true
        } else {
            self.out.as_slice() == self.kept.as_slice()
        }
    }

    // Gives what the last command wrote to the next one: a pattern, a routed circuit, whose box it told, or a lifted
    // netlist.
    fn hand_on(&mut self) {
        let is_handed_on = self.is(0, "#C BLIFWW 2 P ...\n", "")
            || self.is(0, "#C gate ...\n", "box ...\n")
            || self.is(0, ".model lifted\n...\n", "");
        self.is_cut = !is_handed_on;
        mem::swap(&mut self.read, &mut self.out);
    }

    // Runs a command. The source gives at most 16 bytes a call.
    fn run(&mut self, command: &str, limits: Limits) {
        self.words.clear();
        self.is_cut |= push_words(&mut self.words, self.alloc, command);
        let read = self.read.as_slice();
        match MemSource::new(self.alloc, read, 16, &[limits.read]) {
            Ok(mut src) => {
                self.run_from(is_of_wwroute(command), &mut src, limits);
                drop(src);
            }
            Err(_) => self.is_cut = true,
        }
    }

    fn run_from(&mut self, routes: bool, src: &mut MemSource, limits: Limits) {
        match MemSink::new(self.alloc, limits.rooms.0, 7, calls_from(limits.fails.0)) {
            Ok(mut out) => {
                self.run_to(routes, src, &mut out, limits);
                drop(out);
            }
            Err(_) => self.is_cut = true,
        }
    }

    fn run_to(&mut self, routes: bool, src: &mut MemSource, out: &mut MemSink, limits: Limits) {
        match MemSink::new(self.alloc, limits.rooms.1, 7, calls_from(limits.fails.1)) {
            Ok(mut err) => {
                self.status = status_of(self.alloc, routes, &self.words, src, out, &mut err);
                self.keep(out, &err);
                drop(err);
            }
            Err(_) => self.is_cut = true,
        }
    }

    // Keeps what the sinks hold, and how often they failed.
    fn keep(&mut self, out: &MemSink, err: &MemSink) {
        self.faults = (out.faults(), err.faults());
        self.out.clear();
        self.err.clear();
        self.is_cut |= self.out.extend_from_slice(out.held()).is_err()
            | self.err.extend_from_slice(err.held()).is_err();
    }
}

// Whether a text is `said`, or, if three full stops stand in `said`, begins with what precedes them and ends with what
// follows them.
fn matches(text: &[u8], said: &str) -> bool {
    let (begin, end) = halves(said, "...");
    text.starts_with(begin.as_bytes())
        && text.ends_with(end.as_bytes())
        && (begin.len() < said.len() || text.len() == said.len())
}

// Adds a word of a command, where `''` stands for the empty word. Returns whether memory ran out.
fn push_word(words: &mut Vec<String>, alloc: Global, word: &str) -> bool {
    let meant = if word == "''" { "" } else { word };
    match String::from_str(alloc, meant) {
        Ok(word) => words.push(word).is_err(),
        Err(_) => true,
    }
}

// Adds the program's name and the words of a command, or no word if the command is `none`. Returns whether memory ran
// out.
fn push_words(words: &mut Vec<String>, alloc: Global, command: &str) -> bool {
    if command == "none" {
        return false;
    }
    let mut is_short = push_word(words, alloc, "blifww");
    for word in command.split_ascii_whitespace() {
        is_short |= push_word(words, alloc, word);
    }
    is_short
}

// Whether a command is one of `wwroute`.
fn is_of_wwroute(command: &str) -> bool {
    let (word, _) = halves(command, " ");
    word == "route" || word == "extract"
}

// Runs a command. These are the calls of the two programs: their contracts are long.
fn status_of(
    alloc: Global,
    routes: bool,
    words: &[String],
    src: &mut MemSource,
    out: &mut MemSink,
    err: &mut MemSink,
) -> u8 {
    if routes {
        wwroute_tool::run(alloc, words, src, out, err)
    } else {
        run(alloc, words, src, out, err)
    }
}
