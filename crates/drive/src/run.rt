// A pattern's run under injections, in bands of rows that are all at one generation.
ghost use Rattle.std.specs.Prelude.{◌≡◌, ◌≤◌, ◌<◌, ◌+◌, ◌-ℤ◌, ◌^◌, All, IfErr, IfOk, IfSome, None, OnOk, drop, length, map, pos, true};
ghost use Rattle.std.specs.List.{find};
ghost use Rattle.ww_rule.specs.Due.{AreInOrderFrom, AreLeftAt};
ghost use Rattle.ww_rule.specs.Injections.{AreInside};
ghost use Rattle.ww_rule.specs.Patterns.{grid_of};
ghost use Rattle.ww_rule.specs.Grid.{AreInBox, plane_of};
ghost use Rattle.ww_rule.specs.Wireworld.{count_head, heads_around, is_head};
ghost use Rattle.pattern_reading.specs.Ports.{cells_of};
ghost use Rattle.drive.specs.Driving.{AreFor, HasRunCause, driven_by, first_miss};
ghost use Rattle.ww_rule.specs.Turns.{injection_turned};
ghost use Rattle.drive.specs.Runs.{IsBandRun, evolution, first_miss_in, injection_misses, first_miss_of, planes_of};

use crate::driving::injections;
use crate::misses::first_on_pattern;
use crate::{DriveError, SimulateError};
use band_core::{Bands, calm_count, due_count};
use pattern_reading::Ports;
use std::alloc::Global;
use streams::Streams;
use ww_rule::{Injection, Pattern, State};

/// The greatest number of rows of a band.
const MOST_BAND_ROWS: usize = 1 << 20;

/// The number of cells of a row in one word of a band.
const WORD_CELLS: u64 = 64;

/// How a run's pattern lies in its bands: as it was given, or with its columns as rows.
#[derive(Clone, Copy)]
pub enum Orientation {
    Upright,
    Turned,
}

/// A driven pattern in bands, with its orientation, the number of columns and rows in the bands,
/// and the bands' generation. The injections from the next one on are of later generations;
/// `missed` is the first of the earlier ones whose cell was no conductor before it. When a run is
/// still, no cell changes any more.
#[derive(Drop)]
pub struct Run {
    bands: Bands,
    band_rows: u32,
    orientation: Orientation,
    width: u64,
    rows: usize,
    next_injection: usize,
    missed: Option<Injection>,
    generation: u64,
    is_still: bool,
}

// The number of rows of a band, if there are so many rows: all of them stand in one band, if they
// may.
fn band_rows(rows: usize) -> u32
    ensures { 0 < result }
{
    rows.clamp(1, MOST_BAND_ROWS) as u32
}

// Whether a row fills less than one word, and there are more rows than columns.
fn is_narrow(pattern: &Pattern) -> bool {
    pattern.width < WORD_CELLS && pattern.width < pattern.height
}

// Turns each injection.
fn turn_each(injections: &mut [Injection])
    ensures { injections.new ≡ map injection_turned injections.old }
{
    for injection in injections.iter_mut() {
        *injection = injection.turned();
    }
}

// The injections, each turned.
fn turned_all(injections: Vec<Injection>) -> Vec<Injection>
    ensures { result.items ≡ map injection_turned injections.items }
{
    let mut turned = injections;
    turn_each(&mut turned);
    turned
}

impl Run {
    // The run of a pattern under injections, at generation 0. The pattern and the injections lie in
    // the bands in this orientation.
    fn begin(
        alloc: Global,
        pattern: Pattern,
        injections: Vec<Injection>,
        orientation: Orientation,
    ) -> Result<Run, DriveError>
        requires inside { AreInside pattern.width pattern.height injections.items }
        requires in_order { AreInOrderFrom 0 injections.items }
        ensures run { IfOk result IsBandRun }
        ensures begun { IfOk result (λ run. run.generation ≡ 0) }
        ensures orientation { IfOk result (λ run. run.orientation ≡ orientation) }
        ensures grid { IfOk result (λ run. run.bands.grid ≡ grid_of pattern) }
        ensures injections { IfOk result (λ run. run.bands.injections ≡ injections.items) }
    {
        let width = pattern.width;
        let rows = pattern.rows.len();
        let next_injection = due_count(0, &injections);
        let missed = first_on_pattern(&pattern, &injections[..next_injection]);
        let band_rows = band_rows(rows);
        let bands = Bands::new(alloc, pattern, injections, band_rows)?;
        Ok(Run {
            bands,
            band_rows,
            orientation,
            width,
            rows,
            next_injection,
            missed,
            generation: 0,
            is_still: false,
        })
    }

    /// Makes the run of a pattern that streams drive, at generation 0. A call needs one stream, of
    /// any number of cycles, for each input of each context, and inputs inside the pattern's box.
    /// `NoMemory` is the only error.
    pub fn of_streams(
        alloc: Global,
        pattern: Pattern,
        ports: &Ports,
        streams: &Streams,
    ) -> Result<Run, DriveError>
        requires streams { AreFor ports.now streams.now }
        requires in_box { AreInBox pattern.width pattern.height (cells_of ports.now.ins) }
        ensures run { IfOk result IsBandRun }
        ensures begun { IfOk result (λ run. run.generation ≡ 0) }
        ensures planes { IfOk result (λ run.
            planes_of run ≡ driven_by ports.now streams.now (plane_of pattern.rows)) }
        ensures misses { IfOk result (λ run.
            first_miss_of run ≡ first_miss ports.now streams.now (plane_of pattern.rows)) }
    {
        let due = injections(alloc, ports, streams)?;
        if !is_narrow(&pattern) {
            return Run::begin(alloc, pattern, due, Orientation::Upright);
        }
        let turned = pattern.turned(alloc)?;
        Run::begin(alloc, turned, turned_all(due), Orientation::Turned)
    }

    // 1 if the cell at column `x - 1` and row `y - 1` in the bands is a head; a 0 for x or y means
    // the place left of the bands or above them.
    fn head_before(&self, x: u128, y: u128) -> usize
        requires { IsBandRun self.now }
        ensures counted { result ≡ count_head (
            evolution self.now.bands self.now.generation (pos x -ℤ pos 1) (pos y -ℤ pos 1)) }
        ensures few { result ≤ 1 }
    {
        if x == 0 || y == 0 {
            return 0;
        }
        match self.state_in_bands(x - 1, y - 1) {
            State::Head => 1,
            _ => 0,
        }
    }

    // How many of the eight cells around a cell of the bands are heads.
    fn heads_around(&self, x: u128, y: u128) -> usize
        requires run { IsBandRun self.now }
        requires room { x + 2 < 2 ^ 128 }
        requires room_below { y + 2 < 2 ^ 128 }
        ensures { result ≡ heads_around (evolution self.now.bands self.now.generation) (pos x)
            (pos y) }
    {
        let over = self.head_before(x, y) + self.head_before(x + 1, y) + self.head_before(x + 2, y);
        let beside = self.head_before(x, y + 1) + self.head_before(x + 2, y + 1);
        let under = self.head_before(x, y + 2)
            + self.head_before(x + 1, y + 2)
            + self.head_before(x + 2, y + 2);
        over + beside + under
    }

    // Whether the cell of an injection of the next generation will be no conductor before the
    // injection.
    fn misses(&self, injection: &Injection) -> bool
        requires run { IsBandRun self.now }
        requires next { injection.now.generation ≡ self.now.generation + 1 }
        ensures { result ≡ injection_misses self.now.bands injection.now }
    {
        let x = injection.x as u128;
        let y = injection.y as u128;
        let next = self.state_in_bands(x, y).next(self.heads_around(x, y));
        !matches!(next, State::Conductor)
    }

    // The first injection of the next generation whose cell will be no conductor before it.
    fn first_missed(&self, due: &[Injection]) -> Option<Injection>
        requires run { IsBandRun self.now }
        requires next { All (λ i. i.generation ≡ self.now.generation + 1) due.now }
        ensures { result ≡ find (injection_misses self.now.bands) due.now }
    {
        for injection in due {
            if self.misses(injection) {
                return Some(*injection);
            }
        }
        None
    }

    // The place of the first injection that will be left at the next generation, and the first miss
    // up to that generation.
    fn look_ahead(&self) -> (usize, Option<Injection>)
        requires { IsBandRun self.now }
        ensures next { result.0 ≤ length self.now.bands.injections }
        ensures left { AreLeftAt (self.now.generation + 1 + 1) self.now.bands.injections
            (drop result.0 self.now.bands.injections) }
        ensures missed { result.1 ≡ first_miss_in self.now.bands (self.now.generation + 1) }
    {
        let left = &self.bands.injections()[self.next_injection..];
        let count = due_count(self.generation as u128 + 1, left);
        let missed = match self.missed {
            Some(injection) => Some(injection),
            None => self.first_missed(&left[..count]),
        };
        (self.next_injection + count, missed)
    }

    // Goes on by one generation.
    fn next(&mut self)
        requires run { IsBandRun self.old }
        requires room { self.old.generation + 1 < 2 ^ 64 }
        ensures run { IsBandRun self.new }
        ensures planes { planes_of self.new ≡ planes_of self.old }
        ensures misses { first_miss_of self.new ≡ first_miss_of self.old }
        ensures comes { self.new.generation ≡ self.old.generation + 1 }
    {
        let (next_injection, missed) = self.look_ahead();
        let is_past = next_injection >= self.bands.injections().len();
        let is_unlit = self.bands.advance_all(1);
        self.is_still = is_past & is_unlit;
        self.next_injection = next_injection;
        self.missed = missed;
        self.generation += 1;
    }

    // Goes on by `n` generations in which no injection is due.
    fn pass(&mut self, n: u64)
        requires run { IsBandRun self.old }
        requires room { self.old.generation + n < 2 ^ 64 }
        requires calm { AreInOrderFrom (self.old.generation + n + 1)
            (drop self.old.next_injection self.old.bands.injections) }
        ensures run { IsBandRun self.new }
        ensures planes { planes_of self.new ≡ planes_of self.old }
        ensures misses { first_miss_of self.new ≡ first_miss_of self.old }
        ensures comes { self.new.generation ≡ self.old.generation + n }
    {
        let is_past = self.next_injection >= self.bands.injections().len();
        let is_unlit = self.bands.advance_all(n);
        self.is_still = is_past & is_unlit;
        self.generation += n;
    }

    // Goes on to the generation before the next injection, or by one generation to an injection,
    // but no further than to this generation.
    fn go_further(&mut self, generation: u64)
        requires run { IsBandRun self.old }
        requires order { self.old.generation < generation }
        ensures run { IsBandRun self.new }
        ensures planes { planes_of self.new ≡ planes_of self.old }
        ensures misses { first_miss_of self.new ≡ first_miss_of self.old }
        ensures comes { self.old.generation < self.new.generation }
        ensures order { self.new.generation ≤ generation }
    {
        let most = generation - self.generation;
        let injections = self.bands.injections();
        let calm = calm_count(self.generation, injections, self.next_injection, most);
        if calm > 0 {
            self.pass(calm);
        } else {
            self.next();
        }
    }

    /// Goes on to this generation, which is not before the run's own, or stops earlier if no cell
    /// changes any more.
    pub fn go_on(&mut self, generation: u64)
        requires run { IsBandRun self.old }
        requires order { self.old.generation ≤ generation }
        ensures run { IsBandRun self.new }
        ensures order { self.new.generation ≤ generation }
        ensures planes { planes_of self.new ≡ planes_of self.old }
        ensures shows { planes_of self.new self.new.generation ≡ planes_of self.new generation }
        ensures misses { first_miss_of self.new ≡ first_miss_of self.old }
        ensures missed { first_miss_of self.new self.new.generation ≡
            first_miss_of self.new generation }
    {
        while self.generation < generation && !self.is_still {
            self.go_further(generation);
        }
    }

    // Whether no injection of a later generation is left.
    fn is_past(&self) -> bool
        requires { IsBandRun self.now }
        ensures { result ≡ true → All (λ i. i.generation <
            self.now.generation + 1) self.now.bands.injections }
    {
        self.next_injection >= self.bands.injections().len()
    }

    /// Goes on to this generation, which is not before the run's own, or stops earlier if no
    /// injection is left: then no further injection can miss, whatever the pattern shows.
    pub fn pass_injections(&mut self, generation: u64)
        requires run { IsBandRun self.old }
        requires order { self.old.generation ≤ generation }
        ensures run { IsBandRun self.new }
        ensures order { self.new.generation ≤ generation }
        ensures planes { planes_of self.new ≡ planes_of self.old }
        ensures misses { first_miss_of self.new ≡ first_miss_of self.old }
        ensures missed { first_miss_of self.new self.new.generation ≡
            first_miss_of self.new generation }
    {
        while self.generation < generation && !self.is_past() {
            self.go_further(generation);
        }
    }

    /// Returns the state of a cell, by its column and row in the pattern. All cells beyond the
    /// pattern's box are empty.
    pub fn state(&self, x: u128, y: u128) -> State
        requires { IsBandRun self.now }
        ensures { result ≡ planes_of self.now self.now.generation (pos x) (pos y) }
    {
        match self.orientation {
            Orientation::Upright => self.state_in_bands(x, y),
            Orientation::Turned => self.state_in_bands(y, x),
        }
    }

    // The state of a cell, by its column and row in the bands.
    fn state_in_bands(&self, x: u128, y: u128) -> State
        requires { IsBandRun self.now }
        ensures { result ≡ evolution self.now.bands self.now.generation (pos x) (pos y) }
    {
        if x >= self.width as u128 || y >= self.rows as u128 {
            return State::Empty;
        }
        let b = y as usize / self.band_rows as usize;
        self.bands.cell(b, x as u64, y as u64)
    }

    /// Returns whether a cell is a head.
    pub fn is_head(&self, x: u64, y: u64) -> bool
        requires { IsBandRun self.now }
        ensures { result ≡ is_head (planes_of self.now self.now.generation (pos x) (pos y)) }
    {
        matches!(self.state(x as u128, y as u128), State::Head)
    }

    /// Returns the first injection up to the run's generation whose cell was no conductor before
    /// the injections of its generation.
    pub fn missed(&self) -> Option<Injection>
        requires { IsBandRun self.now }
        ensures first { result ≡ first_miss_of self.now self.now.generation }
        ensures early { IfSome result (λ i. i.generation ≤ self.now.generation) }
    {
        let injection = self.missed?;
        match self.orientation {
            Orientation::Upright => Some(injection),
            Orientation::Turned => Some(injection.turned()),
        }
    }

    /// Returns `NotQuiet` with the injection that `missed` returns, if there is one.
    pub fn quiet(&self) -> Result<(), SimulateError>
        requires run { IsBandRun self.now }
        requires room { self.now.generation < 2 ^ 64 }
        ensures quiet { OnOk result (first_miss_of self.now self.now.generation ≡ None) }
        ensures refused { IfErr result (HasRunCause (first_miss_of self.now self.now.generation)) }
    {
        match self.missed() {
            Some(injection) => Err(SimulateError::not_quiet(injection)),
            None => Ok(()),
        }
    }
}
