// One band.
ghost use Rattle.ww_rule.specs.Due.{AreInOrderFrom, due_count};
ghost use Rattle.std.specs.Prelude.{◌≡◌, ◌+◌, ◌<◌, ◌≤◌, ◌^◌, ℕ, pos, length, drop};
ghost use Rattle.ww_rule.specs.Wireworld.{Plane, Due, injected};
ghost use Rattle.ww_rule.specs.Injections.{has_cell};
ghost use Rattle.band_rows.specs.Facing.{words_in};
ghost use Rattle.band_rows.specs.Fields.{AreOfOneSize, IsClosedField, ShowsField};
ghost use Rattle.band_core.specs.Band.{AreInRows, IsBand, IsEvolution, ShowsBand, bottom_at, top_at, injected_cells};
ghost use Rattle.band_core.specs.Beside.{HasRows, ShowBeside};
ghost use Rattle.band_core.specs.Together.{HasBandRun, HasRested};

use band_rows::{FacingRows, Field, PlaneRow};
use facing_rows::{bottom_heads, top_heads};
use ww_rule::Injection;

/// A band: a field of its rows at a generation, and the band's injections, of which the first
/// `done` are done. The tails are the heads that the rows had one generation ago; at generation 0
/// they are the drawn ones.
#[derive(Drop)]
pub struct Band {
    pub field: Field,
    pub generation: u64,
    pub injections: Vec<Injection>,
    pub done: usize,
}

/// Returns how many injections at the beginning of a list are those of a generation.
pub fn due_count(generation: u128, injections: &[Injection]) -> usize
    ensures count { result ≡ due_count generation injections.now }
    ensures within { result ≤ length injections.now }
{
    injections
        .iter()
        .take_while(|injection| injection.generation == generation)
        .count()
}

/// Returns a number of generations after this one, at most `most`, in none of which an injection of
/// a list is due, if the first `done` are done and the others are of later generations, in order.
pub fn calm_count(generation: u64, injections: &[Injection], done: usize, most: u64) -> u64
    ensures few { result ≤ most }
    ensures later { AreInOrderFrom (generation + 1) (drop done injections.now)
        → AreInOrderFrom (generation + result + 1) (drop done injections.now) }
{
    if done >= injections.len() {
        return most;
    }
    let next = injections[done].generation;
    let calm = next.saturating_sub(generation as u128 + 1);
    calm.min(most as u128) as u64
}

/// Makes the cells of injections heads, in a field from row y on. It takes no memory.
pub fn inject(field: &mut Field, y: usize, due: &[Injection])
    requires closed { IsClosedField field.old }
    requires inside { AreInRows field.old.columns y field.old.rows due.now }
    ensures closed { IsClosedField field.new }
    ensures size { AreOfOneSize field.old field.new }
    ensures tails { field.new.tails.items ≡ field.old.tails.items }
    ensures shows { (p : Plane)
        → ShowsField field.old p (pos y)
        → ShowsField field.new (injected (has_cell (injected_cells due.now)) p) (pos y) }
{
    for injection in due {
        field.make_head(injection.x as usize, injection.y as usize - y);
    }
}

impl Band {
    /// Returns the heads of the bottom row at a generation, which is the band's or the one before.
    pub fn bottom_heads(&self, generation: u64) -> PlaneRow<'_>
        requires rows { HasRows self.now }
        ensures heads { words_in result ≡ bottom_at generation self.now }
    {
        bottom_heads(&self.field, self.generation, generation)
    }

    /// Returns the heads of the top row at a generation, which is the band's or the one before.
    pub fn top_heads(&self, generation: u64) -> PlaneRow<'_>
        requires rows { HasRows self.now }
        ensures heads { words_in result ≡ top_at generation self.now }
    {
        top_heads(&self.field, self.generation, generation)
    }

    /// Goes on by one generation. The heads of the rows beside the band are those at the band's own
    /// generation.
    pub fn step(&mut self, y: usize, facing: &FacingRows<'_>)
        requires is { IsBand self.old.field.columns y self.old.field.rows self.old }
        requires room { self.old.generation + 1 < 2 ^ 64 }
        requires above { facing.now.above.columns ≤ self.old.field.columns }
        requires below { facing.now.below.columns ≤ self.old.field.columns }
        ensures generation { self.new.generation ≡ self.old.generation + 1 }
        ensures is { IsBand self.old.field.columns y self.old.field.rows self.new }
        ensures shows { (e : ℕ → Plane) (due : Due) (width height : ℕ)
            → IsEvolution e due width height
            → ShowsBand e due y self.old.field.rows self.old
            → ShowBeside facing.now (e self.old.generation) (pos y) self.old.field.rows
            → ShowsBand e due y self.old.field.rows self.new }
    {
        self.generation += 1;
        let count = due_count(self.generation as u128, &self.injections[self.done..]);
        self.field.step_between(facing);
        let due = &self.injections[self.done..self.done + count];
        inject(&mut self.field, y, due);
        self.done += count;
    }

    /// Returns a number of generations, at most `most`; in none of the next so many an injection of
    /// the band is due.
    pub fn calm_generations(&self, most: u64) -> u64
        ensures few { result ≤ most }
        ensures later { AreInOrderFrom (self.now.generation + 1)
            (drop self.now.done self.now.injections.items)
            → AreInOrderFrom (self.now.generation + result + 1)
            (drop self.now.done self.now.injections.items) }
    {
        calm_count(self.generation, &self.injections, self.done, most)
    }

    /// Goes on by `n` generations, if in them nothing in the band changes: its field stays.
    pub fn rest(&mut self, n: u64)
        requires room { self.old.generation + n < 2 ^ 64 }
        ensures { HasRested n self.old self.new }
    {
        self.generation += n;
    }

    /// Goes on by at least one generation, and at most `most`, if in them no head lies beside the
    /// band and no injection is due, and returns by how many.
    pub fn run(&mut self, most: u64) -> u64
        requires closed { IsClosedField self.old.field }
        requires some { 0 < most }
        requires room { self.old.generation + most < 2 ^ 64 }
        ensures some { 0 < result }
        ensures few { result ≤ most }
        ensures run { HasBandRun result self.old self.new }
    {
        let n = self.field.run(most);
        self.generation += n;
        n
    }
}
