// Generations of a field that stands alone.
ghost use Rattle.std.specs.Prelude.{◌≡◌, ◌*◌, ◌<◌, ◌≤◌, length};
ghost use Rattle.lane_kernel.specs.Marked.{AreOn};

use crate::field::{Field, all_fit, step_marked};
use lane_kernel::Free;
use std::mem;

impl Field {
    ghost use Rattle.band_rows.specs.Fields.{crossed, HasRunAlone, IsClosedField, IsPlaneField, IsFieldStepped};

    // Steps the marked words. The new heads stand in the tails' plane then, and their marks are the
    // spare ones.
    fn step_over(&mut self)
        requires is { IsPlaneField self.old }
        requires on_cells { AreOn self.old.cells.items self.old.tails.items }
        requires room { self.old.marks.many < length self.old.marks.list.items }
        ensures { IsFieldStepped self.old (crossed self.new) }
    {
        let coming = Free {
            tails: &self.heads,
            cells: &self.cells,
            stride: self.stride,
        };
        step_marked(&coming, &mut self.tails, &mut self.marks, &mut self.spare);
    }

    // Steps the marked words of a field that has stepped over.
    fn step_back(&mut self)
        requires is { IsPlaneField (crossed self.old) }
        requires on_cells { AreOn self.old.cells.items self.old.heads.items }
        requires room { self.old.spare.many < length self.old.spare.list.items }
        ensures { IsFieldStepped (crossed self.old) self.new }
    {
        let coming = Free {
            tails: &self.tails,
            cells: &self.cells,
            stride: self.stride,
        };
        step_marked(&coming, &mut self.heads, &mut self.spare, &mut self.marks);
    }

    // Exchanges heads and tails, and the marks.
    fn cross(&mut self)
        ensures { self.new ≡ crossed self.old }
    {
        mem::swap(&mut self.heads, &mut self.tails);
        mem::swap(&mut self.marks, &mut self.spare);
    }

    // Goes on by two generations, from the marked words. Most often nothing is exchanged.
    fn step_pair(&mut self)
        requires closed { IsClosedField self.old }
        requires room { self.old.marks.many < length self.old.marks.list.items }
        ensures { HasRunAlone 2 self.old self.new }
    {
        all_fit(&self.cells);
        self.step_over();
        if self.spare.many < self.spare.list.len() {
            self.step_back();
            return;
        }
        self.cross();
        self.step();
    }

    // Goes on by one generation.
    fn step_alone(&mut self)
        requires closed { IsClosedField self.old }
        ensures { HasRunAlone 1 self.old self.new }
    {
        all_fit(&self.cells);
        self.step();
    }

    // Goes on by pairs of generations, by at least one, while there are marked words and the list
    // has room, and returns by how many.
    fn run_pairs(&mut self, pairs: u64) -> u64
        requires closed { IsClosedField self.old }
        requires some { 0 < pairs }
        requires room { self.old.marks.many < length self.old.marks.list.items }
        ensures some { 0 < result }
        ensures few { result ≤ pairs }
        ensures gone { HasRunAlone (2 * result) self.old self.new }
    {
        self.step_pair();
        let mut done = 1;
        while done < pairs && self.marks.many > 0 && self.marks.many < self.marks.list.len() {
            self.step_pair();
            done += 1;
        }
        done
    }

    // Goes on as `run` does, from marks that were looked at.
    fn run_settled(&mut self, most: u64) -> u64
        requires closed { IsClosedField self.old }
        requires some { 0 < most }
        ensures some { 0 < result }
        ensures few { result ≤ most }
        ensures gone { HasRunAlone result self.old self.new }
    {
        if most < 2 || self.marks.many >= self.marks.list.len() {
            self.step_alone();
            return 1;
        }
        2 * self.run_pairs(most / 2)
    }

    /// Goes on by at least one generation, and at most `most`, with no heads beside the field, and
    /// returns by how many. It may stop earlier: where the field is dark, where the list is full, and
    /// where one generation is left.
    pub fn run(&mut self, most: u64) -> u64
        requires closed { IsClosedField self.old }
        requires some { 0 < most }
        ensures some { 0 < result }
        ensures few { result ≤ most }
        ensures gone { HasRunAlone result self.old self.new }
    {
        self.settle();
        self.run_settled(most)
    }
}
