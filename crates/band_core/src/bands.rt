// Bands of rows.
ghost use Rattle.ww_rule.specs.Injections.{AreInside};
ghost use Rattle.ww_rule.specs.Due.{AreInOrderFrom};
ghost use Rattle.std.specs.Prelude.{◌≡◌, ◌+◌, ◌*◌, ◌<◌, ◌≤◌, ◌^◌, ◌↔◌, ℕ, All, true, length, IfOk, IfErr, OnOk, OnErr, Some, None};
ghost use Rattle.ww_rule.specs.Patterns.{grid_of};
ghost use Rattle.band_core.specs.Bands.{AreLevel, IsBandedPattern, IsCellOf, IsAwake, IsUnlit, HasReasonToStay, all_moved_on, begun, band_at, generation_of, moved_on, unready_neighbour};

use crate::band::Band;
use crate::making::begin_bands;
use crate::moving::{awake_cell, move_band, rest_band, unready_neighbour};
use crate::together::{are_unlit, move_all};
use crate::{BandsError, NotReady, NotSkipped};
use std::alloc::Global;
use std::marker::Model;
use ww_rule::{CellRows, Injection, Pattern, State};

/// A pattern that injections drive, in bands of rows from the top down, all of one height except
/// the last one, which may be shorter. Each band shows its rows of the one driven evolution, at a
/// generation of its own. A pattern without cells has no band. All memory is taken when the bands
/// are made.
#[derive(Drop)]
pub struct Bands {
    pattern: Pattern,
    injections: Vec<Injection>,
    height: usize,
    columns: usize,
    bands: Vec<Band>,
}

impl Model for Bands {
    ghost use Rattle.band_core.specs.Bands.{BandedPattern};

    ghost Value = { BandedPattern };

    ghost use Rattle.band_core.specs.Held.{held_pattern, IsHeld};

    ghost view = { held_pattern };

    ghost invariant = { IsHeld };
}

// How many word columns rows of cells take, if all rows have one length.
fn columns_for(rows: &CellRows) -> usize
    ensures few { result ≤ 2 ^ 58 }
    ensures wide { (width : ℕ)
        → All (λ row. length row ≡ width) rows.now
        → All (λ row. length row ≤ 64 * result) rows.now }
{
    if rows.len() == 0 {
        return 0;
    }
    let width = rows.row(0).len();
    if width % 64 == 0 {
        width / 64
    } else {
        width / 64 + 1
    }
}

impl Bands {
    /// Makes the bands of a pattern at generation 0, each of `height` rows, which is at least 1.
    /// The injections are at cells of the pattern's box and in the order of their generations;
    /// those of generation 0 are made. `NoMemory` is the only error.
    pub fn new(
        alloc: Global,
        pattern: Pattern,
        injections: Vec<Injection>,
        height: u32,
    ) -> Result<Bands, BandsError>
        requires height { 0 < height }
        requires in_order { AreInOrderFrom 0 injections.items }
        requires inside { AreInside pattern.width pattern.height injections.items }
        ensures { IfOk result (λ bands. bands ≡ begun (grid_of pattern) injections.items height) }
    {
        let height = height as usize;
        let columns = columns_for(&pattern.rows);
        let bands = begin_bands(alloc, &pattern.rows, &injections, height, columns)?;
        Ok(Bands {
            pattern,
            injections,
            height,
            columns,
            bands,
        })
    }

    /// Returns the number of bands.
    pub fn bands(&self) -> usize
        ensures count { result ≡ length self.now.generations }
        ensures whole { IsBandedPattern self.now }
    {
        self.bands.len()
    }

    /// Returns how many generations a band has come.
    pub fn generation(&self, b: usize) -> u64
        requires { b < length self.now.generations }
        ensures { result ≡ generation_of self.now b }
    {
        self.bands[b].generation
    }

    /// Returns the state of a cell of the pattern's box, by its column and row in the pattern, at
    /// the generation of the band in which it lies.
    pub fn cell(&self, b: usize, x: u64, y: u64) -> State
        requires { IsCellOf self.now b x y }
        ensures { result ≡ band_at self.now b x y }
    {
        let band = &self.bands[b];
        band.field.state(x as usize, y as usize - b * self.height)
    }

    /// Returns the injections that drive the pattern, as they were given.
    pub fn injections(&self) -> &[Injection]
        ensures { result.now ≡ self.now.injections }
    {
        &self.injections
    }

    /// Moves a band on by one generation. It is refused if a neighbour is neither at the band's
    /// generation nor one further; the upper neighbour is looked at first.
    pub fn advance(&mut self, b: usize) -> Result<(), NotReady>
        requires band { b < length self.old.generations }
        requires room { generation_of self.old b + 1 < 2 ^ 64 }
        ensures moved { OnOk result (self.new ≡ moved_on b self.old) }
        ensures ready { OnOk result (unready_neighbour self.old.generations b ≡ None) }
        ensures refused { OnErr result (self.new ≡ self.old) }
        ensures cause { IfErr result (λ refusal. unready_neighbour self.old.generations b ≡
            Some refusal) }
    {
        if let Some(refusal) = unready_neighbour(&self.bands, b) {
            return Err(refusal);
        }
        let rows = self.pattern.rows.len();
        move_band(&mut self.bands, b, self.columns, self.height, rows);
        Ok(())
    }

    /// Moves all bands, which are at one generation, on by `n` generations, and returns whether no
    /// cell is a head or a tail then. Where none is, the bands come to the generation before the next
    /// injection in one step, at the latest after 64 others or so.
    pub fn advance_all(&mut self, n: u64) -> bool
        requires level { AreLevel self.old }
        requires room { generation_of self.old 0 + n < 2 ^ 64 }
        ensures moved { self.new ≡ all_moved_on n self.old }
        ensures unlit { (result ≡ true) ↔ IsUnlit self.new }
    {
        let rows = self.pattern.rows.len();
        move_all(&mut self.bands, n, self.columns, self.height, rows);
        are_unlit(&self.bands)
    }

    /// Moves a band on by one generation if no cell can change in it. It is refused for the same
    /// reason as `advance`, which is looked at first, or because a cell keeps the band awake.
    pub fn skip(&mut self, b: usize) -> Result<(), NotSkipped>
        requires band { b < length self.old.generations }
        requires room { generation_of self.old b + 1 < 2 ^ 64 }
        ensures moved { OnOk result (self.new ≡ moved_on b self.old) }
        ensures ready { OnOk result (unready_neighbour self.old.generations b ≡ None) }
        ensures asleep { OnOk result ((x y : ℕ) → ¬ IsAwake self.old b x y) }
        ensures refused { OnErr result (self.new ≡ self.old) }
        ensures cause { IfErr result (HasReasonToStay self.old b) }
    {
        let rows = self.pattern.rows.len();
        if let Some(refusal) = unready_neighbour(&self.bands, b) {
            return Err(NotSkipped::NotReady(refusal));
        }
        if let Some((x, y)) = awake_cell(&self.bands, b, self.columns, self.height, rows) {
            return Err(NotSkipped::Awake { x, y });
        }
        rest_band(&mut self.bands, b);
        Ok(())
    }
}
