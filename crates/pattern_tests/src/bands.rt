// Bands of small patterns, which are moved in given orders.
ghost use Rattle.std.specs.Prelude.{◌≡◌, ◌<◌, length};
ghost use Rattle.band_core.specs.Bands.{IsSamePattern};

mod shown;

use crate::pages::Page;
use crate::texts::halves;
use band_core::{Bands, NotReady, NotSkipped};
use shown::push_row;
use ww_rule::Pattern;

fn push_not_ready(page: &mut Page, refusal: NotReady) {
    page.push_number(refusal.neighbour as u64);
    page.push(b" at ");
    page.push_number(refusal.generation);
    page.push(b", ");
}

fn push_awake(page: &mut Page, x: u64, y: u64) {
    page.push(b"lit ");
    page.push_number(x);
    page.push(b" ");
    page.push_number(y);
    page.push(b", ");
}

// Moves a band on, and appends what the call answers.
fn push_advanced(page: &mut Page, bands: &mut Bands, b: usize)
    ensures { IsSamePattern bands.old bands.new }
{
    if b >= bands.bands() || bands.generation(b) == u64::MAX {
        page.push(b"no band, ");
        return;
    }
    match bands.advance(b) {
        Ok(()) => page.push(b"moved, "),
        Err(refusal) => push_not_ready(page, refusal),
    }
}

// Moves a band on if nothing in it can change, and appends what the call answers.
fn push_skipped(page: &mut Page, bands: &mut Bands, b: usize)
    ensures { IsSamePattern bands.old bands.new }
{
    if b >= bands.bands() || bands.generation(b) == u64::MAX {
        page.push(b"no band, ");
        return;
    }
    match bands.skip(b) {
        Ok(()) => page.push(b"moved, "),
        Err(NotSkipped::NotReady(refusal)) => push_not_ready(page, refusal),
        Err(NotSkipped::Awake { x, y }) => push_awake(page, x, y),
    }
}

// Makes a call, `advance` or `skip` and the number of a band, and appends what it answers.
fn push_answer(page: &mut Page, bands: &mut Bands, call: &str)
    ensures { IsSamePattern bands.old bands.new }
{
    let (name, number) = halves(call, " ", "");
    let b = number.parse::<usize>().unwrap_or(usize::MAX);
    if name == "skip" {
        push_skipped(page, bands, b);
    } else {
        push_advanced(page, bands, b);
    }
}

// Makes the calls, and appends what each answers.
fn push_answers(page: &mut Page, bands: &mut Bands, calls: &str)
    ensures { IsSamePattern bands.old bands.new }
{
    for call in calls.split(", ") {
        push_answer(page, bands, call);
    }
}

// Appends all rows, one after the other.
fn push_rows(page: &mut Page, bands: &Bands, height: u32, width: u64, count: u64)
    requires height { height ≡ bands.now.height }
    requires width { width ≡ bands.now.grid.width }
    requires count { count ≡ length bands.now.grid.rows }
{
    for y in 0..count {
        push_row(page, bands, height, width, y);
    }
}

// Appends what the calls answer, and the cells after them from the top down.
fn push_calls(page: &mut Page, bands: &mut Bands, calls: &str, height: u32, width: u64, count: u64)
    requires height { height ≡ bands.old.height }
    requires width { width ≡ bands.old.grid.width }
    requires count { count ≡ length bands.old.grid.rows }
{
    push_answers(page, bands, calls);
    push_rows(page, bands, height, width, count);
}

/// Appends what calls on bands of a pattern answer, and the cells after them. A text has the height of the bands and
/// the calls.
pub fn push_moved(page: &mut Page, asked: &str, pattern: Pattern) {
    let (height, calls) = halves(asked, ", ", "");
    let height = height.parse::<u32>().unwrap_or(0);
    if height == 0 {
        drop(pattern);
        return;
    }
    let (width, count) = (pattern.width, pattern.rows.len() as u64);
    match Bands::new(page.alloc(), pattern, Vec::new(page.alloc()), height) {
        Ok(mut bands) => {
            push_calls(page, &mut bands, calls, height, width, count);
            drop(bands);
        }
        Err(_) => page.cut(),
    }
}

/// Heights of bands with calls, patterns, and what the calls answer with the cells after them.
pub const ORDERS: &str = "\
1, advance 2, advance 2, advance 3
x = 1, y = 3, rule = WireWorld
A$C$C!
== moved, 1 at 0, no band, ACC
> 1, advance 1, advance 0, advance 2, advance 2
x = 1, y = 3, rule = WireWorld
A$C$C!
== moved, moved, moved, moved, BAA
> 1, advance 2, advance 1, advance 0, advance 2
x = 1, y = 3, rule = WireWorld
A$C$C!
== moved, moved, moved, moved, BAA
> 1, advance 0, advance 0, advance 1, advance 1, advance 2, advance 2, advance 0, advance 1, advance 2
x = 1, y = 3, rule = WireWorld
A$C$C!
== moved, 1 at 0, moved, 2 at 0, moved, moved, moved, moved, moved, CBB
> 1, skip 2, skip 1, advance 1, skip 0, skip 2, advance 2, advance 2 -- a lit cell keeps bands awake
x = 1, y = 3, rule = WireWorld
A$C$C!
== moved, lit 0 0, moved, lit 0 0, lit 0 1, moved, 1 at 1, AAA
> 1, advance 0, advance 1 -- two heads light a conductor, and three do not
x = 3, y = 2, rule = WireWorld
AAA$.C.!
== moved, moved, BBB.C.
> 2, advance 0
x = 3, y = 2, rule = WireWorld
AAA$.C.!
== moved, BBB.C.
> 1, advance 0, advance 1
x = 3, y = 2, rule = WireWorld
AA.$.C.!
== moved, moved, BB..A.
> 2, advance 0
x = 3, y = 2, rule = WireWorld
AA.$.C.!
== moved, BB..A.
> 4294967295, advance 0 -- bands of the greatest height: none without cells, and one of three cells
x = 18446744073709551615, y = 0, rule = WireWorld
!
== no band,\x20
> 4294967295, advance 0
x = 0, y = 18446744073709551615, rule = WireWorld
!
== no band,\x20
> 4294967295, advance 1, advance 0
x = 1, y = 3, rule = WireWorld
A$C$C!
== no band, moved, BAC";
