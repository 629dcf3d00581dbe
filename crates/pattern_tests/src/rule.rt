// Small patterns in the letters of RLE: '.' is an empty cell, A a head, B a tail and C a
// conductor.
use crate::pages::Page;
use ww_rule::{Pattern, Plane, RuleError, mirror_x, step_driven, step_plain};

/// Patterns, and what is shown of each: its planes at generations 0 and 1, its plane at generation 1 with an injection
/// at the first cell then, or the plane of its mirror image. A plane is shown by its rows, its width and its height.
pub const VIEWS: &str = "\
generations
x = 3, y = 1, rule = WireWorld
ACC!
== ACC$3 1, BAC$3 1,\x20
> generations
x = 3, y = 2, rule = WireWorld
A..$.C.!
== A..$.C.$3 2, B..$.A.$3 2,\x20
> generations
x = 3, y = 2, rule = WireWorld
AA.$.C.!
== AA.$.C.$3 2, BB.$.A.$3 2,\x20
> generations
x = 3, y = 2, rule = WireWorld
AAA$.C.!
== AAA$.C.$3 2, BBB$.C.$3 2,\x20
> generations
x = 3, y = 3, rule = WireWorld
..C$.C.$A.B!
== ..C$.C.$A.B$3 3, ..C$.A.$B.C$3 3,\x20
> driven
x = 3, y = 1, rule = WireWorld
CCA!
== AAB$3 1,\x20
> mirror
x = 3, y = 1, rule = WireWorld
CA.!
== .AC$3 1,\x20";

fn push_plane(page: &mut Page, plane: &Plane) {
    page.push_rows(&plane.rows);
    page.push_number(plane.width);
    page.push(b" ");
    page.push_number(plane.height);
    page.push(b", ");
}

// Appends a plane, unless memory was too short to make it.
fn push_made(page: &mut Page, made: Result<Plane, RuleError>) {
    match made {
        Ok(plane) => {
            push_plane(page, &plane);
            drop(plane);
        }
        Err(_) => page.cut(),
    }
}

// Appends the plane that follows this one with an injection at the first cell then.
fn push_driven(page: &mut Page, plane: &Plane) {
    if plane.width > 0 && plane.height > 0 {
        push_made(page, step_driven(page.alloc(), plane, &[(0, 0)]));
    }
}

// Appends this plane and the one that follows it, or the one that follows it with an injection.
fn push_planes(page: &mut Page, is_driven: bool, plane: &Plane) {
    if is_driven {
        push_driven(page, plane);
    } else {
        push_plane(page, plane);
        push_made(page, step_plain(page.alloc(), plane));
    }
}

fn push_evolved(page: &mut Page, is_driven: bool, pattern: &Pattern) {
    match Plane::from_pattern(page.alloc(), pattern) {
        Ok(plane) => {
            push_planes(page, is_driven, &plane);
            drop(plane);
        }
        Err(_) => page.cut(),
    }
}

fn push_mirror(page: &mut Page, pattern: &Pattern) {
    match mirror_x(page.alloc(), pattern) {
        Ok(mirror) => {
            push_made(page, Plane::from_pattern(page.alloc(), &mirror));
            drop(mirror);
        }
        Err(_) => page.cut(),
    }
}

/// Appends what is shown of a pattern.
pub fn push_view(page: &mut Page, view: &str, pattern: &Pattern) {
    if view == "mirror" {
        push_mirror(page, pattern);
    } else {
        push_evolved(page, view == "driven", pattern);
    }
}
