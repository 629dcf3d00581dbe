// In which direction each wire runs.

use crate::uses::chain_links;
use crate::wires::{Input, Link, Links, Way, state_at};
use route_lines::{part_of, small};
use ww_rule::{Pattern, State};

// What is known of an input. An output is as an input to which a wire leads.
fn input_at(inputs: &[Input], number: u32) -> Input {
    let place = number as usize;
    if place < inputs.len() {
        inputs[place]
    } else {
        Input {
            is_fed: true,
            open: 0,
        }
    }
}

/// Notes that a wire leads to an input, or that it is driven from outside.
pub fn feed(inputs: &mut [Input], number: u32) {
    let place = number as usize;
    if place < inputs.len() {
        inputs[place].is_fed = true;
    }
}

/// Notes that the direction of one more wire at an input is not known.
pub fn open(inputs: &mut [Input], number: u32) {
    let place = number as usize;
    if place < inputs.len() {
        inputs[place].open = inputs[place].open.saturating_add(1);
    }
}

// Notes that the direction of one more wire at an input is known, and whether the wire leads to it.
fn close(inputs: &mut [Input], number: u32, is_fed: bool) {
    let place = number as usize;
    if place < inputs.len() {
        let input = inputs[place];
        inputs[place] = Input {
            is_fed: input.is_fed || is_fed,
            open: input.open.saturating_sub(1),
        };
    }
}

// The direction that an electron on a wire of these cells tells.
fn way_of_electrons(pattern: &Pattern, cells: &[(u32, u32)]) -> Way {
    let mut last = State::Empty;
    for cell in cells {
        let state = state_at(pattern, *cell);
        match (last, state) {
            (State::Tail, State::Head) => return Way::Onward,
            (State::Head, State::Tail) => return Way::Back,
            _ => last = state,
        }
    }
    Way::Unknown
}

// Lets a wire run in this direction: if it runs back, its ends change places.
fn run(link: Link, way: Way) -> Link {
    match way {
        Way::Back => Link {
            from: link.to,
            to: link.from,
            way,
            ..link
        },
        _ => Link { way, ..link },
    }
}

// Directs the wires whose directions are known at once: from their ports, else from their electrons.
fn direct_at_once(links: &mut [Link], inputs: &[Input], path: &[(u32, u32)], pattern: &Pattern) {
    for place in links.iter_mut() {
        let link = *place;
        let way = if input_at(inputs, link.from.input).is_fed {
            Way::Onward
        } else if input_at(inputs, link.to.input).is_fed {
            Way::Back
        } else {
            way_of_electrons(pattern, part_of(path, link.start, link.size))
        };
        *place = run(link, way);
    }
}

// Lets a wire run in this direction, if none is known yet, and looks at its ports again.
fn direct(links: &mut Links, number: usize, way: Way) {
    if number >= links.all.len() {
        return;
    }
    let link = links.all[number];
    if let Way::Unknown = link.way {
        let link = run(link, way);
        links.all[number] = link;
        let inputs = links.inputs.as_mut_slice();
        close(inputs, link.from.input, false);
        close(inputs, link.to.input, true);
        links.is_short |= links.todo.push(link.from.input).is_err()
            | links.todo.push(link.to.input).is_err();
    }
}

// Directs the wires at an input that have only one direction left: from it if it is fed, and to it if there is one
// wire alone.
fn settle(links: &mut Links, input: u32) {
    let Input { is_fed, open } = input_at(links.inputs.as_slice(), input);
    if !is_fed && open != 1 {
        return;
    }
    let gate = input / 2;
    let mut number = links.first_at(gate);
    for _ in 0..links.all.len() {
        let place = number as usize;
        if place >= links.all.len() {
            break;
        }
        let link = links.all[place];
        let at_from = link.from.input == input;
        if at_from || link.to.input == input {
            let way = if at_from == is_fed {
                Way::Onward
            } else {
                Way::Back
            };
            direct(links, place, way);
        }
        number = link.next_at(gate);
    }
}

// Settles the inputs that are to be looked at: those of each wire that is directed.
fn settle_all(links: &mut Links) {
    for _ in 0..links.all.len().saturating_mul(2) {
        let Some(input) = links.todo.pop() else {
            break;
        };
        settle(links, input);
    }
}

// Turns the cells of the wires about that run back.
fn turn_about(path: &mut [(u32, u32)], links: &[Link]) {
    for link in links {
        let begin = link.start as usize;
        let end = begin.saturating_add(link.size as usize);
        if matches!(link.way, Way::Back) && begin <= end && end <= path.len() {
            path[begin..end].reverse();
        }
    }
}

/// Directs all wires: from outputs, from driven inputs, as electrons run, and so that one wire leads to each input.
/// Those that are left run onward, each with what it tells of others.
pub fn direct_wires(links: &mut Links, path: &mut Vec<(u32, u32)>, pattern: &Pattern) {
    let (all, inputs) = (links.all.as_mut_slice(), links.inputs.as_mut_slice());
    direct_at_once(all, inputs, path.as_slice(), pattern);
    chain_links(all, links.uses.as_mut_slice(), inputs);
    for input in (0..small(links.inputs.len())).rev() {
        settle(links, input);
        settle_all(links);
    }
    for number in 0..links.all.len() {
        direct(links, number, Way::Onward);
        settle_all(links);
    }
    turn_about(path.as_mut_slice(), links.all.as_slice());
}
