// Changes of a circuit, kept as annealing has it.
use crate::cooling::{most_more, work_of};
use crate::side::Side;
use crate::waits::Choice;
use crate::web::Web;
use cell_core::Draws;
use lists::OutOfMemory;
use std::alloc::Global;
use strand_core::{Effort, StrandCircuit, TileKind, West};

// How late registers may begin.
const STARTS: &[u32] = &[0, 0, 2, 4, 6, 6, 8, 10, 12, 12, 18];

const SEED: u64 = 1;

// Of 20 changes so many are of the signal that waits at a Cross, and of a register's start.
const OF_CHOICES: usize = 6;

const OF_STARTS: usize = 1;

/// A search that changes a web.
#[derive(Drop)]
struct Search {
    web: Web,
    draws: Draws,
    // the weight of the web
    cost: u64,
}

impl Search {
    // Rewrites tiles as long as there are fewer crossings.
    fn rewrite(&mut self) {
        let most = self.web.nodes.len().saturating_mul(8).saturating_add(64);
        for _ in 0..most {
            let Some(at) = self.web.near.pop() else {
                return;
            };
            self.web.count(1);
            self.web.rewrite(at);
        }
        self.web.near.clear();
    }

    fn rewrite_all(&mut self) {
        for i in 0..self.web.nodes.len() {
            let at = u32::try_from(i).unwrap_or(u32::MAX);
            self.web.note_near(Some(at));
        }
        self.rewrite();
    }

    // Keeps or undoes what was changed.
    fn decide(&mut self, more: u64) {
        let is_settled = self.web.settle();
        let cost = self.web.cost();
        if is_settled && cost <= self.cost.saturating_add(more) {
            self.cost = cost;
            self.web.keep();
        } else {
            self.web.undo();
        }
    }

    fn random_tile(&mut self) -> u32 {
        u32::try_from(self.draws.below(self.web.nodes.len())).unwrap_or(0)
    }

    fn choice(&mut self) -> Choice {
        if self.draws.coin() {
            Choice::Later
        } else {
            Choice::Earlier
        }
    }

    // Changes something. Returns whether it did.
    fn change(&mut self) -> bool {
        let drawn = self.draws.below(20);
        if drawn < OF_CHOICES {
            self.change_choice()
        } else if drawn < OF_CHOICES + OF_STARTS {
            self.change_start()
        } else {
            self.turn()
        }
    }

    fn change_choice(&mut self) -> bool {
        let at = self.random_tile();
        let Some(mut node) = self.web.node(at) else {
            return false;
        };
        if !matches!(node.tile.kind, TileKind::Cross) {
            return false;
        }
        node.choice = node.choice.other();
        self.web.set_node(at, Some(node));
        self.web.touch(at);
        true
    }

    fn change_start(&mut self) -> bool {
        let number = self.draws.below(self.web.west.len());
        let late = self.draws.below(STARTS.len());
        let late = STARTS.get(late).copied().unwrap_or(0);
        let Some(end) = self.web.west.get(number).copied() else {
            return false;
        };
        match (end.is, end.strand) {
            (West::Register(_), Some(_)) => {
                self.web.set_times(end.strand, late, 0);
                true
            }
            _ => false,
        }
    }

    fn turn(&mut self) -> bool {
        let at = self.random_tile();
        let found = match self.web.braid_at(at, Side::Above) {
            Some(braid) => Some(braid),
            None => self.web.braid_at(at, Side::Below),
        };
        let Some(braid) = found else {
            return false;
        };
        let (one, two, three) = (self.choice(), self.choice(), self.choice());
        self.web.turn(braid, one, two, three);
        self.web.look_around(braid.first.at);
        self.web.look_around(braid.second.at);
        self.web.look_around(braid.third.at);
        self.rewrite();
        true
    }

    // Computes all times, rewrites all tiles, and then makes changes until the work is done.
    fn run(&mut self, work: u64) {
        self.web.update_all();
        self.decide(0);
        self.rewrite_all();
        self.decide(u64::MAX);
        for _ in 0..work {
            if self.web.work >= work || self.web.is_refused {
                return;
            }
            self.web.count(1);
            if self.change() {
                let more = most_more(&mut self.draws, self.web.work, work);
                self.decide(more);
            }
        }
    }
}

/// Returns the web of a circuit, changed so that it has fewer columns, bumps and crossings.
pub fn annealed(
    alloc: Global,
    circuit: &StrandCircuit,
    effort: Effort,
) -> Result<Web, OutOfMemory> {
    let mut search = Search {
        web: Web::of(alloc, circuit),
        draws: Draws::new(SEED),
        cost: u64::MAX,
    };
    search.run(effort.of(work_of(circuit.tiles.len())));
    if search.web.is_refused {
        Err(OutOfMemory::NoMemory)
    } else {
        Ok(search.web)
    }
}
