// Ranks of models by strongly connected components. Nothing is proved of the ranks here: their user
// checks them.
ghost use Rattle.std.specs.Prelude.{◌≡◌, ◌<◌, length, IfOk, OnOk};
ghost use Rattle.model_circles.specs.Ranks.{AreWithin};

use model_index::{NamedModels, placed};
use netlist_core::Model;
use std::alloc::{AllocError, Global};

// What the walk knows of a model: its number in the order of opening, from 1 (0 if it is unseen);
// the least number of an open model that is reached from it; the next line to follow; and its rank,
// once its component is whole.
#[derive(Clone, Copy)]
struct Note {
    number: usize,
    low: usize,
    next: usize,
    rank: Option<usize>,
}

// A depth-first walk over the models that ranks components as it leaves them (Tarjan's).
#[derive(Drop)]
struct Components {
    notes: Vec<Note>,
    path: Vec<usize>,
    open: Vec<usize>,
    opened: usize,
    ranked: usize,
}

impl Components {
    fn start(alloc: Global, count: usize) -> Result<Components, AllocError>
        ensures { IfOk result (AreWithin count) }
    {
        let unseen = Note {
            number: 0,
            low: 0,
            next: 0,
            rank: None,
        };
        Ok(Components {
            notes: vec![in alloc; unseen; count]?,
            path: Vec::new(alloc),
            open: Vec::new(alloc),
            opened: 0,
            ranked: 0,
        })
    }

    fn open(&mut self, n: usize) -> Result<(), AllocError>
        requires within { AreWithin (length self.old.notes.items) self.old }
        requires model { n < length self.old.notes.items }
        ensures { OnOk result (AreWithin (length self.old.notes.items) self.new) }
    {
        self.opened = self.opened.saturating_add(1);
        self.notes[n].number = self.opened;
        self.notes[n].low = self.opened;
        self.path.push(n)?;
        self.open.push(n)?;
        Ok(())
    }

    fn lower(&mut self, n: usize, number: usize)
        requires within { AreWithin (length self.old.notes.items) self.old }
        requires model { n < length self.old.notes.items }
        ensures { AreWithin (length self.old.notes.items) self.new }
    {
        let low = self.notes[n].low.min(number);
        self.notes[n].low = low;
    }

    // Meets a model that another places.
    fn meet(&mut self, outer: usize, inner: usize) -> Result<(), AllocError>
        requires within { AreWithin (length self.old.notes.items) self.old }
        requires outer { outer < length self.old.notes.items }
        requires inner { inner < length self.old.notes.items }
        ensures { OnOk result (AreWithin (length self.old.notes.items) self.new) }
    {
        let note = self.notes[inner];
        if note.number == 0 {
            return self.open(inner);
        }
        if let None = note.rank {
            self.lower(outer, note.number);
        }
        Ok(())
    }

    // Ranks the component of a model: it and the models opened since.
    fn rank(&mut self, n: usize)
        requires { AreWithin (length self.old.notes.items) self.old }
        ensures { AreWithin (length self.old.notes.items) self.new }
    {
        while let Some(m) = self.open.pop() {
            self.notes[m].rank = Some(self.ranked);
            if m == n {
                break;
            }
        }
        self.ranked = self.ranked.saturating_add(1);
    }

    // Leaves the model on top of the path.
    fn close(&mut self, n: usize)
        requires within { AreWithin (length self.old.notes.items) self.old }
        requires model { n < length self.old.notes.items }
        ensures { AreWithin (length self.old.notes.items) self.new }
    {
        let _top = self.path.pop();
        let note = self.notes[n];
        if note.low == note.number {
            self.rank(n);
        }
        if let Some(outer) = self.path.last() {
            let outer = *outer;
            self.lower(outer, note.low);
        }
    }

    // Takes one step at the model on top of the path: follows its next line, or leaves it.
    fn step(&mut self, models: &[Model], named: &NamedModels, n: usize) -> Result<(), AllocError>
        requires index { named.now ≡ models.now }
        requires within { AreWithin (length models.now) self.old }
        requires model { n < length models.now }
        ensures { OnOk result (AreWithin (length models.now) self.new) }
    {
        let line = self.notes[n].next;
        if line >= models[n].subckts.len() {
            self.close(n);
            return Ok(());
        }
        self.notes[n].next = line + 1;
        match placed(models, named, n, line) {
            Some(inner) => self.meet(n, inner),
            None => Ok(()),
        }
    }

    // Walks over all that a model leads to, in so many steps at most.
    fn reach(
        &mut self,
        models: &[Model],
        named: &NamedModels,
        n: usize,
        steps: usize,
    ) -> Result<(), AllocError>
        requires index { named.now ≡ models.now }
        requires within { AreWithin (length models.now) self.old }
        requires model { n < length models.now }
        ensures { OnOk result (AreWithin (length models.now) self.new) }
    {
        if self.notes[n].number > 0 {
            return Ok(());
        }
        self.open(n)?;
        for _step in 0..steps {
            let Some(top) = self.path.last() else { break };
            let top = *top;
            self.step(models, named, top)?;
        }
        Ok(())
    }

    // The rank of each model, and 0 for one that has none.
    fn ranks(&self, alloc: Global) -> Result<Vec<usize>, AllocError>
        ensures { IfOk result (λ ranks. length ranks.items ≡ length self.now.notes.items) }
    {
        let mut ranks = Vec::new(alloc);
        for note in &self.notes {
            ranks.push(note.rank.unwrap_or(0))?;
        }
        Ok(ranks)
    }
}

// How many steps a walk takes at most: each passes a line or leaves a model.
fn steps_of(models: &[Model]) -> usize {
    let mut steps = models.len();
    for model in models {
        steps = steps.saturating_add(model.subckts.len());
    }
    steps
}

/// Returns the rank of each model's component.
pub fn component_ranks(
    alloc: Global,
    models: &[Model],
    named: &NamedModels,
) -> Result<Vec<usize>, AllocError>
    requires { named.now ≡ models.now }
    ensures { IfOk result (λ ranks. length ranks.items ≡ length models.now) }
{
    let steps = steps_of(models);
    let mut components = Components::start(alloc, models.len())?;
    for n in 0..models.len() {
        components.reach(models, named, n, steps)?;
    }
    let ranks = components.ranks(alloc);
    drop(components);
    ranks
}
