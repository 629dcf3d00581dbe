// A depth-first walk over numbers, with a path of open numbers in place of recursion.
ghost use Rattle.std.specs.Prelude.{◌≡◌, ◌≢◌, ◌+◌, ◌-◌, ◌<◌, ◌++◌, [], ◌∷◌, length, take, drop, slice_set, OnOk, IfOk, IfErr};
ghost use Rattle.depth_walk.specs.Links.{StayWithin};
ghost use Rattle.depth_walk.specs.Reasons.{IsWalkRefusal};
ghost use Rattle.depth_walk.specs.Walk.{IsMet, IsWalkOf, IsTop, AreStillSeen, work, mark_of};
ghost use Rattle.depth_walk.specs.declared.walk.Mark.TheVariants.{Open, Done, Unseen};

use crate::error::WalkError;
use lists::List;
use std::alloc::{AllocError, Global};

/// What is known of a number: it is unseen, or it stands at a place on the path (`Open`) or in the
/// order (`Done`).
#[derive(Clone, Copy)]
pub enum Mark {
    Unseen,
    Open(usize),
    Done(usize),
}

/// The first number that is not done among those that some steps lead to: none, one that is unseen,
/// or one that stands at a place on the path.
#[derive(Clone, Copy)]
pub enum Met {
    Nothing,
    Fresh { step: usize, other: usize },
    Again { step: usize, place: usize },
}

/// Finds the first step from number `n`, from step `from` on, that leads to a number which is not
/// done.
pub fn first_met(links: &[List<Option<usize>>], marks: &[Mark], n: usize, from: usize) -> Met
    requires within { StayWithin links.now }
    requires marks { length marks.now ≡ length links.now }
    requires number { n < length links.now }
    ensures { IsMet links.now marks.now n from result }
{
    let steps = links[n].as_slice();
    for step in from..steps.len() {
        if let Some(other) = steps[step] {
            match marks[other] {
                Mark::Unseen => return Met::Fresh { step, other },
                Mark::Open(place) => return Met::Again { step, place },
                Mark::Done(_) => {}
            }
        }
    }
    Met::Nothing
}

// The numbers of a path from a place on.
fn path_from(alloc: Global, path: &[usize], place: usize) -> Result<List<usize>, AllocError>
    requires { place < length path.now }
    ensures { IfOk result (λ circle. circle ≡ drop place path.now) }
{
    Ok(List::of(path[place..].to_vec(alloc)?))
}

/// The state of a walk: for each number its mark, and the step below which all that it leads to is
/// done (`next`); the path of open numbers (`stack`); and the order so far.
#[derive(Drop)]
pub struct Walk {
    pub marks: Vec<Mark>,
    pub next: Vec<usize>,
    pub stack: Vec<usize>,
    pub order: Vec<usize>,
}

impl Walk {
    /// Makes the walk before its first step.
    pub fn start(alloc: Global, links: &[List<Option<usize>>]) -> Result<Walk, AllocError>
        ensures walk { IfOk result (IsWalkOf links.now) }
        ensures idle { IfOk result (λ walk. walk.stack.items ≡ []) }
    {
        let count = links.len();
        Ok(Walk {
            marks: vec![in alloc; Mark::Unseen; count]?,
            next: vec![in alloc; 0; count]?,
            stack: Vec::new(alloc),
            order: Vec::with_capacity(alloc, count)?,
        })
    }

    // Puts a number on top of the path.
    fn open(&mut self, n: usize) -> Result<(), WalkError>
        requires { n < length self.old.marks.items }
        ensures marks { OnOk result (
            self.new.marks.items
            ≡ slice_set self.old.marks.items n (Open (length self.old.stack.items))
            ) }
        ensures next { self.new.next.items ≡ self.old.next.items }
        ensures stack { OnOk result (self.new.stack.items ≡ self.old.stack.items ++ n ∷ []) }
        ensures order { self.new.order.items ≡ self.old.order.items }
        ensures refused { IfErr result (λ e. e ≡ WalkError.NoMemory) }
    {
        let place = self.stack.len();
        self.stack.push(n)?;
        self.marks[n] = Mark::Open(place);
        Ok(())
    }

    // Moves the number on top of the path to the end of the order.
    fn close(&mut self, n: usize) -> Result<(), WalkError>
        requires { n < length self.old.marks.items }
        ensures marks { OnOk result (
            self.new.marks.items
            ≡ slice_set self.old.marks.items n (Done (length self.old.order.items))
            ) }
        ensures next { self.new.next.items ≡ self.old.next.items }
        ensures stack { OnOk result (
            self.new.stack.items ≡ take (length self.old.stack.items - 1) self.old.stack.items
            ) }
        ensures order { OnOk result (self.new.order.items ≡ self.old.order.items ++ n ∷ []) }
        ensures refused { IfErr result (λ e. e ≡ WalkError.NoMemory) }
    {
        let place = self.order.len();
        self.order.push(n)?;
        self.marks[n] = Mark::Done(place);
        let _top = self.stack.pop();
        Ok(())
    }

    // Takes one step at the number on top of the path: it opens another number, closes this one, or
    // finds a circle.
    fn step(
        &mut self,
        alloc: Global,
        links: &[List<Option<usize>>],
        n: usize,
    ) -> Result<(), WalkError>
        requires within { StayWithin links.now }
        requires walk { IsWalkOf links.now self.old }
        requires top { IsTop self.old.stack.items n }
        ensures walk { OnOk result (IsWalkOf links.now self.new) }
        ensures less { OnOk result (
            work self.new.marks.items self.new.stack.items
            < work self.old.marks.items self.old.stack.items
            ) }
        ensures seen { OnOk result (AreStillSeen self.old.marks.items self.new.marks.items) }
        ensures refused { IfErr result (IsWalkRefusal links.now) }
    {
        match first_met(links, &self.marks, n, self.next[n]) {
            Met::Nothing => self.close(n),
            Met::Fresh { step, other } => {
                self.next[n] = step;
                self.open(other)
            }
            Met::Again { place, .. } => {
                Err(WalkError::Circle(path_from(alloc, &self.stack, place)?))
            }
        }
    }

    /// Walks on until a number, and all that it leads to by any number of steps, stand in the
    /// order.
    pub fn reach(
        &mut self,
        alloc: Global,
        links: &[List<Option<usize>>],
        n: usize,
    ) -> Result<(), WalkError>
        requires within { StayWithin links.now }
        requires walk { IsWalkOf links.now self.old }
        requires idle { self.old.stack.items ≡ [] }
        requires number { n < length links.now }
        ensures walk { OnOk result (IsWalkOf links.now self.new) }
        ensures idle { OnOk result (self.new.stack.items ≡ []) }
        ensures seen { OnOk result (AreStillSeen self.old.marks.items self.new.marks.items) }
        ensures here { OnOk result (mark_of self.new.marks.items n ≢ Unseen) }
        ensures refused { IfErr result (IsWalkRefusal links.now) }
    {
        if let Mark::Unseen = self.marks[n] {
            self.open(n)?;
            while let Some(top) = self.stack.last() {
                let top = *top;
                self.step(alloc, links, top)?;
            }
        }
        Ok(())
    }
}
