// A breadth-first search among models, along the subckt lines that lead on from one of them.
ghost use Rattle.std.specs.Prelude.{◌≡◌, ◌<◌, ℕ, List, length, MatchOption, IfOk, OnOk};
ghost use Rattle.lists.specs.Items.{number_at};
ghost use Rattle.model_index.specs.Numbers.{PlacesSomewhere};
ghost use Rattle.model_circles.specs.Search.{IsSearchOf, StillFound, IsFound, IsWholeSearch, Meets};
ghost use Rattle.model_circles.specs.Ways.{IsWayBack, LeadsBackBy};

use model_index::{NamedModels, placed};
use netlist_core::Model;
use std::alloc::{AllocError, Global};

/// A search so far: the models found, in this order (`found`); for each of them the place there of
/// the one that places it (`parents`); and for each model its place among those found (`places`).
#[derive(Drop)]
pub struct Search {
    pub places: Vec<Option<usize>>,
    pub found: Vec<usize>,
    pub parents: Vec<usize>,
}

impl Search {
    // The search that has found its first model.
    fn start(alloc: Global, models: &[Model], first: usize) -> Result<Search, AllocError>
        requires { first < length models.now }
        ensures { IfOk result (IsSearchOf models.now first) }
    {
        let mut places = vec![in alloc; None; models.len()]?;
        places[first] = Some(0);
        let mut found = Vec::new(alloc);
        found.push(first)?;
        let mut parents = Vec::new(alloc);
        parents.push(0)?;
        Ok(Search {
            places,
            found,
            parents,
        })
    }

    // Meets a model that the one at a place places.
    fn meet(&mut self, inner: usize, at: usize) -> Result<(), AllocError>
        requires { inner < length self.old.places.items }
        ensures { OnOk result (Meets self.old inner at self.new) }
    {
        if let None = self.places[inner] {
            self.places[inner] = Some(self.found.len());
            self.found.push(inner)?;
            self.parents.push(at)?;
        }
        Ok(())
    }

    // Meets all models that the one at a place places.
    fn visit(
        &mut self,
        models: &[Model],
        named: &NamedModels,
        first: usize,
        at: usize,
    ) -> Result<(), AllocError>
        requires index { named.now ≡ models.now }
        requires search { IsSearchOf models.now first self.old }
        requires place { at < length self.old.found.items }
        ensures search { OnOk result (IsSearchOf models.now first self.new) }
        ensures kept { OnOk result (StillFound self.old.places.items self.new.places.items) }
        ensures met { OnOk result ((inner : ℕ) → PlacesSomewhere models.now
            (number_at self.old.found.items at) inner
            → IsFound self.new.places.items inner) }
    {
        let n = self.found[at];
        for line in 0..models[n].subckts.len() {
            if let Some(inner) = placed(models, named, n, line) {
                self.meet(inner, at)?;
            }
        }
        Ok(())
    }

    /// Finds all models to which `first` leads by subckt lines, and `first` itself.
    pub fn from(
        alloc: Global,
        models: &[Model],
        named: &NamedModels,
        first: usize,
    ) -> Result<Search, AllocError>
        requires index { named.now ≡ models.now }
        requires first { first < length models.now }
        ensures { IfOk result (IsWholeSearch models.now first) }
    {
        let mut search = Search::start(alloc, models, first)?;
        let mut at = 0;
        while at < search.found.len() {
            search.visit(models, named, first, at)?;
            at += 1;
        }
        Ok(search)
    }

    // The models on the way from the first to the one at a place, without the last.
    fn way(
        &self,
        alloc: Global,
        models: &[Model],
        first: usize,
        place: usize,
    ) -> Result<Vec<usize>, AllocError>
        requires search { IsSearchOf models.now first self.now }
        requires place { place < length self.now.found.items }
        ensures { IfOk result (λ way.
            IsWayBack models.now first (number_at self.now.found.items place) way.items
            ) }
    {
        let mut way = Vec::new(alloc);
        let mut at = place;
        while at > 0 {
            at = self.parents[at];
            way.push(self.found[at])?;
        }
        way.reverse();
        Ok(way)
    }

    /// Returns the models on a way from the first to a goal, without the goal, if there is a way.
    pub fn way_to(
        &self,
        alloc: Global,
        models: &[Model],
        first: usize,
        goal: usize,
    ) -> Result<Option<Vec<usize>>, AllocError>
        requires search { IsWholeSearch models.now first self.now }
        requires goal { goal < length models.now }
        ensures { IfOk result (λ found. MatchOption found ((numbers : List ℕ)
            → ¬ LeadsBackBy models.now first numbers goal)
            (λ way. IsWayBack models.now first goal way.items)) }
    {
        match self.places[goal] {
            None => Ok(None),
            Some(place) => Ok(Some(self.way(alloc, models, first, place)?)),
        }
    }
}

/// Returns the models on a way from one to a goal, without the goal, if there is a way.
pub fn way_between(
    alloc: Global,
    models: &[Model],
    named: &NamedModels,
    first: usize,
    goal: usize,
) -> Result<Option<Vec<usize>>, AllocError>
    requires index { named.now ≡ models.now }
    requires first { first < length models.now }
    requires goal { goal < length models.now }
    ensures { IfOk result (λ found. MatchOption found ((numbers : List ℕ)
        → ¬ LeadsBackBy models.now first numbers goal)
        (λ way. IsWayBack models.now first goal way.items)) }
{
    let search = Search::from(alloc, models, named, first)?;
    search.way_to(alloc, models, first, goal)
}
