// The numbers of nets.
ghost use Rattle.std.specs.Prelude.{◌≡◌, ◌<◌, ◌^◌, ◌∷◌, ◌++◌, [], Some, length, map, slice_get, IfOk, MatchOption};
ghost use Rattle.netlist_meaning.specs.Places.{model_at};
ghost use Rattle.netlist_meaning.specs.Nets.{net_at, IsNet};
ghost use Rattle.netlist_core.specs.declared.model.Model as models;
ghost use Rattle.netlist_meaning.specs.InOrder.{names_in_order, places_in_order, nets_at};
ghost use Rattle.netlist_meaning.specs.FlatOf.{id_of};
ghost use Rattle.netlist_meaning.specs.Weight.{weight};
ghost use Rattle.netlist_rules.specs.ModelFaults.{AreFaultless};
ghost use Rattle.design_walks.specs.Places.{ArePlaces};
ghost use Rattle.netlist_flatten.specs.Numbered.{place_at, nets_before};

use crate::tables::{firsts_of, names_by_model};
use design_walks::{ModelNames, Parent, PlacedModel, places};
use lists::List;
use model_index::NamedModels;
use netlist_core::{Design, Model, NetId};
use std::alloc::{AllocError, Global};

/// A design with the numbers of its places and of their nets. Contracts see the design.
#[derive(Drop)]
pub struct Numbers<'a> {
    design: &'a Design,
    placed: List<PlacedModel>,
    names: List<Option<ModelNames<'a>>>,
    firsts: List<u32>,
}

impl<'a> std::marker::Model for Numbers<'a> {
    ghost use Rattle.netlist_core.specs.declared.model.Design.{Design};
    ghost use Rattle.netlist_flatten.specs.Tables.{AreTables};

    ghost Value = { Design };

    ghost view = { λ n. n.design.now };

    ghost invariant = { λ n. AreTables n.design.now n.placed n.names n.firsts };
}

// The places of a design, each with its model and its parent.
fn placed_models(alloc: Global, design: &Design) -> Result<List<PlacedModel>, AllocError>
    requires faultless { AreFaultless design.now.models }
    requires few { weight design.now < 2 ^ 32 }
    ensures { IfOk result (ArePlaces design.now) }
{
    let named = NamedModels::new(alloc, design.models.as_slice())?;
    let placed = places(alloc, design, &named);
    drop(named);
    placed
}

impl<'a> Numbers<'a> {
    /// Numbers the places of a design and their nets.
    pub fn new(alloc: Global, design: &'a Design) -> Result<Numbers<'a>, AllocError>
        requires faultless { AreFaultless design.now.models }
        requires few { weight design.now < 2 ^ 32 }
        ensures { IfOk result (λ numbers. numbers ≡ design.now) }
    {
        let placed = placed_models(alloc, design)?;
        let names = names_by_model(alloc, design, placed.as_slice())?;
        let firsts = firsts_of(alloc, design, placed.as_slice(), &names)?;
        Ok(Numbers {
            design,
            placed,
            names: List::of(names),
            firsts: List::of(firsts),
        })
    }

    /// Returns how many places there are.
    pub fn len(&self) -> usize
        ensures { result ≡ length (places_in_order self.now) }
    {
        self.placed.len()
    }

    /// Returns the place of a number.
    pub fn place(&self, at: usize) -> &[u32]
        requires { at < length (places_in_order self.now) }
        ensures { result.now ≡ place_at self.now at }
    {
        self.placed.get(at).place.as_slice()
    }

    /// Returns the number of the line that leads to a place, and that of the place in whose model
    /// it stands. The main model's place has no parent.
    pub fn parent(&self, at: usize) -> Option<Parent>
        requires { at < length (places_in_order self.now) }
        ensures { MatchOption result (place_at self.now at ≡ []) (λ up. (up.number < at)
            × (place_at self.now at ≡ place_at self.now up.number ++ up.line ∷ [])) }
    {
        self.placed.get(at).parent
    }

    /// Returns the model at a place.
    pub fn model(&self, at: usize) -> &'a Model
        requires { at < length (places_in_order self.now) }
        ensures { model_at self.now (place_at self.now at) ≡ Some result.now }
    {
        self.design.models.get(self.placed.get(at).model)
    }

    // The names of the model at a place.
    fn model_names(&self, at: usize) -> &ModelNames<'a>
        requires { at < length (places_in_order self.now) }
        ensures { (m : models.Model) → model_at self.now (place_at self.now at) ≡ Some m
            → result.now ≡ names_in_order m }
    {
        match self.names.get(self.placed.get(at).model) {
            None => unreachable!(),
            Some(names) => names,
        }
    }

    /// Returns the names of the nets at a place, in order.
    pub fn names(&self, at: usize) -> &[&'a [u8]]
        requires { at < length (places_in_order self.now) }
        ensures { nets_at self.now (place_at self.now at)
            ≡ map (λ name. net_at (place_at self.now at) name.now) result.now }
    {
        self.model_names(at).as_slice()
    }

    /// Returns the number of a place's first net.
    pub fn first(&self, at: usize) -> u32
        requires { at < length (places_in_order self.now) }
        ensures { result ≡ length (nets_before self.now at) }
    {
        *self.firsts.get(at)
    }

    /// Returns the position of the net of this name among the nets at a place.
    pub fn position(&self, at: usize, name: &[u8]) -> usize
        requires place { at < length (places_in_order self.now) }
        requires net { IsNet self.now (net_at (place_at self.now at) name.now) }
        ensures { slice_get (nets_at self.now (place_at self.now at)) result
            ≡ Some (net_at (place_at self.now at) name.now) }
    {
        self.model_names(at).position(name).unwrap_or(0)
    }

    /// Returns the number of the net of this name at a place.
    pub fn id(&self, at: usize, name: &[u8]) -> NetId
        requires place { at < length (places_in_order self.now) }
        requires net { IsNet self.now (net_at (place_at self.now at) name.now) }
        ensures { result ≡ id_of self.now (place_at self.now at) name.now }
    {
        NetId(*self.firsts.get(at) + self.position(at, name) as u32)
    }
}
