//! The fields of a struct.
ghost use Rattle.std.specs.Prelude.{◌≡◌, ◌++◌, ◌∷◌, ◌==◌, [], length, option_map, slice_get, OnOk, IfErr};
ghost use Rattle.shape.specs.Names.{place_of_name};
ghost use Rattle.shape.specs.View.{shape_view, fields_view};

use crate::names::{place_among, push_both};
use crate::shapes::{Fields, Shape};
use data_core::{Names, Text};
use std::alloc::Global;

impl Fields {
    /// No fields. Takes no memory.
    pub fn new(alloc: Global) -> Fields
        ensures names { result.names ≡ [] }
        ensures shapes { result.shapes.items ≡ [] }
    {
        Fields {
            names: Names::new(alloc),
            shapes: Vec::new(alloc),
        }
    }

    /// Adds a field at the end. It fails for want of memory alone: both parts then come back, and the
    /// fields are as before.
    pub fn push(&mut self, name: Text, shape: Shape) -> Result<(), (Text, Shape)>
        ensures names { OnOk result (self.new.names ≡ self.old.names ++ name ∷ []) }
        ensures shapes { OnOk result (self.new.shapes.items ≡ self.old.shapes.items ++ shape ∷ []) }
        ensures back { IfErr result (λ back. (back.0 ≡ name) × (back.1 ≡ shape)) }
        ensures unchanged { IfErr result (λ back. (self.new.names ≡ self.old.names) × (self.new.shapes.items ≡ self.old.shapes.items)) }
    {
        push_both(&mut self.names, &mut self.shapes, name, shape)
    }

    /// How many fields there are. Takes no memory.
    #[tactic(auto, using(crate::proofs::Places::length_paired))]
    pub fn len(&self) -> usize
        ensures { result ≡ length (fields_view self.now) }
    {
        self.names.len().min(self.shapes.len())
    }

    /// Whether there is no field. Takes no memory.
    pub fn is_empty(&self) -> bool
        ensures { result ≡ (length (fields_view self.now) == 0) }
    {
        self.len() == 0
    }

    /// The names of the fields in order, lent. Takes no memory.
    pub fn names(&self) -> &Names
        ensures { result.now ≡ self.now.names }
    {
        &self.names
    }

    /// The shapes of the fields in order, lent. Takes no memory.
    pub fn shapes(&self) -> &[Shape]
        ensures { result.now ≡ self.now.shapes.items }
    {
        self.shapes.as_slice()
    }

    /// The shape of the field at a place, counted from 0, and none past the end. Takes no memory.
    #[tactic(auto, using(crate::proofs::Places::places))]
    pub fn shape(&self, place: usize) -> Option<&Shape>
        ensures { option_map (λ shape. shape_view shape.now) result ≡ option_map (λ field. field.1) (slice_get (fields_view self.now) place) }
    {
        if place < self.len() {
            Some(&self.shapes[place])
        } else {
            None
        }
    }

    /// The place of the first field of a name, counted from 0. Takes no memory.
    pub fn find(&self, name: &str) -> Option<usize>
        ensures { result ≡ place_of_name name.now (fields_view self.now) }
    {
        place_among(&self.names, self.shapes.len(), name)
    }
}
