//! What a deserializer without parts has for elements, entries and payloads.
ghost use Rattle.std.specs.Prelude.{◌≡◌, IfOk, IfErr};
ghost use Rattle.data_core.specs.Choice.{spent};
ghost use Rattle.data_core.specs.Fault.{IsCalled};
ghost use Rattle.data_core.specs.Node.{no_payload};
ghost use Rattle.data_items.specs.Plain.{unit_choice};

use data_core::{DeError, Fault};
use std::alloc::Global;
use std::mem;

/// A variant without a payload, whose end is taken once.
#[derive(Drop)]
pub struct UnitOnly {
    pub(crate) taken: bool,
}

impl UnitOnly {
    /// A variant of which nothing was taken yet.
    pub fn new() -> UnitOnly
        ensures { unit_choice result.taken ≡ no_payload }
    {
        UnitOnly { taken: false }
    }

    // That no payload is there, which is told once.
    pub(crate) fn take<E: DeError>(&mut self, alloc: Global) -> Result<(), E>
        ensures given { IfOk result (λ _. unit_choice self.old.taken ≡ no_payload) }
        ensures none { IfErr result (λ e. (unit_choice self.old.taken ≡ spent) × IsCalled (E.fault e) Fault.Custom) }
        ensures taken { unit_choice self.new.taken ≡ spent }
    {
        if mem::replace(&mut self.taken, true) {
            return Err(E::custom(alloc, "the payload was taken"));
        }
        Ok(())
    }
}

/// A sequence without elements. None is shown.
#[derive(Drop)]
pub struct NoElements;

/// A map without entries. None is shown.
#[derive(Drop)]
pub struct NoEntries<D: Drop> {
    pub(crate) waiting: Option<D>,
}
