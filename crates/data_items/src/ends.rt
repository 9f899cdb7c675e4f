//! The end of items.
ghost use Rattle.data_core.specs.declared.fault.Fault.TheVariants.{InvalidLength};
ghost use Rattle.data_core.specs.Fault.{IsCalled};
ghost use Rattle.data_core.specs.Sequence.{Ends};
ghost use Rattle.data_items.specs.PairSources.{left_over};
ghost use Rattle.data_items.specs.Waiting.{left_of, taken_of};

use crate::waiting::Waiting;
use data_core::DeError;
use std::alloc::Global;

// The end of items, none of which may be left. How many were taken is what was expected.
pub(crate) fn end_of_items<E: DeError, T: Drop>(alloc: Global, items: Waiting<T>) -> Result<(), E>
    ensures { Ends E.fault result (left_over (taken_of items) (left_of items)) }
{
    if items.len() == 0 {
        return Ok(());
    }
    Err(wrong_length(alloc, items.total(), items.taken()))
}

// The error of so many items, where another number of them was expected.
pub(crate) fn wrong_length<E: DeError>(alloc: Global, len: usize, expected: usize) -> E
    ensures { IsCalled (E.fault result) (InvalidLength len) }
{
    match format!(in alloc; "{expected}") {
        Ok(expected) => E::invalid_length(alloc, len, expected.as_str()),
        Err(_) => E::memory(),
    }
}
