//! Readers of the integers of 128 bits.
ghost use Rattle.std.specs.Prelude.{◌-◌, ◌^◌, ◌≡◌, pos, negsuc, refl, IfErr};
ghost use Rattle.data_core.specs.Ask as asks;
ghost use Rattle.data_core.specs.Source.{scalar};
ghost use Rattle.data_core.specs.Source as offer;
ghost use Rattle.data_core.specs.Show.{shown_offer};
ghost use Rattle.data_core.specs.Outcome.{Answers};
ghost use Rattle.data_core.specs.Refused.{IsSeenOf};
ghost use Rattle.data_core.specs.Tracking.{clear};
ghost use Rattle.scalar_seeds.specs.Integer.{IsMade};
ghost use Rattle.data_core.specs.Reads.{IsOutcome, only_refusal};
ghost use Rattle.scalar_seeds.specs.Scalars.{wide_of};

use crate::integers::{Integer, visit_integer};
use data_core::{DeError, DeserializeSeed, Deserializer, Hint, Scalar, Shown, Track, Unexpected};
use std::alloc::Global;
use std::marker::PhantomData;

/// An integer type of 128 bits. It is this project's own, and has one reader for both.
pub trait WideInteger: Integer {
    /// The integer of that number, where it is in range.
    fn from_wide_unsigned(n: u128) -> Option<Self>
        ensures { IsMade Self.least Self.greatest Self.number (pos n) result };

    /// The integer of that number, where it is in range.
    fn from_wide_signed(n: i128) -> Option<Self>
        ensures { IsMade Self.least Self.greatest Self.number n result };
}

/// The reader of an integer type of 128 bits: it takes every integer that is in range.
#[derive(Drop)]
pub struct WideIntegerSeed<N: WideInteger> {
    of: PhantomData<N>,
}

impl<N: WideInteger> WideIntegerSeed<N> {
    /// The reader. Takes no memory.
    pub fn new() -> WideIntegerSeed<N> {
        WideIntegerSeed { of: PhantomData }
    }
}

impl<N: WideInteger> DeserializeSeed for WideIntegerSeed<N> {
    type Value = N;

    ghost asks = { λ _. N.asks };

    ghost reads = { λ _ offer outcome. IsOutcome N.number (wide_of N.least N.greatest offer) outcome };

    fn hint(&self) -> Hint<'_> {
        N::hint()
    }

    fn visit<D: Deserializer>(
        self,
        alloc: Global,
        shown: Shown<D>,
        _track: &mut Track,
    ) -> Result<N, D::Error> {
        visit_wide::<D, N>(alloc, shown)
    }

    ghost passes_refusals = { λ _ f. (refl, only_refusal N.number f) };

    ghost quiet = { Unit {0} };

    ghost placed = { Unit {0} };

    ghost leaves = { λ _ _ now. now ≡ clear };
}

fn visit_wide<D: Deserializer, N: WideInteger>(
    alloc: Global,
    shown: Shown<D>,
) -> Result<N, D::Error>
    ensures answers { Answers D.Error.fault N.number result
        (wide_of N.least N.greatest (shown_offer D.Text.text D.Bytes.bytes D.source D.sequence D.table D.choice shown)) }
    ensures sees { IfErr result (λ e. IsSeenOf (D.Error.saw e) (shown_offer D.Text.text D.Bytes.bytes D.source D.sequence D.table D.choice shown)) }
{
    match shown {
        Shown::Scalar(Scalar::U128(n)) => wide_unsigned::<D, N>(alloc, n),
        Shown::Scalar(Scalar::I128(n)) => wide_signed::<D, N>(alloc, n),
        other => visit_integer::<D, N>(alloc, other),
    }
}

// An integer that was shown as an unsigned one of 128 bits.
fn wide_unsigned<D: Deserializer, N: WideInteger>(alloc: Global, n: u128) -> Result<N, D::Error>
    ensures answers { Answers D.Error.fault N.number result (wide_of N.least N.greatest (scalar (offer.wide_unsigned n))) }
    ensures sees { IfErr result (λ e. IsSeenOf (D.Error.saw e) (scalar (offer.wide_unsigned n))) }
{
    match N::from_wide_unsigned(n) {
        Some(n) => Ok(n),
        None => Err(D::Error::invalid_value(alloc, Unexpected::Other("u128"), N::name())),
    }
}

// An integer that was shown as a signed one of 128 bits.
fn wide_signed<D: Deserializer, N: WideInteger>(alloc: Global, n: i128) -> Result<N, D::Error>
    ensures answers { Answers D.Error.fault N.number result (wide_of N.least N.greatest (scalar (offer.wide_signed n))) }
    ensures sees { IfErr result (λ e. IsSeenOf (D.Error.saw e) (scalar (offer.wide_signed n))) }
{
    match N::from_wide_signed(n) {
        Some(n) => Ok(n),
        None => Err(D::Error::invalid_value(alloc, Unexpected::Other("i128"), N::name())),
    }
}

impl Integer for u128 {
    ghost asks = { asks.u128 };

    ghost least = { pos 0 };

    ghost greatest = { pos (2 ^ 128 - 1) };

    ghost number = { pos };

    fn hint() -> Hint<'static> {
        Hint::U128
    }

    fn name() -> &'static str {
        "u128"
    }

    fn from_unsigned(n: u64) -> Option<u128> {
        u128::try_from(n).ok()
    }

    fn from_signed(n: i64) -> Option<u128> {
        u128::try_from(n).ok()
    }
}

impl WideInteger for u128 {
    fn from_wide_unsigned(n: u128) -> Option<u128> {
        u128::try_from(n).ok()
    }

    fn from_wide_signed(n: i128) -> Option<u128> {
        u128::try_from(n).ok()
    }
}

impl Integer for i128 {
    ghost asks = { asks.i128 };

    ghost least = { negsuc (2 ^ 127 - 1) };

    ghost greatest = { pos (2 ^ 127 - 1) };

    ghost number = { λ n. n };

    fn hint() -> Hint<'static> {
        Hint::I128
    }

    fn name() -> &'static str {
        "i128"
    }

    fn from_unsigned(n: u64) -> Option<i128> {
        i128::try_from(n).ok()
    }

    fn from_signed(n: i64) -> Option<i128> {
        i128::try_from(n).ok()
    }
}

impl WideInteger for i128 {
    fn from_wide_unsigned(n: u128) -> Option<i128> {
        i128::try_from(n).ok()
    }

    fn from_wide_signed(n: i128) -> Option<i128> {
        i128::try_from(n).ok()
    }
}
