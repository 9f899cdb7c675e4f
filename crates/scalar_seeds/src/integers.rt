//! Readers of integers.
ghost use Rattle.std.specs.Prelude.{◌≡◌, ◌-◌, ◌^◌, ℤ, pos, negsuc, refl, IfErr};
ghost use Rattle.data_core.specs.Ask as asks;
ghost use Rattle.data_core.specs.Ask.{Ask, ask};
ghost use Rattle.data_core.specs.Source.{scalar};
ghost use Rattle.data_core.specs.Source as offer;
ghost use Rattle.data_core.specs.Show.{shown_offer};
ghost use Rattle.data_core.specs.Outcome.{Answers};
ghost use Rattle.data_core.specs.Refused.{IsSeenOf};
ghost use Rattle.data_core.specs.Tracking.{clear};
ghost use Rattle.scalar_seeds.specs.Integer.{IsMade};
ghost use Rattle.data_core.specs.Reads.{IsOutcome, only_refusal};
ghost use Rattle.scalar_seeds.specs.Scalars.{integer_of};

use data_core::{
    DeError, DeserializeSeed, Deserializer, Hint, Scalar, Shown, Track, Unexpected, refused,
};
use std::alloc::Global;
use std::marker::PhantomData;

/// An integer type of up to 64 bits. It is this project's own, and has one reader for all eight.
pub trait Integer: Drop + Sized {
    ghost asks: { Ask };

    ghost least: { ℤ };

    ghost greatest: { ℤ };

    ghost number: { Self → ℤ };

    /// What its reader hopes for.
    fn hint() -> Hint<'static>
        ensures { ask result ≡ asks };

    /// Its name, which a refusal shows as what was expected.
    fn name() -> &'static str;

    /// The integer of that number, where it is in range.
    fn from_unsigned(n: u64) -> Option<Self>
        ensures { IsMade least greatest number (pos n) result };

    /// The integer of that number, where it is in range.
    fn from_signed(n: i64) -> Option<Self>
        ensures { IsMade least greatest number n result };
}

/// The reader of an integer type: it takes every integer of up to 64 bits that is in range.
#[derive(Drop)]
pub struct IntegerSeed<N: Integer> {
    of: PhantomData<N>,
}

impl<N: Integer> IntegerSeed<N> {
    /// The reader. Takes no memory.
    pub fn new() -> IntegerSeed<N> {
        IntegerSeed { of: PhantomData }
    }
}

impl<N: Integer> DeserializeSeed for IntegerSeed<N> {
    type Value = N;

    ghost asks = { λ _. N.asks };

    ghost reads = { λ _ offer outcome. IsOutcome N.number (integer_of N.least N.greatest offer) outcome };

    fn hint(&self) -> Hint<'_> {
        N::hint()
    }

    fn visit<D: Deserializer>(
        self,
        alloc: Global,
        shown: Shown<D>,
        _track: &mut Track,
    ) -> Result<N, D::Error> {
        visit_integer::<D, N>(alloc, shown)
    }

    ghost passes_refusals = { λ _ f. (refl, only_refusal N.number f) };

    ghost quiet = { Unit {0} };

    ghost placed = { Unit {0} };

    ghost leaves = { λ _ _ now. now ≡ clear };
}

// What a reader of that integer type makes of an integer of up to 64 bits, and of what it does not take.
pub(crate) fn visit_integer<D: Deserializer, N: Integer>(
    alloc: Global,
    shown: Shown<D>,
) -> Result<N, D::Error>
    ensures answers { Answers D.Error.fault N.number result
        (integer_of N.least N.greatest (shown_offer D.Text.text D.Bytes.bytes D.source D.sequence D.table D.choice shown)) }
    ensures sees { IfErr result (λ e. IsSeenOf (D.Error.saw e) (shown_offer D.Text.text D.Bytes.bytes D.source D.sequence D.table D.choice shown)) }
{
    match shown {
        Shown::Scalar(Scalar::U8(n)) => unsigned::<D, N>(alloc, u64::from(n)),
        Shown::Scalar(Scalar::U16(n)) => unsigned::<D, N>(alloc, u64::from(n)),
        Shown::Scalar(Scalar::U32(n)) => unsigned::<D, N>(alloc, u64::from(n)),
        Shown::Scalar(Scalar::U64(n)) => unsigned::<D, N>(alloc, n),
        Shown::Scalar(Scalar::I8(n)) => signed::<D, N>(alloc, i64::from(n)),
        Shown::Scalar(Scalar::I16(n)) => signed::<D, N>(alloc, i64::from(n)),
        Shown::Scalar(Scalar::I32(n)) => signed::<D, N>(alloc, i64::from(n)),
        Shown::Scalar(Scalar::I64(n)) => signed::<D, N>(alloc, n),
        other => Err(refused(alloc, other, N::name())),
    }
}

// An integer that was shown as an unsigned one.
fn unsigned<D: Deserializer, N: Integer>(alloc: Global, n: u64) -> Result<N, D::Error>
    ensures answers { Answers D.Error.fault N.number result
        (integer_of N.least N.greatest (scalar (offer.unsigned offer.w64 n))) }
    ensures sees { IfErr result (λ e. IsSeenOf (D.Error.saw e) (scalar (offer.unsigned offer.w64 n))) }
{
    match N::from_unsigned(n) {
        Some(n) => Ok(n),
        None => Err(D::Error::invalid_value(alloc, Unexpected::Unsigned(n), N::name())),
    }
}

// An integer that was shown as a signed one.
fn signed<D: Deserializer, N: Integer>(alloc: Global, n: i64) -> Result<N, D::Error>
    ensures answers { Answers D.Error.fault N.number result
        (integer_of N.least N.greatest (scalar (offer.signed offer.w64 n))) }
    ensures sees { IfErr result (λ e. IsSeenOf (D.Error.saw e) (scalar (offer.signed offer.w64 n))) }
{
    match N::from_signed(n) {
        Some(n) => Ok(n),
        None => Err(D::Error::invalid_value(alloc, Unexpected::Signed(n), N::name())),
    }
}

impl Integer for u8 {
    ghost asks = { asks.u8 };

    ghost least = { pos 0 };

    ghost greatest = { pos (2 ^ 8 - 1) };

    ghost number = { pos };

    fn hint() -> Hint<'static> {
        Hint::U8
    }

    fn name() -> &'static str {
        "u8"
    }

    fn from_unsigned(n: u64) -> Option<u8> {
        u8::try_from(n).ok()
    }

    fn from_signed(n: i64) -> Option<u8> {
        u8::try_from(n).ok()
    }
}

impl Integer for u16 {
    ghost asks = { asks.u16 };

    ghost least = { pos 0 };

    ghost greatest = { pos (2 ^ 16 - 1) };

    ghost number = { pos };

    fn hint() -> Hint<'static> {
        Hint::U16
    }

    fn name() -> &'static str {
        "u16"
    }

    fn from_unsigned(n: u64) -> Option<u16> {
        u16::try_from(n).ok()
    }

    fn from_signed(n: i64) -> Option<u16> {
        u16::try_from(n).ok()
    }
}

impl Integer for u32 {
    ghost asks = { asks.u32 };

    ghost least = { pos 0 };

    ghost greatest = { pos (2 ^ 32 - 1) };

    ghost number = { pos };

    fn hint() -> Hint<'static> {
        Hint::U32
    }

    fn name() -> &'static str {
        "u32"
    }

    fn from_unsigned(n: u64) -> Option<u32> {
        u32::try_from(n).ok()
    }

    fn from_signed(n: i64) -> Option<u32> {
        u32::try_from(n).ok()
    }
}

impl Integer for u64 {
    ghost asks = { asks.u64 };

    ghost least = { pos 0 };

    ghost greatest = { pos (2 ^ 64 - 1) };

    ghost number = { pos };

    fn hint() -> Hint<'static> {
        Hint::U64
    }

    fn name() -> &'static str {
        "u64"
    }

    fn from_unsigned(n: u64) -> Option<u64> {
        u64::try_from(n).ok()
    }

    fn from_signed(n: i64) -> Option<u64> {
        u64::try_from(n).ok()
    }
}

impl Integer for i8 {
    ghost asks = { asks.i8 };

    ghost least = { negsuc (2 ^ 7 - 1) };

    ghost greatest = { pos (2 ^ 7 - 1) };

    ghost number = { λ n. n };

    fn hint() -> Hint<'static> {
        Hint::I8
    }

    fn name() -> &'static str {
        "i8"
    }

    fn from_unsigned(n: u64) -> Option<i8> {
        i8::try_from(n).ok()
    }

    fn from_signed(n: i64) -> Option<i8> {
        i8::try_from(n).ok()
    }
}

impl Integer for i16 {
    ghost asks = { asks.i16 };

    ghost least = { negsuc (2 ^ 15 - 1) };

    ghost greatest = { pos (2 ^ 15 - 1) };

    ghost number = { λ n. n };

    fn hint() -> Hint<'static> {
        Hint::I16
    }

    fn name() -> &'static str {
        "i16"
    }

    fn from_unsigned(n: u64) -> Option<i16> {
        i16::try_from(n).ok()
    }

    fn from_signed(n: i64) -> Option<i16> {
        i16::try_from(n).ok()
    }
}

impl Integer for i32 {
    ghost asks = { asks.i32 };

    ghost least = { negsuc (2 ^ 31 - 1) };

    ghost greatest = { pos (2 ^ 31 - 1) };

    ghost number = { λ n. n };

    fn hint() -> Hint<'static> {
        Hint::I32
    }

    fn name() -> &'static str {
        "i32"
    }

    fn from_unsigned(n: u64) -> Option<i32> {
        i32::try_from(n).ok()
    }

    fn from_signed(n: i64) -> Option<i32> {
        i32::try_from(n).ok()
    }
}

impl Integer for i64 {
    ghost asks = { asks.i64 };

    ghost least = { negsuc (2 ^ 63 - 1) };

    ghost greatest = { pos (2 ^ 63 - 1) };

    ghost number = { λ n. n };

    fn hint() -> Hint<'static> {
        Hint::I64
    }

    fn name() -> &'static str {
        "i64"
    }

    fn from_unsigned(n: u64) -> Option<i64> {
        i64::try_from(n).ok()
    }

    fn from_signed(n: i64) -> Option<i64> {
        i64::try_from(n).ok()
    }
}
