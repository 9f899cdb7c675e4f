//! Types whose readers have exactly one outcome of each offer.
ghost use Rattle.std.specs.Prelude.{ℕ, ℤ, Bool, List, Option, ◌-◌, ◌^◌, pos, negsuc, map, option_map, string_bytes};
ghost use Rattle.data_core.specs.Source.{Offer, offer_of};
ghost use Rattle.data_core.specs.Outcome.{Outcome, IsTold, Gives};
ghost use Rattle.data_core.specs.Tracking.{Keeps};
ghost use Rattle.scalar_seeds.specs.Scalars.{boolean_of, character_of, integer_of, text_of, unit_of, wide_of};
ghost use Rattle.data_std.specs.Ignored.{ignored_offer};
ghost use Rattle.data_std.specs.Told.{from_source, told_by, option_outcome, told_option, told_box, list_outcome, told_list, sequence_outcome, parts1_outcome, told_tuple1, parts2_outcome, told_tuple2, parts3_outcome, told_tuple3, parts4_outcome, told_tuple4};

use crate::ignored::IgnoredAny;
use crate::reading::deserialize;
use crate::types::Deserialize;
use data_core::{Deserializer, Track};
use std::alloc::Global;

/// A type whose reader has exactly one outcome of each offer, as plain data, and passes each refusal
/// on, at its path.
pub trait Told: Deserialize {
    // What a value is, as plain data.
    ghost Seen: { Type 0 };

    ghost see: { Self → Seen };

    // The outcome of an offer.
    ghost outcome: { Offer → Outcome Seen };

    ghost is_told: { IsTold see outcome Self.reads };

    ghost is_quiet: { Self.Seed.quiet };

    ghost is_placed: { Self.Seed.placed };
}

impl Told for u8 {
    ghost Seen = { ℤ };

    ghost see = { pos };

    ghost outcome = { integer_of (pos 0) (pos (2 ^ 8 - 1)) };

    ghost is_told = { told_by pos (integer_of (pos 0) (pos (2 ^ 8 - 1))) };

    ghost is_quiet = { tt };

    ghost is_placed = { tt };
}

impl Told for u16 {
    ghost Seen = { ℤ };

    ghost see = { pos };

    ghost outcome = { integer_of (pos 0) (pos (2 ^ 16 - 1)) };

    ghost is_told = { told_by pos (integer_of (pos 0) (pos (2 ^ 16 - 1))) };

    ghost is_quiet = { tt };

    ghost is_placed = { tt };
}

impl Told for u32 {
    ghost Seen = { ℤ };

    ghost see = { pos };

    ghost outcome = { integer_of (pos 0) (pos (2 ^ 32 - 1)) };

    ghost is_told = { told_by pos (integer_of (pos 0) (pos (2 ^ 32 - 1))) };

    ghost is_quiet = { tt };

    ghost is_placed = { tt };
}

impl Told for u64 {
    ghost Seen = { ℤ };

    ghost see = { pos };

    ghost outcome = { integer_of (pos 0) (pos (2 ^ 64 - 1)) };

    ghost is_told = { told_by pos (integer_of (pos 0) (pos (2 ^ 64 - 1))) };

    ghost is_quiet = { tt };

    ghost is_placed = { tt };
}

impl Told for i8 {
    ghost Seen = { ℤ };

    ghost see = { λ n. n };

    ghost outcome = { integer_of (negsuc (2 ^ 7 - 1)) (pos (2 ^ 7 - 1)) };

    ghost is_told = { told_by (λ n. n) (integer_of (negsuc (2 ^ 7 - 1)) (pos (2 ^ 7 - 1))) };

    ghost is_quiet = { tt };

    ghost is_placed = { tt };
}

impl Told for i16 {
    ghost Seen = { ℤ };

    ghost see = { λ n. n };

    ghost outcome = { integer_of (negsuc (2 ^ 15 - 1)) (pos (2 ^ 15 - 1)) };

    ghost is_told = { told_by (λ n. n) (integer_of (negsuc (2 ^ 15 - 1)) (pos (2 ^ 15 - 1))) };

    ghost is_quiet = { tt };

    ghost is_placed = { tt };
}

impl Told for i32 {
    ghost Seen = { ℤ };

    ghost see = { λ n. n };

    ghost outcome = { integer_of (negsuc (2 ^ 31 - 1)) (pos (2 ^ 31 - 1)) };

    ghost is_told = { told_by (λ n. n) (integer_of (negsuc (2 ^ 31 - 1)) (pos (2 ^ 31 - 1))) };

    ghost is_quiet = { tt };

    ghost is_placed = { tt };
}

impl Told for i64 {
    ghost Seen = { ℤ };

    ghost see = { λ n. n };

    ghost outcome = { integer_of (negsuc (2 ^ 63 - 1)) (pos (2 ^ 63 - 1)) };

    ghost is_told = { told_by (λ n. n) (integer_of (negsuc (2 ^ 63 - 1)) (pos (2 ^ 63 - 1))) };

    ghost is_quiet = { tt };

    ghost is_placed = { tt };
}

impl Told for u128 {
    ghost Seen = { ℤ };

    ghost see = { pos };

    ghost outcome = { wide_of (pos 0) (pos (2 ^ 128 - 1)) };

    ghost is_told = { told_by pos (wide_of (pos 0) (pos (2 ^ 128 - 1))) };

    ghost is_quiet = { tt };

    ghost is_placed = { tt };
}

impl Told for i128 {
    ghost Seen = { ℤ };

    ghost see = { λ n. n };

    ghost outcome = { wide_of (negsuc (2 ^ 127 - 1)) (pos (2 ^ 127 - 1)) };

    ghost is_told = { told_by (λ n. n) (wide_of (negsuc (2 ^ 127 - 1)) (pos (2 ^ 127 - 1))) };

    ghost is_quiet = { tt };

    ghost is_placed = { tt };
}

impl Told for bool {
    ghost Seen = { Bool };

    ghost see = { λ b. b };

    ghost outcome = { boolean_of };

    ghost is_told = { told_by (λ b. b) boolean_of };

    ghost is_quiet = { tt };

    ghost is_placed = { tt };
}

impl Told for () {
    ghost Seen = { Unit {0} };

    ghost see = { λ u. u };

    ghost outcome = { unit_of };

    ghost is_told = { told_by (λ u. u) unit_of };

    ghost is_quiet = { tt };

    ghost is_placed = { tt };
}

impl Told for char {
    ghost Seen = { ℕ };

    ghost see = { λ c. c };

    ghost outcome = { character_of };

    ghost is_told = { told_by (λ c. c) character_of };

    ghost is_quiet = { tt };

    ghost is_placed = { tt };
}

impl Told for String {
    ghost Seen = { List ℕ };

    ghost see = { string_bytes };

    ghost outcome = { text_of };

    ghost is_told = { told_by string_bytes text_of };

    ghost is_quiet = { tt };

    ghost is_placed = { tt };
}

impl Told for IgnoredAny {
    ghost Seen = { Unit {0} };

    ghost see = { λ _. tt };

    ghost outcome = { ignored_offer };

    ghost is_told = { told_by (λ _. tt) ignored_offer };

    ghost is_quiet = { tt };

    ghost is_placed = { tt };
}

impl<T: Told> Told for Option<T> {
    ghost Seen = { Option T.Seen };

    ghost see = { option_map T.see };

    ghost outcome = { option_outcome (from_source T.asks T.outcome) };

    ghost is_told = { told_option T.see T.asks T.reads T.outcome T.is_told };

    ghost is_quiet = { T.is_quiet };

    ghost is_placed = { T.is_placed };
}

impl<T: Told> Told for Box<T> {
    ghost Seen = { T.Seen };

    ghost see = { λ b. T.see b.value };

    ghost outcome = { T.outcome };

    ghost is_told = { told_box (λ b. b.value) T.see T.reads T.outcome T.is_told };

    ghost is_quiet = { T.is_quiet };

    ghost is_placed = { T.is_placed };
}

impl<T: Told> Told for Vec<T> {
    ghost Seen = { List T.Seen };

    ghost see = { λ v. map T.see v.items };

    ghost outcome = { list_outcome (from_source T.asks T.outcome) };

    ghost is_told = { told_list (λ v. v.items) T.see T.asks T.reads T.outcome T.is_told };

    ghost is_quiet = { T.is_quiet };

    ghost is_placed = { (T.is_placed, T.is_quiet) };
}

impl<T0: Told> Told for (T0,) {
    ghost Seen = { T0.Seen };

    ghost see = { λ t. T0.see t.0 };

    ghost outcome = { sequence_outcome (λ checks. parts1_outcome (from_source T0.asks T0.outcome) checks 0) };

    ghost is_told = { told_tuple1 T0.see T0.asks T0.reads T0.outcome T0.is_told };

    ghost is_quiet = { T0.is_quiet };

    ghost is_placed = { (T0.is_placed, T0.is_quiet) };
}

impl<T0: Told, T1: Told> Told for (T0, T1) {
    ghost Seen = { T0.Seen × T1.Seen };

    ghost see = { λ t. let all : T0.Seen × T1.Seen = (T0.see t.0, T1.see t.1) in all };

    ghost outcome = { sequence_outcome (λ checks. parts2_outcome (from_source T0.asks T0.outcome) (from_source T1.asks T1.outcome) checks 0) };

    ghost is_told = { told_tuple2 T0.see T1.see T0.asks T1.asks T0.reads T1.reads T0.outcome T1.outcome T0.is_told T1.is_told };

    ghost is_quiet = { (T0.is_quiet, T1.is_quiet) };

    ghost is_placed = { ((T0.is_placed, T0.is_quiet), (T1.is_placed, T1.is_quiet)) };
}

impl<T0: Told, T1: Told, T2: Told> Told for (T0, T1, T2) {
    ghost Seen = { T0.Seen × T1.Seen × T2.Seen };

    ghost see = { λ t. let all : T0.Seen × T1.Seen × T2.Seen = (T0.see t.0, T1.see t.1, T2.see t.2) in all };

    ghost outcome = { sequence_outcome (λ checks. parts3_outcome (from_source T0.asks T0.outcome) (from_source T1.asks T1.outcome) (from_source T2.asks T2.outcome) checks 0) };

    ghost is_told = { told_tuple3 T0.see T1.see T2.see T0.asks T1.asks T2.asks T0.reads T1.reads T2.reads T0.outcome T1.outcome T2.outcome T0.is_told T1.is_told T2.is_told };

    ghost is_quiet = { (T0.is_quiet, (T1.is_quiet, T2.is_quiet)) };

    ghost is_placed = { ((T0.is_placed, T0.is_quiet), ((T1.is_placed, T1.is_quiet), (T2.is_placed, T2.is_quiet))) };
}

impl<T0: Told, T1: Told, T2: Told, T3: Told> Told for (T0, T1, T2, T3) {
    ghost Seen = { T0.Seen × T1.Seen × T2.Seen × T3.Seen };

    ghost see = { λ t. let all : T0.Seen × T1.Seen × T2.Seen × T3.Seen = (T0.see t.0, T1.see t.1, T2.see t.2, T3.see t.3) in all };

    ghost outcome = { sequence_outcome (λ checks. parts4_outcome (from_source T0.asks T0.outcome) (from_source T1.asks T1.outcome) (from_source T2.asks T2.outcome) (from_source T3.asks T3.outcome) checks 0) };

    ghost is_told = { told_tuple4 T0.see T1.see T2.see T3.see T0.asks T1.asks T2.asks T3.asks T0.reads T1.reads T2.reads T3.reads T0.outcome T1.outcome T2.outcome T3.outcome T0.is_told T1.is_told T2.is_told T3.is_told };

    ghost is_quiet = { (T0.is_quiet, (T1.is_quiet, (T2.is_quiet, T3.is_quiet))) };

    ghost is_placed = { ((T0.is_placed, T0.is_quiet), ((T1.is_placed, T1.is_quiet), ((T2.is_placed, T2.is_quiet), (T3.is_placed, T3.is_quiet)))) };
}

/// Reads a value of a type from a deserializer: what is answered is the one outcome of what is
/// offered, with its path.
pub fn deserialize_told<T: Told, D: Deserializer>(
    alloc: Global,
    d: D,
    track: &mut Track,
) -> Result<T, D::Error>
    ensures gives { Gives D.Error.fault D.tracks T.see result (T.outcome (offer_of (D.source d) T.asks)) track.old track.new }
    ensures keeps { Keeps D.Error.fault (Unit {0}) D.tracks result track.old track.new }
{
    deserialize::<T, D>(alloc, d, track)
}
