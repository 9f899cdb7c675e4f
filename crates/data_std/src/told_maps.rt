//! Maps whose readers have exactly one outcome of each offer.
ghost use Rattle.std.specs.Prelude.{◌≡◌, ℕ, ℤ, Bool, List, ◌-◌, ◌^◌, pos, negsuc, map, refl, string_bytes};
ghost use Rattle.std.specs.Ordering.{int_cmp, bool_cmp, nat_cmp};
ghost use Rattle.std.specs.Cmp.Lexicographic.{slice_cmp};
ghost use Rattle.std.specs.declared.cmp.Ordering.{Ordering};
ghost use Rattle.data_core.specs.Source.{Offer};
ghost use Rattle.data_core.specs.Outcome.{Outcome, IsTold};
ghost use Rattle.scalar_seeds.specs.Scalars.{boolean_of, character_of, integer_of, text_of, wide_of};
ghost use Rattle.data_std.specs.Told.{from_source, told_by};
ghost use Rattle.data_std.specs.ToldMaps.{natural_cmp, pair_seen, map_outcome, told_map};

use crate::told::Told;
use crate::types::Deserialize;
use std::collections::BTreeMap;

/// A type of keys whose reader has exactly one outcome of each offer, as plain data, and whose order
/// is that of this data.
pub trait ToldKey: Deserialize + Ord {
    // What a key is, as plain data.
    ghost Key: { Type 0 };

    ghost key: { Self → Key };

    ghost order: { Key → Key → Ordering };

    // The outcome of an offer.
    ghost key_outcome: { Offer → Outcome Key };

    ghost is_key: { IsTold key key_outcome Self.reads };

    ghost is_order: { (x y : Self) → Self.cmp x y ≡ order (key x) (key y) };

    ghost is_quiet_key: { Self.Seed.quiet };

    ghost is_placed_key: { Self.Seed.placed };
}

impl ToldKey for u8 {
    ghost Key = { ℤ };

    ghost key = { pos };

    ghost order = { natural_cmp };

    ghost key_outcome = { integer_of (pos 0) (pos (2 ^ 8 - 1)) };

    ghost is_key = { told_by pos (integer_of (pos 0) (pos (2 ^ 8 - 1))) };

    ghost is_order = { λ _ _. refl };

    ghost is_quiet_key = { tt };

    ghost is_placed_key = { tt };
}

impl ToldKey for u16 {
    ghost Key = { ℤ };

    ghost key = { pos };

    ghost order = { natural_cmp };

    ghost key_outcome = { integer_of (pos 0) (pos (2 ^ 16 - 1)) };

    ghost is_key = { told_by pos (integer_of (pos 0) (pos (2 ^ 16 - 1))) };

    ghost is_order = { λ _ _. refl };

    ghost is_quiet_key = { tt };

    ghost is_placed_key = { tt };
}

impl ToldKey for u32 {
    ghost Key = { ℤ };

    ghost key = { pos };

    ghost order = { natural_cmp };

    ghost key_outcome = { integer_of (pos 0) (pos (2 ^ 32 - 1)) };

    ghost is_key = { told_by pos (integer_of (pos 0) (pos (2 ^ 32 - 1))) };

    ghost is_order = { λ _ _. refl };

    ghost is_quiet_key = { tt };

    ghost is_placed_key = { tt };
}

impl ToldKey for u64 {
    ghost Key = { ℤ };

    ghost key = { pos };

    ghost order = { natural_cmp };

    ghost key_outcome = { integer_of (pos 0) (pos (2 ^ 64 - 1)) };

    ghost is_key = { told_by pos (integer_of (pos 0) (pos (2 ^ 64 - 1))) };

    ghost is_order = { λ _ _. refl };

    ghost is_quiet_key = { tt };

    ghost is_placed_key = { tt };
}

impl ToldKey for i8 {
    ghost Key = { ℤ };

    ghost key = { λ n. n };

    ghost order = { int_cmp };

    ghost key_outcome = { integer_of (negsuc (2 ^ 7 - 1)) (pos (2 ^ 7 - 1)) };

    ghost is_key = { told_by (λ n. n) (integer_of (negsuc (2 ^ 7 - 1)) (pos (2 ^ 7 - 1))) };

    ghost is_order = { λ _ _. refl };

    ghost is_quiet_key = { tt };

    ghost is_placed_key = { tt };
}

impl ToldKey for i16 {
    ghost Key = { ℤ };

    ghost key = { λ n. n };

    ghost order = { int_cmp };

    ghost key_outcome = { integer_of (negsuc (2 ^ 15 - 1)) (pos (2 ^ 15 - 1)) };

    ghost is_key = { told_by (λ n. n) (integer_of (negsuc (2 ^ 15 - 1)) (pos (2 ^ 15 - 1))) };

    ghost is_order = { λ _ _. refl };

    ghost is_quiet_key = { tt };

    ghost is_placed_key = { tt };
}

impl ToldKey for i32 {
    ghost Key = { ℤ };

    ghost key = { λ n. n };

    ghost order = { int_cmp };

    ghost key_outcome = { integer_of (negsuc (2 ^ 31 - 1)) (pos (2 ^ 31 - 1)) };

    ghost is_key = { told_by (λ n. n) (integer_of (negsuc (2 ^ 31 - 1)) (pos (2 ^ 31 - 1))) };

    ghost is_order = { λ _ _. refl };

    ghost is_quiet_key = { tt };

    ghost is_placed_key = { tt };
}

impl ToldKey for i64 {
    ghost Key = { ℤ };

    ghost key = { λ n. n };

    ghost order = { int_cmp };

    ghost key_outcome = { integer_of (negsuc (2 ^ 63 - 1)) (pos (2 ^ 63 - 1)) };

    ghost is_key = { told_by (λ n. n) (integer_of (negsuc (2 ^ 63 - 1)) (pos (2 ^ 63 - 1))) };

    ghost is_order = { λ _ _. refl };

    ghost is_quiet_key = { tt };

    ghost is_placed_key = { tt };
}

impl ToldKey for u128 {
    ghost Key = { ℤ };

    ghost key = { pos };

    ghost order = { natural_cmp };

    ghost key_outcome = { wide_of (pos 0) (pos (2 ^ 128 - 1)) };

    ghost is_key = { told_by pos (wide_of (pos 0) (pos (2 ^ 128 - 1))) };

    ghost is_order = { λ _ _. refl };

    ghost is_quiet_key = { tt };

    ghost is_placed_key = { tt };
}

impl ToldKey for i128 {
    ghost Key = { ℤ };

    ghost key = { λ n. n };

    ghost order = { int_cmp };

    ghost key_outcome = { wide_of (negsuc (2 ^ 127 - 1)) (pos (2 ^ 127 - 1)) };

    ghost is_key = { told_by (λ n. n) (wide_of (negsuc (2 ^ 127 - 1)) (pos (2 ^ 127 - 1))) };

    ghost is_order = { λ _ _. refl };

    ghost is_quiet_key = { tt };

    ghost is_placed_key = { tt };
}

impl ToldKey for bool {
    ghost Key = { Bool };

    ghost key = { λ b. b };

    ghost order = { bool_cmp };

    ghost key_outcome = { boolean_of };

    ghost is_key = { told_by (λ b. b) boolean_of };

    ghost is_order = { λ _ _. refl };

    ghost is_quiet_key = { tt };

    ghost is_placed_key = { tt };
}

impl ToldKey for char {
    ghost Key = { ℕ };

    ghost key = { λ c. c };

    ghost order = { nat_cmp };

    ghost key_outcome = { character_of };

    ghost is_key = { told_by (λ c. c) character_of };

    ghost is_order = { λ _ _. refl };

    ghost is_quiet_key = { tt };

    ghost is_placed_key = { tt };
}

impl ToldKey for String {
    ghost Key = { List ℕ };

    ghost key = { string_bytes };

    ghost order = { slice_cmp nat_cmp };

    ghost key_outcome = { text_of };

    ghost is_key = { told_by string_bytes text_of };

    ghost is_order = { λ _ _. refl };

    ghost is_quiet_key = { tt };

    ghost is_placed_key = { tt };
}

impl<K: ToldKey, V: Told> Told for BTreeMap<K, V> {
    ghost Seen = { List (K.Key × V.Seen) };

    ghost see = { λ m. map (pair_seen K.key V.see) m.entries };

    ghost outcome = { map_outcome K.order K.asks (from_source K.asks K.key_outcome) (from_source V.asks V.outcome) };

    ghost is_told = { told_map (λ m. m.entries) K.cmp K.order K.key V.see K.is_order K.asks V.asks K.reads V.reads K.key_outcome V.outcome K.is_key V.is_told };

    ghost is_quiet = { (K.is_quiet_key, V.is_quiet) };

    ghost is_placed = { ((K.is_placed_key, V.is_placed), (K.is_quiet_key, V.is_quiet)) };
}
