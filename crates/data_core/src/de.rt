//! Deserializers.
ghost use Rattle.std.specs.Prelude.{ℕ, ◌≡◌, ◌≢◌, ◌-◌, true, IsTrue, OnOk, IfOk, IsSome, Bool, List, Option, None};
ghost use Rattle.data_core.specs.Ask.{ask};
ghost use Rattle.data_core.specs.Source.{Source, Offer, count, count_entries, offer_of, scalar, newtype_struct};
ghost use Rattle.data_core.specs.Source as offer;
ghost use Rattle.data_core.specs.Wanted.{Wanted};
ghost use Rattle.data_core.specs.Wanted as wanted;
ghost use Rattle.data_core.specs.Took.{Took};
ghost use Rattle.data_core.specs.Sequence.{Sequence, Takes, Ends, one_taken, told, surplus};
ghost use Rattle.data_core.specs.Table.{Table, TakesKey, TakesValue, BeginsMap, Catches, offer_text, key_taken, value_taken, caught_after, entry_segment, surplus_entries};
ghost use Rattle.data_core.specs.Choice.{spent, variant_segment};
ghost use Rattle.data_core.specs.Show.{Shows, Begins, Hands, elements_of, entries_of};
ghost use Rattle.data_core.specs.Tracking.{Leaves, LeavesKey, LeavesName, marked};
ghost use Rattle.data_core.specs.declared.path.Segment.TheVariants as segment;

use crate::error::DeError;
use crate::hint::Hint;
use crate::names::Names;
use crate::text::{BytesLike, TextLike};
use crate::track::Track;
use std::alloc::Global;

/// A scalar of serde's data model, without floats. An absent option is one of them.
#[derive(Drop)]
pub enum Scalar<T: Drop, B: Drop> {
    Bool(bool),
    I8(i8),
    I16(i16),
    I32(i32),
    I64(i64),
    I128(i128),
    U8(u8),
    U16(u16),
    U32(u32),
    U64(u64),
    U128(u128),
    Char(char),
    Text(T),
    Bytes(B),
    None,
    Unit,
}

/// A place in some data, from which a reader pulls: serde's `Deserializer`, whose visits are the
/// variants of `Shown`. Its parts are deserializers of the same type, and its calls on what is under
/// way stand for serde's `SeqAccess`, `MapAccess`, `EnumAccess` and `VariantAccess`.
pub trait Deserializer: Drop {
    type Error: DeError;

    type Text: TextLike;

    type Bytes: BytesLike;

    /// The elements of a sequence, under way.
    type Seq: Drop;

    /// The entries of a map, under way.
    type Map: Drop;

    /// A variant of an enum, under way.
    type Variant: Drop;

    // Whether it notes the path of a refusal.
    ghost tracks: { Bool };

    // Whether what is read is in a form for people: serde's `is_human_readable`.
    ghost human_readable: { Bool };

    ghost source: { Self → Source };

    ghost sequence: { Self.Seq → Sequence };

    ghost table: { Self.Map → Table };

    // What is offered for the payload of a variant.
    ghost choice: { Self.Variant → Wanted → Offer };

    // The text that is caught of the key that was taken last, and of a variant's name. Of a
    // deserializer that does not track they tell nothing.
    ghost key_text: { Self.Map → Option (List ℕ) };

    ghost name_text: { Self.Variant → Option (List ℕ) };

    /// Whether the format is one that people read, and a type may show itself as a text in it:
    /// serde's `is_human_readable`.
    fn is_human_readable(&self) -> bool
        ensures { result ≡ human_readable };

    /// What is there, for a reader that hopes for `hint`.
    fn show(self, hint: Hint<'_>) -> Result<Shown<Self>, Self::Error>
        ensures shows { Shows Self.Text.text Self.Bytes.bytes source sequence table choice Self.Error.fault result
            (offer_of (source self) (ask hint.entry)) }
        ensures begins { IfOk result (Begins sequence table key_text name_text) };

    /// The next element, and none where none is left.
    fn next_element(seq: &mut Self::Seq) -> Result<Option<Self>, Self::Error>
        ensures takes { Takes source Self.Error.fault result (sequence seq.old).left (sequence seq.new).left }
        ensures took { Took Self.Error.fault result (sequence seq.old) (one_taken (sequence seq.old)) (sequence seq.new) };

    /// The way out of the read of the element that was taken last. `before` says whether the track held
    /// a refusal before that read, and `failed` whether the read failed.
    fn leave_element(
        seq: &mut Self::Seq,
        before: bool,
        failed: bool,
        track: &mut Track,
    ) -> Result<(), Self::Error>
        ensures path { Leaves Self.Error.fault tracks (segment.Seq ((sequence seq.old).taken - 1)) before failed
            track.old track.new result }
        ensures lost { tracks ≡ true → OnOk result (IsTrue failed → track.new ≢ marked) }
        ensures sequence { sequence seq.new ≡ sequence seq.old };

    /// How many elements were taken. Takes no memory.
    fn elements_taken(seq: &Self::Seq) -> usize
        ensures { result ≡ (sequence seq.now).taken };

    /// How many elements are left, where the sequence tells that. Takes no memory.
    fn elements_left(seq: &Self::Seq) -> Option<usize>
        ensures { result ≡ told (sequence seq.now).tells (count (sequence seq.now).left) };

    /// The end of a reader that may have left elements.
    fn end_seq(alloc: Global, seq: Self::Seq) -> Result<(), Self::Error>
        ensures { Ends Self.Error.fault result
            (surplus (sequence seq).checks (sequence seq).taken (sequence seq).left) };

    /// The key of the next entry, and none where none is left. A value that waits is dropped.
    fn next_key(map: &mut Self::Map) -> Result<Option<Self>, Self::Error>
        ensures takes { TakesKey source Self.Error.fault result (table map.old) (table map.new) }
        ensures took { Took Self.Error.fault result (table map.old) (key_taken (table map.old)) (table map.new) }
        ensures caught { key_text map.new ≡ None };

    /// What the key that was taken last shows, for a reader that hopes for `hint`. A deserializer
    /// that tracks keeps the text of it, and forgets that of an earlier key first.
    fn show_key(map: &mut Self::Map, key: Self, hint: Hint<'_>) -> Result<Shown<Self>, Self::Error>
        ensures shows { Shows Self.Text.text Self.Bytes.bytes source sequence table choice Self.Error.fault result
            (offer_of (source key) (ask hint.entry)) }
        ensures begins { IfOk result (Begins sequence table key_text name_text) }
        ensures caught { tracks ≡ true → Catches Self.Error.fault result
            (offer_text (offer_of (source key) (ask hint.entry))) (key_text map.new) }
        ensures table { table map.new ≡ table map.old };

    /// The way out of the read of the key that was taken last, with `before` and `failed` as in
    /// `leave_element`. Where the read failed, the text of the key goes into the path.
    fn leave_key(
        map: &mut Self::Map,
        before: bool,
        failed: bool,
        track: &mut Track,
    ) -> Result<(), Self::Error>
        ensures path { LeavesKey Self.Error.fault tracks (entry_segment (key_text map.old)) before failed
            track.old track.new result }
        ensures lost { tracks ≡ true → OnOk result (IsTrue failed → track.new ≢ marked) }
        ensures table { table map.new ≡ table map.old }
        ensures caught { tracks ≡ true → key_text map.new ≡ caught_after failed (key_text map.old) };

    /// The value that waits.
    fn next_value(map: &mut Self::Map) -> Result<Self, Self::Error>
        requires { IsSome (table map.old).waiting }
        ensures takes { TakesValue source Self.Error.fault result (table map.old).waiting }
        ensures took { Took Self.Error.fault result (table map.old) (value_taken (table map.old)) (table map.new) }
        ensures caught { key_text map.new ≡ key_text map.old };

    /// The way out of the read of the value that was taken last, with `before` and `failed` as in
    /// `leave_element`. The text of its key goes into the path of a refusal.
    fn leave_value(
        map: &mut Self::Map,
        before: bool,
        failed: bool,
        track: &mut Track,
    ) -> Result<(), Self::Error>
        ensures path { Leaves Self.Error.fault tracks (entry_segment (key_text map.old)) before failed
            track.old track.new result }
        ensures lost { tracks ≡ true → OnOk result (IsTrue failed → track.new ≢ marked) }
        ensures table { table map.new ≡ table map.old }
        ensures caught { key_text map.new ≡ None };

    /// How many entries are left, where the map tells that. Takes no memory.
    fn entries_left(map: &Self::Map) -> Option<usize>
        ensures { result ≡ told (table map.now).tells (count_entries (table map.now).left) };

    /// The end of a reader that may have left entries.
    fn end_map(alloc: Global, map: Self::Map) -> Result<(), Self::Error>
        ensures { Ends Self.Error.fault result
            (surplus_entries (table map).checks (table map).taken (table map).left) };

    /// What the name of a variant shows, for a reader that hopes for `hint`. A deserializer that
    /// tracks keeps the text of it.
    fn show_name(
        variant: &mut Self::Variant,
        name: Self,
        hint: Hint<'_>,
    ) -> Result<Shown<Self>, Self::Error>
        ensures shows { Shows Self.Text.text Self.Bytes.bytes source sequence table choice Self.Error.fault result
            (offer_of (source name) (ask hint.entry)) }
        ensures begins { IfOk result (Begins sequence table key_text name_text) }
        ensures caught { tracks ≡ true → Catches Self.Error.fault result
            (offer_text (offer_of (source name) (ask hint.entry))) (name_text variant.new) }
        ensures choice { choice variant.new ≡ choice variant.old };

    /// The way out of the read of a variant's name, with `before` and `failed` as in `leave_element`.
    /// The refusal of a name is that of the enum itself.
    fn leave_name(
        variant: &mut Self::Variant,
        before: bool,
        failed: bool,
        track: &mut Track,
    ) -> Result<(), Self::Error>
        ensures path { LeavesName Self.Error.fault tracks before failed track.old track.new result }
        ensures lost { tracks ≡ true → OnOk result (IsTrue failed → track.new ≢ marked) }
        ensures choice { choice variant.new ≡ choice variant.old }
        ensures caught { tracks ≡ true → name_text variant.new ≡ name_text variant.old };

    /// The end of a variant that is to have no payload.
    fn unit_variant(alloc: Global, variant: &mut Self::Variant) -> Result<(), Self::Error>
        ensures hands { Hands (λ _. scalar offer.unit) Self.Error.fault result (choice variant.old wanted.unit) }
        ensures taken { choice variant.new ≡ spent }
        ensures caught { name_text variant.new ≡ name_text variant.old };

    /// The inside of a newtype variant.
    fn newtype_variant(alloc: Global, variant: &mut Self::Variant) -> Result<Self, Self::Error>
        ensures hands { Hands (λ d. newtype_struct (source d)) Self.Error.fault result (choice variant.old wanted.newtype) }
        ensures taken { choice variant.new ≡ spent }
        ensures caught { name_text variant.new ≡ name_text variant.old };

    /// The elements of a tuple variant that is to have `len` of them.
    fn tuple_variant(
        alloc: Global,
        variant: &mut Self::Variant,
        len: usize,
    ) -> Result<Self::Seq, Self::Error>
        ensures hands { Hands (λ seq. elements_of (sequence seq)) Self.Error.fault result
            (choice variant.old (wanted.tuple len)) }
        ensures begins { IfOk result (λ seq. (sequence seq).taken ≡ 0) }
        ensures taken { choice variant.new ≡ spent }
        ensures caught { name_text variant.new ≡ name_text variant.old };

    /// The entries of a struct variant that is to have these fields.
    fn struct_variant(
        alloc: Global,
        variant: &mut Self::Variant,
        fields: &Names,
    ) -> Result<Self::Map, Self::Error>
        ensures hands { Hands (λ map. entries_of (table map)) Self.Error.fault result
            (choice variant.old (wanted.struct fields.now)) }
        ensures begins { IfOk result (λ map. BeginsMap (table map) (key_text map)) }
        ensures taken { choice variant.new ≡ spent }
        ensures caught { name_text variant.new ≡ name_text variant.old };

    /// The way out of the read of a variant's payload, with `before` and `failed` as in
    /// `leave_element`. The text of the variant's name goes into the path of a refusal.
    fn leave_payload(
        variant: &mut Self::Variant,
        before: bool,
        failed: bool,
        track: &mut Track,
    ) -> Result<(), Self::Error>
        ensures path { Leaves Self.Error.fault tracks (variant_segment (name_text variant.old)) before failed
            track.old track.new result }
        ensures lost { tracks ≡ true → OnOk result (IsTrue failed → track.new ≢ marked) }
        ensures choice { choice variant.new ≡ choice variant.old }
        ensures caught { name_text variant.new ≡ None };
}

/// What a deserializer shows: the visits of serde's `Visitor`, as one value.
#[derive(Drop)]
pub enum Shown<D: Deserializer> {
    Scalar(Scalar<D::Text, D::Bytes>),
    /// An option that is there, and its inside.
    Some(D),
    /// The inside of a newtype struct.
    NewtypeStruct(D),
    /// The elements of a sequence, of which none was taken yet.
    Seq(D::Seq),
    /// The entries of a map, of which none was taken yet.
    Map(D::Map),
    /// The name of a variant of an enum, and the variant.
    Enum(D, D::Variant),
}
