//! The reader of trees.
ghost use Rattle.std.specs.Prelude.{◌≡◌, ◌++◌, ◌∷◌, [], true, Some, None, IsSome, OnOk};
ghost use Rattle.data_core.specs.Ask.{any};
ghost use Rattle.data_core.specs.Source.{Source, offer_of};
ghost use Rattle.data_core.specs.Took.{Took};
ghost use Rattle.data_core.specs.Table.{Catches, KeepsText, offer_text, value_taken, entry_segment, segment_of_key};
ghost use Rattle.data_core.specs.Show.{shown_offer, scalar_view, Begins};
ghost use Rattle.data_core.specs.Order.{node_order};
ghost use Rattle.data_core.specs.Outcome.{under, Gives};
ghost use Rattle.data_core.specs.Reads.{IsOutcome};
ghost use Rattle.data_core.specs.Tracking.{Keeps, Refusal, clear};
ghost use Rattle.data_core.specs.declared.path.Segment.{Segment};
ghost use Rattle.data_std.specs.Ignored.{at_key};
ghost use Rattle.sorted_pairs.specs.Pairs.{put};
ghost use Rattle.serde_value.specs.Captured.{captured, captured_offer, captured_scalar, captured_all, captured_pair, captured_table};
ghost use Rattle.serde_value.specs.View.{node_view, pair_view};

use crate::value::{Held, Items, Value, ValueMap};
use data_core::{
    BytesLike, DeError, DeserializeSeed, Deserializer, Hint, Scalar, Shown, TextLike, Track,
    refused,
};
use data_std::Deserialize;
use std::alloc::{AllocError, Global};

/// The reader that captures what it is shown as a tree: serde_value's `ValueVisitor`. An integer of
/// 128 bits is refused. It recurses as deep as what it is shown.
#[derive(Drop)]
pub struct ValueVisitor;

impl DeserializeSeed for ValueVisitor {
    type Value = Value;

    ghost use Rattle.std.specs.Prelude.{refl};
    ghost use Rattle.data_core.specs.Reads.{only_refusal};

    ghost asks = { λ _. any };

    ghost reads = { λ _ offer outcome. IsOutcome node_view (captured_offer offer) outcome };

    ghost quiet = { Unit {0} };

    ghost placed = { Unit {0} };

    ghost leaves = { λ _ _ now. now ≡ clear };

    fn hint(&self) -> Hint<'_> {
        Hint::Any
    }

    fn visit<D: Deserializer>(
        self,
        alloc: Global,
        shown: Shown<D>,
        track: &mut Track,
    ) -> Result<Value, D::Error> {
        take_shown(alloc, shown, track)
    }

    ghost passes_refusals = { λ _ f. (refl, only_refusal node_view f) };
}

impl Deserialize for Value {
    type Seed = ValueVisitor;

    ghost asks = { any };

    ghost reads = { λ offer outcome. IsOutcome node_view (captured_offer offer) outcome };

    ghost leaves = { λ _ now. now ≡ clear };

    fn seed(_alloc: Global) -> Result<ValueVisitor, AllocError> {
        Ok(ValueVisitor)
    }
}

// The tree of what a deserializer stands for.
#[cycle(take)]
fn take<D: Deserializer>(alloc: Global, d: D, track: &mut Track) -> Result<Value, D::Error>
    ensures value { Gives D.Error.fault D.tracks node_view result (captured (D.source d)) track.old track.new }
    ensures keeps { Keeps D.Error.fault (Unit {0}) D.tracks result track.old track.new }
{
    let shown = d.show(Hint::Any)?;
    take_shown(alloc, shown, track)
}

// The tree of what is shown.
#[cycle(take)]
fn take_shown<D: Deserializer>(
    alloc: Global,
    shown: Shown<D>,
    track: &mut Track,
) -> Result<Value, D::Error>
    requires { Begins D.sequence D.table D.key_text D.name_text shown }
    ensures value { Gives D.Error.fault D.tracks node_view result
        (captured_offer (shown_offer D.Text.text D.Bytes.bytes D.source D.sequence D.table D.choice shown)) track.old track.new }
    ensures keeps { Keeps D.Error.fault (Unit {0}) D.tracks result track.old track.new }
{
    match shown {
        Shown::Scalar(scalar) => take_scalar::<D>(alloc, scalar),
        Shown::Some(d) => Ok(Value::Option(Some(take_held(alloc, d, track)?))),
        Shown::NewtypeStruct(d) => Ok(Value::Newtype(take_held(alloc, d, track)?)),
        Shown::Seq(seq) => Ok(Value::Seq(take_items::<D>(alloc, seq, track)?)),
        Shown::Map(map) => Ok(Value::Map(take_map::<D>(alloc, map, track)?)),
        Shown::Enum(name, variant) => {
            Err(refused::<D>(alloc, Shown::Enum(name, variant), "any value"))
        }
    }
}

// The tree of a scalar.
fn take_scalar<D: Deserializer>(
    alloc: Global,
    scalar: Scalar<D::Text, D::Bytes>,
) -> Result<Value, D::Error>
    ensures { (held : Refusal) → Gives D.Error.fault D.tracks node_view result
        (captured_scalar (scalar_view D.Text.text D.Bytes.bytes scalar)) held held }
{
    match scalar {
        Scalar::Bool(b) => Ok(Value::Bool(b)),
        Scalar::I8(n) => Ok(Value::I8(n)),
        Scalar::I16(n) => Ok(Value::I16(n)),
        Scalar::I32(n) => Ok(Value::I32(n)),
        Scalar::I64(n) => Ok(Value::I64(n)),
        Scalar::U8(n) => Ok(Value::U8(n)),
        Scalar::U16(n) => Ok(Value::U16(n)),
        Scalar::U32(n) => Ok(Value::U32(n)),
        Scalar::U64(n) => Ok(Value::U64(n)),
        Scalar::I128(n) => Err(refused::<D>(alloc, Shown::Scalar(Scalar::I128(n)), "any value")),
        Scalar::U128(n) => Err(refused::<D>(alloc, Shown::Scalar(Scalar::U128(n)), "any value")),
        Scalar::Char(c) => Ok(Value::Char(c)),
        Scalar::Text(text) => match text.into_string(alloc) {
            Ok(text) => Ok(Value::String(text)),
            Err(_) => Err(D::Error::memory()),
        },
        Scalar::Bytes(bytes) => match bytes.into_vec(alloc) {
            Ok(bytes) => Ok(Value::Bytes(bytes)),
            Err(_) => Err(D::Error::memory()),
        },
        Scalar::None => Ok(Value::Option(None)),
        Scalar::Unit => Ok(Value::Unit),
    }
}

// The tree of an inside, in a box.
#[cycle(take)]
fn take_held<D: Deserializer>(alloc: Global, d: D, track: &mut Track) -> Result<Held, D::Error>
    ensures value { Gives D.Error.fault D.tracks (λ h. h) result (captured (D.source d)) track.old track.new }
    ensures keeps { Keeps D.Error.fault (Unit {0}) D.tracks result track.old track.new }
{
    let value = take(alloc, d, track)?;
    match Box::new(alloc, value) {
        Ok(inner) => Ok(Held::from_box(inner)),
        Err(_) => Err(D::Error::memory()),
    }
}

// The trees of the elements that are left.
#[cycle(take)]
#[tactic(auto, using(crate::proofs::Captures::shallow))]
fn take_items<D: Deserializer>(
    alloc: Global,
    seq: D::Seq,
    track: &mut Track,
) -> Result<Items, D::Error>
    ensures value { Gives D.Error.fault D.tracks (λ ns. ns) result
        (captured_all (D.sequence seq).taken (D.sequence seq).left) track.old track.new }
    ensures keeps { Keeps D.Error.fault (Unit {0}) D.tracks result track.old track.new }
{
    let mut seq = seq;
    let mut items = Vec::new(alloc);
    'elements: while let Some(element) = D::next_element(&mut seq)? {
        let before = track.holds();
        let item = take(alloc, element, track);
        D::leave_element(&mut seq, before, item.is_err(), track)?;
        if push_item(&mut items, item?).is_err() {
            return Err(D::Error::memory());
        }
    }
    Ok(Items::from_vec(items))
}

fn push_item(items: &mut Vec<Value>, item: Value) -> Result<(), AllocError>
    ensures { OnOk result (items.new.items ≡ items.old.items ++ item ∷ []) }
{
    match items.push(item) {
        Ok(()) => Ok(()),
        Err(failed) => {
            drop(failed);
            Err(AllocError)
        }
    }
}

// Puts a pair, and drops what was there.
fn put_pair(pairs: &mut ValueMap, key: Value, value: Value) -> Result<(), AllocError>
    ensures { OnOk result (pairs.new ≡ put node_order (node_view key) (node_view value) pairs.old) }
{
    match pairs.insert(key, value) {
        Ok(old) => {
            drop(old);
            Ok(())
        }
        Err(unplaced) => {
            drop(unplaced);
            Err(AllocError)
        }
    }
}

// The entries that are left, as a map.
#[cycle(take)]
#[tactic(auto, using(crate::proofs::Captures::shallow))]
fn take_map<D: Deserializer>(
    alloc: Global,
    map: D::Map,
    track: &mut Track,
) -> Result<ValueMap, D::Error>
    ensures value { Gives D.Error.fault D.tracks (λ ps. ps) result (captured_table (D.table map).left) track.old track.new }
    ensures keeps { Keeps D.Error.fault (Unit {0}) D.tracks result track.old track.new }
{
    let mut map = map;
    let mut pairs = ValueMap::new(alloc);
    'entries: while let Some(key) = D::next_key(&mut map)? {
        let (key, value) = take_entry(alloc, &mut map, key, track)?;
        if put_pair(&mut pairs, key, value).is_err() {
            return Err(D::Error::memory());
        }
    }
    Ok(pairs)
}

// The trees of the key that was taken last and of the value that waits.
#[cycle(take)]
fn take_entry<D: Deserializer>(
    alloc: Global,
    map: &mut D::Map,
    key: D,
    track: &mut Track,
) -> Result<(Value, Value), D::Error>
    requires { IsSome (D.table map.old).waiting }
    ensures value { (v : Source) → (D.table map.old).waiting ≡ Some v → Gives D.Error.fault D.tracks pair_view result
        (captured_pair (segment_of_key any (D.source key)) (captured (D.source key)) (captured v)) track.old track.new }
    ensures keeps { Keeps D.Error.fault (Unit {0}) D.tracks result track.old track.new }
    ensures took { OnOk result (D.table map.new ≡ value_taken (D.table map.old)) }
{
    let key = take_key(alloc, map, key, track)?;
    let value = take_value::<D>(alloc, map, track)?;
    Ok((key, value))
}

// The tree of the key that was taken last.
#[cycle(take)]
fn take_key<D: Deserializer>(
    alloc: Global,
    map: &mut D::Map,
    key: D,
    track: &mut Track,
) -> Result<Value, D::Error>
    ensures value { Gives D.Error.fault D.tracks node_view result
        (at_key (segment_of_key any (D.source key)) (captured (D.source key))) track.old track.new }
    ensures keeps { Keeps D.Error.fault (Unit {0}) D.tracks result track.old track.new }
    ensures caught { D.tracks ≡ true → KeepsText D.Error.fault result (offer_text (offer_of (D.source key) any))
        (D.key_text map.new) }
    ensures table { D.table map.new ≡ D.table map.old }
{
    let before = track.holds();
    let value = visit_key(alloc, map, key, track);
    D::leave_key(map, before, value.is_err(), track)?;
    value
}

// The tree of what the key shows.
#[cycle(take)]
fn visit_key<D: Deserializer>(
    alloc: Global,
    map: &mut D::Map,
    key: D,
    track: &mut Track,
) -> Result<Value, D::Error>
    ensures value { Gives D.Error.fault D.tracks node_view result (captured (D.source key)) track.old track.new }
    ensures keeps { Keeps D.Error.fault (Unit {0}) D.tracks result track.old track.new }
    ensures caught { D.tracks ≡ true → Catches D.Error.fault result (offer_text (offer_of (D.source key) any))
        (D.key_text map.new) }
    ensures table { D.table map.new ≡ D.table map.old }
{
    let shown = D::show_key(map, key, Hint::Any)?;
    take_shown(alloc, shown, track)
}

// The tree of the value that waits.
#[cycle(take)]
fn take_value<D: Deserializer>(
    alloc: Global,
    map: &mut D::Map,
    track: &mut Track,
) -> Result<Value, D::Error>
    requires { IsSome (D.table map.old).waiting }
    ensures value { (segment : Segment) → (D.tracks ≡ true → segment ≡ entry_segment (D.key_text map.old))
        → (v : Source) → (D.table map.old).waiting ≡ Some v → Gives D.Error.fault D.tracks node_view result
        (under segment (captured v)) track.old track.new }
    ensures keeps { Keeps D.Error.fault (Unit {0}) D.tracks result track.old track.new }
    ensures took { Took D.Error.fault result (D.table map.old) (value_taken (D.table map.old)) (D.table map.new) }
{
    let value = D::next_value(map)?;
    let before = track.holds();
    let value = take(alloc, value, track);
    D::leave_value(map, before, value.is_err(), track)?;
    value
}
