//! Copies of trees.
ghost use Rattle.std.specs.Prelude.{◌≡◌, IfOk};
ghost use Rattle.serde_value.specs.View.{node_view};

use crate::value::{Held, Items, Value, ValueMap};
use std::alloc::{AllocError, Global};

impl Value {
    /// A copy of the tree, equal to it: serde_value's `Clone`. It recurses as deep as the tree.
    pub fn try_clone(&self, alloc: Global) -> Result<Value, AllocError>
        ensures { IfOk result (λ v. node_view v ≡ node_view self.now) }
    {
        copy(self, alloc)
    }
}

impl Items {
    /// A copy of the trees, equal to them. It recurses as deep as they are.
    pub fn try_clone(&self, alloc: Global) -> Result<Items, AllocError>
        ensures { IfOk result (λ copies. copies ≡ self.now) }
    {
        copy_items(self, alloc)
    }
}

impl ValueMap {
    /// A copy of the map, equal to it. It recurses as deep as its trees.
    pub fn try_clone(&self, alloc: Global) -> Result<ValueMap, AllocError>
        ensures { IfOk result (λ copies. copies ≡ self.now) }
    {
        copy_map(self, alloc)
    }
}

#[cycle(copy)]
fn copy(value: &Value, alloc: Global) -> Result<Value, AllocError>
    ensures { IfOk result (λ v. node_view v ≡ node_view value.now) }
{
    match value {
        Value::Bool(b) => Ok(Value::Bool(*b)),
        Value::U8(n) => Ok(Value::U8(*n)),
        Value::U16(n) => Ok(Value::U16(*n)),
        Value::U32(n) => Ok(Value::U32(*n)),
        Value::U64(n) => Ok(Value::U64(*n)),
        Value::I8(n) => Ok(Value::I8(*n)),
        Value::I16(n) => Ok(Value::I16(*n)),
        Value::I32(n) => Ok(Value::I32(*n)),
        Value::I64(n) => Ok(Value::I64(*n)),
        Value::Char(c) => Ok(Value::Char(*c)),
        Value::String(text) => Ok(Value::String(text.clone()?)),
        Value::Unit => Ok(Value::Unit),
        Value::Option(held) => match held {
            None => Ok(Value::Option(None)),
            Some(held) => {
                let held = copy(&held.inner, alloc)?;
                Ok(Value::Option(Some(Held::from_box(Box::new(alloc, held)?))))
            }
        },
        Value::Newtype(held) => {
            let held = copy(&held.inner, alloc)?;
            Ok(Value::Newtype(Held::from_box(Box::new(alloc, held)?)))
        }
        Value::Seq(items) => Ok(Value::Seq(copy_items(items, alloc)?)),
        Value::Map(map) => Ok(Value::Map(copy_map(map, alloc)?)),
        Value::Bytes(bytes) => Ok(Value::Bytes(Vec::from_slice(alloc, bytes)?)),
    }
}

#[cycle(copy)]
fn copy_items(items: &Items, alloc: Global) -> Result<Items, AllocError>
    ensures { IfOk result (λ copies. copies ≡ items.now) }
{
    let mut copies = Vec::with_capacity(alloc, items.items.len())?;
    for item in &items.items {
        copies.push(copy(item, alloc)?)?;
    }
    Ok(Items { items: copies })
}

#[cycle(copy)]
fn copy_map(map: &ValueMap, alloc: Global) -> Result<ValueMap, AllocError>
    ensures { IfOk result (λ copies. copies ≡ map.now) }
{
    let mut copies = Vec::with_capacity(alloc, map.pairs.len())?;
    for (key, item) in &map.pairs {
        let key = copy(key, alloc)?;
        let item = copy(item, alloc)?;
        copies.push((key, item))?;
    }
    Ok(ValueMap { pairs: copies })
}
