//! The words of a document that name trees without parts.
ghost use Rattle.std.specs.Prelude.{◌≡◌, ◌≤◌, ◌^◌, ◌-◌, IfOk, IfSome, option_map};
ghost use Rattle.serde_json.specs.View.{view, items_view};
ghost use Rattle.data_core.specs.Node as node;
ghost use Rattle.serde_value.specs.View.{node_view};
ghost use Rattle.document.specs.Words.{unsigned_in as unsigned_held, signed_in as signed_held, boolean_in, character_in, string_in, bytes_from, bytes_in, scalar_under};

use data_core::only_char;
use serde_json::Value as Json;
use serde_value::Value;
use std::alloc::{AllocError, Global};

/// The tree without parts that stands under a tag.
pub fn tagged_scalar(alloc: Global, tag: &str, inside: Json) -> Result<Option<Value>, AllocError>
    ensures { IfOk result (λ found. option_map node_view found ≡ scalar_under tag.now (view inside)) }
{
    match tag {
        "Bool" => Ok(boolean(inside)),
        "U8" => Ok(u8_tree(inside)),
        "U16" => Ok(u16_tree(inside)),
        "U32" => Ok(u32_tree(inside)),
        "U64" => Ok(u64_tree(inside)),
        "I8" => Ok(i8_tree(inside)),
        "I16" => Ok(i16_tree(inside)),
        "I32" => Ok(i32_tree(inside)),
        "I64" => Ok(i64_tree(inside)),
        "Char" => Ok(character(inside)),
        "String" => Ok(string(inside)),
        "Bytes" => bytes(alloc, inside),
        _ => Ok(None),
    }
}

fn boolean(json: Json) -> Option<Value>
    ensures { option_map node_view result ≡ boolean_in (view json) }
{
    match json {
        Json::Bool(b) => Some(Value::Bool(b)),
        _ => None,
    }
}

fn u8_tree(json: Json) -> Option<Value>
    ensures { option_map node_view result ≡ option_map node.u8 (unsigned_held (2 ^ 8 - 1) (view json)) }
{
    let n = unsigned_in(&json, u64::from(u8::MAX))?;
    Some(Value::U8(n as u8))
}

fn u16_tree(json: Json) -> Option<Value>
    ensures { option_map node_view result ≡ option_map node.u16 (unsigned_held (2 ^ 16 - 1) (view json)) }
{
    let n = unsigned_in(&json, u64::from(u16::MAX))?;
    Some(Value::U16(n as u16))
}

fn u32_tree(json: Json) -> Option<Value>
    ensures { option_map node_view result ≡ option_map node.u32 (unsigned_held (2 ^ 32 - 1) (view json)) }
{
    let n = unsigned_in(&json, u64::from(u32::MAX))?;
    Some(Value::U32(n as u32))
}

fn u64_tree(json: Json) -> Option<Value>
    ensures { option_map node_view result ≡ option_map node.u64 (unsigned_held (2 ^ 64 - 1) (view json)) }
{
    let n = unsigned_in(&json, u64::MAX)?;
    Some(Value::U64(n))
}

// A number up to the greatest.
fn unsigned_in(json: &Json, greatest: u64) -> Option<u64>
    ensures number { result ≡ unsigned_held greatest (view json.now) }
    ensures within { IfSome result (λ n. n ≤ greatest) }
{
    match json.as_u64() {
        Some(n) if n <= greatest => Some(n),
        _ => None,
    }
}

fn i8_tree(json: Json) -> Option<Value>
    ensures { option_map node_view result ≡ option_map node.i8 (signed_held (2 ^ 7 - 1) (view json)) }
{
    let n = json.as_i64()?;
    match i8::try_from(n) {
        Ok(n) => Some(Value::I8(n)),
        Err(_) => None,
    }
}

fn i16_tree(json: Json) -> Option<Value>
    ensures { option_map node_view result ≡ option_map node.i16 (signed_held (2 ^ 15 - 1) (view json)) }
{
    let n = json.as_i64()?;
    match i16::try_from(n) {
        Ok(n) => Some(Value::I16(n)),
        Err(_) => None,
    }
}

fn i32_tree(json: Json) -> Option<Value>
    ensures { option_map node_view result ≡ option_map node.i32 (signed_held (2 ^ 31 - 1) (view json)) }
{
    let n = json.as_i64()?;
    match i32::try_from(n) {
        Ok(n) => Some(Value::I32(n)),
        Err(_) => None,
    }
}

fn i64_tree(json: Json) -> Option<Value>
    ensures { option_map node_view result ≡ option_map node.i64 (signed_held (2 ^ 63 - 1) (view json)) }
{
    let n = json.as_i64()?;
    Some(Value::I64(n))
}

fn character(json: Json) -> Option<Value>
    ensures { option_map node_view result ≡ character_in (view json) }
{
    match json {
        Json::String(text) => match only_char(text.as_str()) {
            Some(c) => Some(Value::Char(c)),
            None => None,
        },
        _ => None,
    }
}

fn string(json: Json) -> Option<Value>
    ensures { option_map node_view result ≡ string_in (view json) }
{
    match json {
        Json::String(text) => Some(Value::String(text)),
        _ => None,
    }
}

fn bytes(alloc: Global, json: Json) -> Result<Option<Value>, AllocError>
    ensures { IfOk result (λ found. option_map node_view found ≡ bytes_in (view json)) }
{
    match json {
        Json::Array(items) => match numbers(alloc, &items)? {
            Some(bytes) => Ok(Some(Value::Bytes(bytes))),
            None => Ok(None),
        },
        _ => Ok(None),
    }
}

// Numbers from 0 to 255.
fn numbers(alloc: Global, items: &Vec<Json>) -> Result<Option<Vec<u8>>, AllocError>
    ensures { IfOk result (λ found. option_map (λ v. v.items) found ≡ bytes_from (items_view items.now.items)) }
{
    let mut bytes = Vec::with_capacity(alloc, items.len())?;
    for item in items {
        let Some(n) = unsigned_in(item, u64::from(u8::MAX)) else {
            return Ok(None);
        };
        bytes.push(n as u8)?;
    }
    Ok(Some(bytes))
}
