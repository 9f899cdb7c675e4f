//! The words of a document that name trees.
ghost use Rattle.std.specs.Prelude.{◌≡◌, [], map, IfOk, option_map};
ghost use Rattle.serde_json.specs.View.{view, items_view};
ghost use Rattle.data_core.specs.Node as node;
ghost use Rattle.data_core.specs.Node.{nodes_of, pairs_of};
ghost use Rattle.data_core.specs.Order.{node_order};
ghost use Rattle.sorted_pairs.specs.Pairs.{put_all};
ghost use Rattle.serde_value.specs.View.{node_view, pair_view};
ghost use Rattle.document.specs.Words.{word_tree as tree_named, tagged_tree as tree_under, tree_of, trees_in, trees_from, entries_in, entries_from, entry_in};

use crate::members::take_sole_member;
use crate::scalar_words::tagged_scalar;
use crate::twos::take_two;
use serde_json::Value as Json;
use serde_value::{Held, Items, Value, ValueMap};
use std::alloc::{AllocError, Global};

/// The tree that a JSON value is the word of.
#[cycle(tree)]
#[tactic(auto, using(crate::proofs::SoleMember::soles))]
pub fn tree(alloc: Global, json: Json) -> Result<Option<Value>, AllocError>
    ensures { IfOk result (λ found. option_map node_view found ≡ tree_of (view json)) }
{
    match json {
        Json::String(word) => Ok(word_tree(word.as_str())),
        Json::Object(members) => match take_sole_member(members) {
            Some((tag, inside)) => tagged_tree(alloc, tag.as_str(), inside),
            None => Ok(None),
        },
        _ => Ok(None),
    }
}

fn word_tree(word: &str) -> Option<Value>
    ensures { option_map node_view result ≡ tree_named word.now }
{
    match word {
        "Unit" => Some(Value::Unit),
        "None" => Some(Value::Option(None)),
        _ => None,
    }
}

#[cycle(tree)]
fn tagged_tree(alloc: Global, tag: &str, inside: Json) -> Result<Option<Value>, AllocError>
    ensures { IfOk result (λ found. option_map node_view found
        ≡ tree_under tag.now (view inside) (tree_of (view inside)) (trees_in (view inside)) (entries_in (view inside))) }
{
    match tag {
        "Some" => match held(alloc, inside)? {
            Some(inside) => Ok(Some(Value::Option(Some(inside)))),
            None => Ok(None),
        },
        "Newtype" => match held(alloc, inside)? {
            Some(inside) => Ok(Some(Value::Newtype(inside))),
            None => Ok(None),
        },
        "Seq" => seq(alloc, inside),
        "Map" => map(alloc, inside),
        _ => tagged_scalar(alloc, tag, inside),
    }
}

// A tree in a box.
#[cycle(tree)]
fn held(alloc: Global, json: Json) -> Result<Option<Held>, AllocError>
    ensures { IfOk result (λ found. found ≡ tree_of (view json)) }
{
    match tree(alloc, json)? {
        Some(inside) => Ok(Some(Held::from_box(Box::new(alloc, inside)?))),
        None => Ok(None),
    }
}

#[cycle(tree)]
fn seq(alloc: Global, json: Json) -> Result<Option<Value>, AllocError>
    ensures { IfOk result (λ found. option_map node_view found
        ≡ option_map (λ ts. node.seq (nodes_of ts)) (trees_in (view json))) }
{
    let Json::Array(items) = json else {
        return Ok(None);
    };
    match trees(alloc, items)? {
        Some(items) => Ok(Some(Value::Seq(Items::from_vec(items)))),
        None => Ok(None),
    }
}

#[cycle(tree)]
fn trees(alloc: Global, items: Vec<Json>) -> Result<Option<Vec<Value>>, AllocError>
    ensures { IfOk result (λ found. option_map (λ v. map node_view v.items) found ≡ trees_from (items_view items.items)) }
{
    let mut trees = Vec::with_capacity(alloc, items.len())?;
    for item in items {
        let Some(inside) = tree(alloc, item)? else {
            return Ok(None);
        };
        trees.push(inside)?;
    }
    Ok(Some(trees))
}

#[cycle(tree)]
fn map(alloc: Global, json: Json) -> Result<Option<Value>, AllocError>
    ensures { IfOk result (λ found. option_map node_view found
        ≡ option_map (λ ps. node.map (pairs_of (put_all node_order [] ps))) (entries_in (view json))) }
{
    let Json::Array(items) = json else {
        return Ok(None);
    };
    match entries(alloc, items)? {
        Some(entries) => Ok(Some(Value::Map(entries))),
        None => Ok(None),
    }
}

// Pairs, put one after another: a later equal key replaces the value.
#[cycle(tree)]
fn entries(alloc: Global, items: Vec<Json>) -> Result<Option<ValueMap>, AllocError>
    ensures { IfOk result (λ found. found ≡ option_map (put_all node_order []) (entries_from (items_view items.items))) }
{
    let mut entries = ValueMap::new(alloc);
    for item in items {
        let Some((key, value)) = entry(alloc, item)? else {
            return Ok(None);
        };
        if entries.insert(key, value).is_err() {
            return Err(AllocError);
        }
    }
    Ok(Some(entries))
}

// A key and its value, in an array of the two.
#[cycle(tree)]
#[tactic(auto, using(crate::proofs::TwoValues::trees))]
fn entry(alloc: Global, json: Json) -> Result<Option<(Value, Value)>, AllocError>
    ensures { IfOk result (λ found. option_map pair_view found ≡ entry_in (view json)) }
{
    let Some((key, value)) = take_two(json) else {
        return Ok(None);
    };
    let Some(key) = tree(alloc, key)? else {
        return Ok(None);
    };
    let Some(value) = tree(alloc, value)? else {
        return Ok(None);
    };
    Ok(Some((key, value)))
}
