//! The parsing of a document.
ghost use Rattle.std.specs.Prelude.{◌≡◌, IfOk, option_map, option_and_then, codes};
ghost use Rattle.serde_json.specs.Find.{get};
ghost use Rattle.serde_json.specs.View.{view, members_view};
ghost use Rattle.shape.specs.View.{shape_view};
ghost use Rattle.document.specs.Input.{tree, input_view};
ghost use Rattle.document.specs.Words.{shape_of, meant, tree_of};
ghost use Rattle.document.specs.Document.{document_view, document_in, document, is_known as is_known_name, all_known, has_known, version_of as version_held, is_tree as is_tree_held, is_framed as has_frame};

use crate::input::Input;
use crate::version::Version;
use crate::{shape_words, tree_words};
use serde_json::{Map, Value as Json};
use shape::{Shape, upgrade};
use std::alloc::{AllocError, Global};

/// A shape and what is read under it.
#[derive(Drop)]
pub struct Document {
    pub shape: Shape,
    pub input: Input,
}

/// The document that the bytes are, if they are one.
pub fn parse(alloc: Global, bytes: &[u8]) -> Result<Option<Document>, AllocError>
    ensures { IfOk result (λ found. option_map document_view found ≡ document bytes.now) }
{
    match Json::from_slice(alloc, bytes) {
        Ok(json) => parse_json(alloc, json),
        Err(error) => {
            if error.is_memory() {
                Err(AllocError)
            } else {
                Ok(None)
            }
        }
    }
}

fn parse_json(alloc: Global, json: Json) -> Result<Option<Document>, AllocError>
    ensures { IfOk result (λ found. option_map document_view found ≡ document_in (view json)) }
{
    if !is_framed(&json) {
        return Ok(None);
    }
    let Some(version) = version(json.get("v")) else {
        return Ok(None);
    };
    let Some(shape) = meant_shape(alloc, version, json.get("shape"))? else {
        return Ok(None);
    };
    let Some(input) = input(alloc, json)? else {
        return Ok(None);
    };
    Ok(Some(Document { shape, input }))
}

// The shape that is meant in a document of this version.
fn meant_shape(
    alloc: Global,
    version: Version,
    json: Option<&Json>,
) -> Result<Option<Shape>, AllocError>
    ensures { IfOk result (λ found. option_map shape_view found
        ≡ option_map (meant version) (option_and_then (shape_of version) (option_map (λ v. view v.now) json.entry))) }
{
    let Some(json) = json else {
        return Ok(None);
    };
    let Some(shape) = shape_words::shape(alloc, version, json)? else {
        return Ok(None);
    };
    match version {
        Version::First => Ok(Some(upgrade(shape))),
        Version::Second => Ok(Some(shape)),
    }
}

// The members that are known by name, and the kind of the input.
fn is_framed(json: &Json) -> bool
    ensures { result ≡ has_frame (view json.now) }
{
    has_known_members(json) && is_tree(json.get("kind"))
}

fn has_known_members(json: &Json) -> bool
    ensures { result ≡ has_known (view json.now) }
{
    match json {
        Json::Object(members) => are_known(members),
        _ => false,
    }
}

fn are_known(members: &Map<String, Json>) -> bool
    ensures { result ≡ all_known (members_view members.now.entries) }
{
    for (name, _) in members.iter() {
        if !is_known(name.as_str()) {
            return false;
        }
    }
    true
}

fn is_known(name: &str) -> bool
    ensures { result ≡ is_known_name name.now }
{
    matches!(name, "shape" | "kind" | "input" | "v")
}

// The version that is given, and the first where none is.
fn version(json: Option<&Json>) -> Option<Version>
    ensures { result ≡ version_held (option_map (λ v. view v.now) json.entry) }
{
    match json {
        None => Some(Version::First),
        Some(Json::Number(number)) => match number.as_u64() {
            Some(1) => Some(Version::First),
            Some(2) => Some(Version::Second),
            _ => None,
        },
        Some(_) => None,
    }
}

fn is_tree(json: Option<&Json>) -> bool
    ensures { result ≡ is_tree_held (option_map (λ v. view v.now) json.entry) }
{
    match json {
        Some(Json::String(word)) => word.as_str() == "tree",
        _ => false,
    }
}

// The tree of the member `input`.
fn input(alloc: Global, json: Json) -> Result<Option<Input>, AllocError>
    ensures { IfOk result (λ found. option_map input_view found
        ≡ option_and_then (λ t. option_map tree (tree_of t)) (get (codes "input") (view json))) }
{
    let Some(input) = take_member(json, "input") else {
        return Ok(None);
    };
    match tree_words::tree(alloc, input)? {
        Some(value) => Ok(Some(Input::Tree(value))),
        None => Ok(None),
    }
}

// A member, taken out of its object.
fn take_member(json: Json, name: &str) -> Option<Json>
    ensures { option_map view result ≡ get name.now (view json) }
{
    match json {
        Json::Object(members) => {
            let mut members = members;
            members.remove(name)
        }
        _ => None,
    }
}
