//! How paths are printed.
ghost use Rattle.std.specs.Prelude.{◌≡◌, IfOk};
ghost use Rattle.serde_json.specs.Data.{array};
ghost use Rattle.serde_json.specs.View.{view};
ghost use Rattle.answer.specs.Line.{each, printed_segment};

use crate::faults::{about, about_text, alone};
use data_core::{Path, Segment};
use serde_json::Value as Json;
use std::alloc::{AllocError, Global};

// A segment: an array of its kind and what it names.
fn print_segment(alloc: Global, segment: &Segment) -> Result<Json, AllocError>
    ensures { IfOk result (λ json. view json ≡ printed_segment segment.now) }
{
    match segment {
        Segment::Seq { index } => about(alloc, "seq", Json::from(*index)),
        Segment::Map { key } => about_text(alloc, "map", key.as_str()),
        Segment::Enum { variant } => about_text(alloc, "enum", variant.as_str()),
        Segment::Unknown => alone(alloc, "unknown"),
    }
}

/// How a path is printed: an array of its segments.
pub fn print_path(alloc: Global, path: &Path) -> Result<Json, AllocError>
    ensures { IfOk result (λ json. view json ≡ array (each printed_segment path.now)) }
{
    let mut items = Vec::with_capacity(alloc, path.len())?;
    for segment in path.as_slice() {
        items.push(print_segment(alloc, segment)?)?;
    }
    Ok(Json::Array(items))
}
