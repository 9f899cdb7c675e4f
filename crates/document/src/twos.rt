//! Two values in an array.
ghost use Rattle.std.specs.Prelude.{◌≡◌, option_map};
ghost use Rattle.serde_json.specs.Data.{array};
ghost use Rattle.serde_json.specs.View.{view, items_view};
ghost use Rattle.document.specs.Words.{two_in};

use serde_json::Value as Json;

/// The values in an array of two.
pub fn two(json: &Json) -> Option<(&Json, &Json)>
    ensures { option_map (λ p. (view p.0.now, view p.1.now)) result ≡ two_in (view json.now) }
{
    match json {
        Json::Array(items) => two_of(items),
        _ => None,
    }
}

#[tactic(auto, using(crate::proofs::TwoValues::twos))]
fn two_of(items: &[Json]) -> Option<(&Json, &Json)>
    ensures { option_map (λ p. (view p.0.now, view p.1.now)) result ≡ two_in (array (items_view items.now)) }
{
    if items.len() != 2 {
        return None;
    }
    Some((&items[0], &items[1]))
}

/// The same, taken out of the array.
pub fn take_two(json: Json) -> Option<(Json, Json)>
    ensures { option_map (λ p. (view p.0, view p.1)) result ≡ two_in (view json) }
{
    match json {
        Json::Array(items) => take_two_of(items),
        _ => None,
    }
}

#[tactic(auto, using(crate::proofs::TwoValues::twos))]
fn take_two_of(items: Vec<Json>) -> Option<(Json, Json)>
    ensures { option_map (λ p. (view p.0, view p.1)) result ≡ two_in (array (items_view items.items)) }
{
    if items.len() != 2 {
        return None;
    }
    let mut items = items.into_iter();
    let first = items.next()?;
    let second = items.next()?;
    Some((first, second))
}
