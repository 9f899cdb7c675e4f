//! A name and what it names.
ghost use Rattle.std.specs.Prelude.{◌≡◌, option_map};
ghost use Rattle.serde_json.specs.Data.{array};
ghost use Rattle.serde_json.specs.View.{view, items_view};
ghost use Rattle.document.specs.Words.{name_in, named_in};

use serde_json::Value as Json;

/// The text of a string.
pub fn name(json: &Json) -> Option<&str>
    ensures { option_map (λ n. n.now) result ≡ name_in (view json.now) }
{
    match json {
        Json::String(name) => Some(name.as_str()),
        _ => None,
    }
}

/// The name and the value in an array of the two.
pub fn named(json: &Json) -> Option<(&str, &Json)>
    ensures { option_map (λ n. (n.0.now, view n.1.now)) result ≡ named_in (view json.now) }
{
    match json {
        Json::Array(items) => named_of(items),
        _ => None,
    }
}

#[tactic(auto, using(crate::proofs::NamePairs::names))]
fn named_of(items: &[Json]) -> Option<(&str, &Json)>
    ensures { option_map (λ n. (n.0.now, view n.1.now)) result ≡ named_in (array (items_view items.now)) }
{
    if items.len() != 2 {
        return None;
    }
    let name = name(&items[0])?;
    Some((name, &items[1]))
}
