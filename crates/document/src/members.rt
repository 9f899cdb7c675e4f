//! The members of a JSON object.
ghost use Rattle.std.specs.Prelude.{◌≡◌, option_map, string_bytes};
ghost use Rattle.serde_json.specs.View.{view, members_view};
ghost use Rattle.document.specs.Words.{sole};

use serde_json::{Map, Value};

/// The name and the value of an object's only member.
pub fn sole_member(members: &Map<String, Value>) -> Option<(&String, &Value)>
    ensures { option_map (λ m. (string_bytes m.0.now, view m.1.now)) result ≡ sole (members_view members.now.entries) }
{
    if members.len() == 1 {
        members.first_key_value()
    } else {
        None
    }
}

/// The same, taken out of the object.
pub fn take_sole_member(members: Map<String, Value>) -> Option<(String, Value)>
    ensures { option_map (λ m. (string_bytes m.0, view m.1)) result ≡ sole (members_view members.entries) }
{
    let mut members = members;
    if members.len() == 1 {
        members.pop_first()
    } else {
        None
    }
}
