//! Names beside what they name: the fields of a struct, the variants of an enum.
ghost use Rattle.std.specs.Prelude.{◌≡◌, ◌++◌, ◌∷◌, [], take, OnOk, IfErr};
ghost use Rattle.shape.specs.Names.{place_in};

use data_core::{Names, Text};

/// Adds a name and what it names at the end. It fails for want of memory alone: both then come back,
/// and the names and items are as before.
pub fn push_both<T: Drop>(
    names: &mut Names,
    items: &mut Vec<T>,
    name: Text,
    item: T,
) -> Result<(), (Text, T)>
    ensures names { OnOk result (names.new ≡ names.old ++ name ∷ []) }
    ensures items { OnOk result (items.new.items ≡ items.old.items ++ item ∷ []) }
    ensures back { IfErr result (λ back. (back.0 ≡ name) × (back.1 ≡ item)) }
    ensures unchanged { IfErr result (λ back. (names.new ≡ names.old) × (items.new.items ≡ items.old.items)) }
{
    let last = items.len();
    if let Err(failed) = items.push(item) {
        return Err((name, failed.value));
    }
    match names.push(name) {
        Ok(()) => Ok(()),
        Err(name) => Err((name, items.remove(last))),
    }
}

/// The first place of a name among the first `count` of them.
pub fn place_among(names: &Names, count: usize, name: &str) -> Option<usize>
    ensures { result ≡ place_in name.now (take count names.now) }
{
    match names.find(name) {
        Some(place) if place < count => Some(place),
        _ => None,
    }
}
