//! Pairs by rising key: the counted search, and pairs that are put in order.
ghost use Rattle.std.specs.Prelude.{◌≡◌};

use sorted_pairs::{Steps, place_of_key, sort_pairs};
use std::alloc::{AllocError, Global};
use std::marker::Brand;
use std::sync::ledger::{Blank, Ledger};
use std::test::Fail;

// The place of a key among the keys 2, 4 and 6.
fn place_from<L: Ledger>(key: u16, blank: Blank) -> Result<usize, usize>
    requires name { blank.name ≡ L.name }
    requires parts { blank.parts ≡ L.parts }
    requires one { L.parts ≡ 1 }
{
    let mut steps = Steps::<L>::new(blank);
    place_of_key(&[(2, 'b'), (4, 'd'), (6, 'f')], &key, &mut steps)
}

#[test]
fn each_key_is_found_at_its_place(rt: HostRuntime) {
    let places = [
        (1, Err(0)),
        (2, Ok(0)),
        (3, Err(1)),
        (4, Ok(1)),
        (5, Err(2)),
        (6, Ok(2)),
        (7, Err(3)),
    ];
    for (key, wanted) in places {
        assert_eq!(rt; place_from::<Brand>(key, Blank::new(1)), wanted);
    }
}

// Four pairs of two keys, put in order.
fn sorted_from<L: Ledger>(alloc: Global, blank: Blank) -> Result<Vec<(u16, char)>, AllocError>
    requires name { blank.name ≡ L.name }
    requires parts { blank.parts ≡ L.parts }
    requires one { L.parts ≡ 1 }
{
    let mut steps = Steps::<L>::new(blank);
    let mut pairs = vec![in alloc; (4, 'c'), (2, 'a'), (4, 'd'), (2, 'b')]?;
    sort_pairs(&mut pairs, &mut steps)?;
    Ok(pairs)
}

fn sorted(alloc: Global) -> Result<Vec<(u16, char)>, AllocError> {
    sorted_from::<Brand>(alloc, Blank::new(1))
}

#[test]
fn pairs_are_put_in_order(rt: HostRuntime) -> Result<(), Fail> {
    let pairs = sorted(rt.alloc())?;
    assert_eq!(rt; pairs.as_slice(), [(2, 'b'), (4, 'd')].as_slice());
    Ok(())
}
