//! Variants that stand in an item.

use crate::checks::{Text, elements, refusal, says};
use data_core::{Deserializer, Hint, Names, Shown};
use data_items::SeqDeserializer;
use std::test::Fail;

type Texts = SeqDeserializer<Text>;

#[test]
fn a_variant_in_an_element(rt: HostRuntime) -> Result<(), Fail> {
    let alloc = rt.alloc();
    let names = Names::new(alloc);
    let mut elements = elements(alloc, &["on"])?;
    let Ok(Some(d)) = Texts::next_element(&mut elements) else {
        return Err("no element".into());
    };
    let Ok(Shown::Enum(_name, variant)) = d.show(Hint::Enum("Switch", &names)) else {
        return Err("no variant".into());
    };
    let mut variant = variant;
    let payload = Texts::newtype_variant(alloc, &mut variant);
    says(
        &rt,
        refusal(alloc, payload),
        "invalid type: unit variant, expected newtype variant",
    )
}
