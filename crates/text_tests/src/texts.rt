//! Texts and bytes, owned and lent.

use crate::checks::says;
use data_core::{BytesLike, Text, TextLike, only_char};
use std::alloc::{AllocError, Global};
use std::borrow::CowStr;
use std::test::Fail;

// A text, copied twice and moved once.
fn copied(alloc: Global, text: &str) -> Result<String, AllocError> {
    let text = Text::new(alloc, text)?;
    Ok(text.try_clone(alloc)?.into_string())
}

// A text, moved twice.
fn moved(text: Result<String, AllocError>) -> Result<String, AllocError> {
    Ok(Text::from_string(text?).into_string())
}

// What a text is as one that is owned.
fn owned<T: TextLike>(alloc: Global, text: T) -> Result<String, AllocError> {
    text.into_string(alloc)
}

fn owned_string(alloc: Global) -> Result<String, AllocError> {
    let text = String::from_str(alloc, "a")?;
    owned(alloc, text)
}

fn owned_of_either(alloc: Global) -> Result<String, AllocError> {
    let text = String::from_str(alloc, "b")?;
    owned(alloc, CowStr::Owned(text))
}

#[test]
fn keeps_its_text(rt: HostRuntime) -> Result<(), Fail> {
    let alloc = rt.alloc();
    for want in ["", "field", "größer"] {
        says(&rt, copied(alloc, want), want)?;
        says(&rt, moved(String::from_str(alloc, want)), want)?;
    }
    Ok(())
}

#[test]
fn hands_out_texts(rt: HostRuntime) -> Result<(), Fail> {
    let alloc = rt.alloc();
    says(&rt, owned_string(alloc), "a")?;
    says(&rt, owned_of_either(alloc), "b")?;
    says(&rt, owned(alloc, CowStr::Borrowed("c")), "c")?;
    says(&rt, owned(alloc, "d"), "d")
}

#[test]
fn lends_texts(rt: HostRuntime) -> Result<(), Fail> {
    let text = Text::new(rt.alloc(), "a")?;
    assert_eq!(rt; text.as_str(), "a");
    let string = text.into_string();
    assert_eq!(rt; TextLike::as_str(&string), "a");
    let either: CowStr<'_> = CowStr::Owned(string);
    assert_eq!(rt; TextLike::as_str(&either), "a");
    let lent: CowStr<'_> = CowStr::Borrowed("b");
    assert_eq!(rt; TextLike::as_str(&lent), "b");
    assert_eq!(rt; TextLike::as_str(&"c"), "c");
    Ok(())
}

#[test]
fn hands_out_bytes(rt: HostRuntime) -> Result<(), Fail> {
    let alloc = rt.alloc();
    let lent: &[u8] = b"ab";
    assert_eq!(rt; BytesLike::as_slice(&lent), lent);
    let bytes = lent.into_vec(alloc)?;
    assert_eq!(rt; BytesLike::as_slice(&bytes), lent);
    assert_eq!(rt; bytes.into_vec(alloc)?.as_slice(), lent);
    Ok(())
}

#[test]
fn has_exactly_one_character(rt: HostRuntime) {
    let table = [("\u{1f600}", Some('\u{1f600}')), ("ab", None), ("", None)];
    for (text, want) in table {
        assert_eq!(rt; only_char(text), want);
    }
}
