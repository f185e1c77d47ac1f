use crate::{Bytes, Front, Items, Path, SharedText, Text, behind, cut};
use std::test::Fail;

#[test]
fn cuts(rt: HostRuntime) -> Result<(), Fail> {
    assert_eq!(rt;
        cut(b"a=b=c", b'='),
        Some((b"a".as_slice(), b"b=c".as_slice()))
    );
    assert_eq!(rt; cut(b"=", b'='), Some((b"".as_slice(), b"".as_slice())));
    assert_eq!(rt; cut(b"abc", b'='), None);
    Ok(())
}

#[test]
fn texts_and_paths(rt: HostRuntime) -> Result<(), Fail> {
    let alloc = rt.alloc();
    let text = Text::from_str(alloc, "cat b a")?;
    assert_eq!(rt; text.as_str(), "cat b a");
    assert!(rt; text == text.clone()?);
    assert!(rt; text != Text::new(alloc));
    assert!(rt; Text::new(alloc).is_empty());
    assert_eq!(rt; format!(in alloc; "<{text}>")?.as_str(), "<cat b a>");
    assert_eq!(rt; text.into_string().as_str(), "cat b a");
    let path = Path::from_string(String::from_str(alloc, "a/é")?);
    assert!(rt; path == Path::from_str(alloc, "a/é")?);
    assert!(rt; path != Path::new(alloc));
    assert_eq!(rt; format!(in alloc; "{path}")?.as_str(), "a/é");
    Ok(())
}

#[test]
fn bytes_and_items(rt: HostRuntime) -> Result<(), Fail> {
    let alloc = rt.alloc();
    let bytes = Bytes::from_slice(alloc, b"\0\xff")?;
    assert!(rt; bytes == bytes.clone()?);
    assert!(rt; bytes != Bytes::new(alloc));
    assert_eq!(rt; bytes.into_vec().as_slice(), b"\0\xff".as_slice());
    let mut items = Items::new(alloc);
    assert!(rt; items.is_empty());
    items.push(7)?;
    items.push(9)?;
    assert_eq!(rt; items.len(), 2);
    assert_eq!(rt; items.into_vec().as_slice(), [7, 9].as_slice());
    Ok(())
}

#[test]
fn shared_texts(rt: HostRuntime) -> Result<(), Fail> {
    let alloc = rt.alloc();
    let text = SharedText::from_str(alloc, "cat b a")?;
    let copy = text.clone()?;
    assert!(rt; text == copy);
    assert!(rt; copy.is("cat b a"));
    assert!(rt; text != SharedText::new());
    Ok(())
}

#[test]
fn empty_shared_texts(rt: HostRuntime) -> Result<(), Fail> {
    let alloc = rt.alloc();
    assert!(rt; SharedText::new().is(""));
    assert!(rt; SharedText::from_text(alloc, Text::new(alloc))? == SharedText::new());
    Ok(())
}

#[test]
fn texts_with_fronts(rt: HostRuntime) -> Result<(), Fail> {
    let alloc = rt.alloc();
    let front = Front::from_str(alloc, "cat b")?;
    let text = SharedText::with_front(alloc, &front, " a")?;
    assert!(rt; text == SharedText::from_str(alloc, "cat b a")?);
    assert!(rt; SharedText::from_str(alloc, "cat b a")? == text);
    assert!(rt; text != SharedText::from_str(alloc, "cat b")?);
    assert!(rt; text.is("cat b a"));
    assert!(rt; !text.is("cat b aa"));
    assert_eq!(rt; text.to_text(alloc)?.as_str(), "cat b a");
    let (front, rest) = text.parts();
    assert_eq!(rt; front, "cat b");
    assert_eq!(rt; rest, " a");
    Ok(())
}

#[test]
fn behind_bytes(rt: HostRuntime) -> Result<(), Fail> {
    assert_eq!(rt; behind(b"a", b"abc"), Some(b"bc".as_slice()));
    assert_eq!(rt; behind(b"b", b"abc"), None);
    Ok(())
}
