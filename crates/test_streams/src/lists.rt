//! Lists and maps whose items own memory.
use iloc_litemap::LiteMap;
use iloc_shortvec::ShortBoxSlice;
use std::alloc::{AllocError, Global};
use std::test::Fail;

type Texts = LiteMap<char, String, ShortBoxSlice<(char, String)>>;

/// The list of `ab`, `cd` and `ef`, without the second, which is answered.
fn without_the_second(alloc: Global) -> Result<(ShortBoxSlice<String>, String), AllocError> {
    let mut list = ShortBoxSlice::new_single(String::from_str(alloc, "ab")?);
    list.push(alloc, String::from_str(alloc, "ef")?)?;
    list.insert(alloc, 1, String::from_str(alloc, "cd")?)?;
    if list.len() < 2 {
        return Err(AllocError);
    }
    let second = list.remove(1);
    Ok((list, second))
}

#[test]
fn a_list_of_texts(rt: HostRuntime) -> Result<(), Fail> {
    let (list, second) = without_the_second(rt.alloc())?;
    assert_eq!(rt; second.as_str(), "cd");
    assert_eq!(rt;
        format!(in rt.alloc(); "{list:?}")?.as_str(),
        "[\"ab\", \"ef\"]"
    );
    Ok(())
}

/// The map of `a` and `b`, the value of `b` set twice, and the value that was there.
fn set_twice(alloc: Global) -> Result<(Texts, Option<String>), AllocError> {
    let mut map: Texts = LiteMap::new(alloc);
    map.insert(alloc, 'b', String::from_str(alloc, "old")?)?;
    map.insert(alloc, 'a', String::from_str(alloc, "first")?)?;
    let old = map.insert(alloc, 'b', String::from_str(alloc, "new")?)?;
    Ok((map, old))
}

#[test]
fn a_map_of_texts(rt: HostRuntime) -> Result<(), Fail> {
    let (mut map, old) = set_twice(rt.alloc())?;
    assert!(rt; matches!(&old, Some(text) if text.as_str() == "old"));
    assert!(rt; matches!(map.get(&'b'), Some(text) if text.as_str() == "new"));
    assert!(rt; matches!(&map.remove(&'a'), Some(text) if text.as_str() == "first"));
    assert_eq!(rt; map.len(), 1);
    Ok(())
}
