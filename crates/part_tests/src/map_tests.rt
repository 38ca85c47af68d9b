//! Parts over given keys, where memory is ample.
use folio_sections::{MapParts, Parts};
use std::test::Fail;
use test_items::{case_key, folio, right, right_key, title_key};

/// Each call that may run out of memory has enough. The keys that were given are held, and no others.
#[test]
fn parts_are_held_in_ample_memory(rt: HostRuntime) -> Result<(), Fail> {
    let seven = folio(7);
    let given = [
        case_key(8),
        right_key(7, right(10, 1)),
        title_key(7),
        title_key(7),
    ];
    let mut parts = MapParts::new(rt.alloc(), &given)?;
    assert!(rt; parts.hold(case_key(9)).is_ok());
    assert!(rt; parts.hold_with_room(&right_key(7, right(9, 8)), 3).is_ok());
    assert!(rt; parts.reserve_all(2).is_ok());
    assert!(rt; parts.reserve(title_key(7), 1_000).is_ok());
    // At a key that is not held no room is kept.
    assert!(rt; parts.reserve(title_key(8), usize::MAX).is_ok());
    assert!(rt; parts.title(seven).is_some() && parts.title(folio(8)).is_none());
    assert!(rt; parts.case(folio(9)).is_some() && parts.case(seven).is_none());
    let rights = parts.rights_in(rt.alloc(), seven)?;
    let wanted = [right(9, 8), right(10, 1)];
    assert_eq!(&rt; rights.as_slice(), wanted.as_slice());
    Ok(())
}
