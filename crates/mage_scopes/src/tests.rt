// What names stand for, in one scope and in several.
use super::*;

fn values(alloc: Global, numbers: &[u32]) -> Result<Vec<u32>, Memory> {
    Ok(Vec::from_slice(alloc, numbers)?)
}

// Whether these are the wanted numbers, or both are none.
fn is_wanted(numbers: Option<&Vec<u32>>, wanted: Option<&[u32]>) -> bool {
    match (numbers, wanted) {
        (Some(numbers), Some(wanted)) => numbers.as_slice() == wanted,
        (None, None) => true,
        _ => false,
    }
}

fn stands_for(scopes: &Scopes<Vec<u32>>, name: &[u8], wanted: Option<&[u32]>) -> bool {
    is_wanted(scopes.get(name), wanted)
}

#[test]
fn hides_names_of_a_scope_that_was_left(rt: HostRuntime) -> Result<(), Memory> {
    let alloc = rt.alloc();
    let mut scopes = Scopes::none(alloc)?;
    scopes.declare(b"x", values(alloc, &[1])?)?;
    scopes.declare(b"xs", values(alloc, &[])?)?;
    scopes.enter()?;
    scopes.declare(b"y", values(alloc, &[2, 3])?)?;
    scopes.declare(b"z", values(alloc, &[4])?)?;
    scopes.declare(b"z", values(alloc, &[5])?)?;
    let inside: [(&[u8], Option<&[u32]>); 6] = [
        (b"x", Some(&[1])),
        (b"xs", Some(&[])),
        (b"y", Some(&[2, 3])),
        (b"z", Some(&[5])),
        (b"", None),
        (b"X", None),
    ];
    for (name, wanted) in inside {
        assert!(rt; stands_for(&scopes, name, wanted), "inside, at {name:?}");
    }
    scopes.leave();
    let outside: [(&[u8], Option<&[u32]>); 4] = [
        (b"x", Some(&[1])),
        (b"xs", Some(&[])),
        (b"y", None),
        (b"z", None),
    ];
    for (name, wanted) in outside {
        assert!(rt; stands_for(&scopes, name, wanted), "outside, at {name:?}");
    }
    Ok(())
}

#[test]
fn replaces_in_an_outer_scope(rt: HostRuntime) -> Result<(), Memory> {
    let alloc = rt.alloc();
    let mut scopes = Scopes::none(alloc)?;
    scopes.declare(b"x", values(alloc, &[1])?)?;
    scopes.enter()?;
    scopes.declare(b"y", values(alloc, &[2])?)?;
    let was = scopes.replace(b"x", values(alloc, &[7, 8])?);
    assert!(rt; is_wanted(was.as_ref(), Some(&[1])));
    let was = scopes.replace(b"y", values(alloc, &[9])?);
    assert!(rt; is_wanted(was.as_ref(), Some(&[2])));
    let was = scopes.replace(b"z", values(alloc, &[3])?);
    assert!(rt; was.is_none());
    assert!(rt; stands_for(&scopes, b"x", Some(&[7, 8])));
    assert!(rt; stands_for(&scopes, b"y", Some(&[9])));
    assert!(rt; stands_for(&scopes, b"z", None));
    scopes.leave();
    assert!(rt; stands_for(&scopes, b"x", Some(&[7, 8])));
    assert!(rt; stands_for(&scopes, b"y", None));
    Ok(())
}

#[test]
fn has_nothing_without_a_scope(rt: HostRuntime) -> Result<(), Memory> {
    let alloc = rt.alloc();
    let mut scopes = Scopes::none(alloc)?;
    scopes.declare(b"x", values(alloc, &[1])?)?;
    scopes.leave();
    scopes.leave();
    scopes.declare(b"x", values(alloc, &[2])?)?;
    assert!(rt; stands_for(&scopes, b"x", None));
    Ok(())
}
