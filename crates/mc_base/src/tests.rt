use crate::{AtomId, AtomList, Kind, Refusal, Text, starts_digit};
use std::process::Abort;
use std::test::Fail;

#[test]
fn lists_hold_what_is_added(rt: HostRuntime) -> Result<(), Fail> {
    let alloc = rt.alloc();
    let mut text = Text::new(alloc);
    text.push(b'C').ok().ok_or("memory")?;
    text.extend(b"(N)O").ok().ok_or("memory")?;
    assert!(rt; text.as_slice() == b"C(N)O".as_slice());
    text.truncate(1);
    assert!(rt; text.as_slice() == b"C".as_slice());
    let mut atoms = AtomList::new(alloc);
    atoms.push(AtomId(7)).ok().ok_or("memory")?;
    assert!(rt; atoms.as_slice() == [AtomId(7)].as_slice());
    let refusal = Refusal::at(alloc, Kind::BadOrder, 3);
    assert!(rt; refusal.kind == Kind::BadOrder);
    assert!(rt; refusal.place == 3);
    Ok(())
}

#[test]
fn kinds_are_named(rt: HostRuntime) -> Result<(), Fail> {
    assert!(rt; Kind::of_name(b"LineTooLong") == Some(Kind::LineTooLong));
    assert!(rt; Kind::of_name(b"Name") == Some(Kind::Name));
    assert!(rt; Kind::of_name(b"name") == None);
    assert!(rt; Kind::LineTooLong.number() == 1);
    assert!(rt; Kind::BadOrder.number() == 20);
    assert!(rt; Kind::Name.number() == 46);
    Ok(())
}

#[test]
fn a_digit_stands_at_the_front(rt: HostRuntime) -> Result<(), Fail> {
    assert!(rt; starts_digit(b"0"));
    assert!(rt; starts_digit(b"9C"));
    assert!(rt; !starts_digit(b"/"));
    assert!(rt; !starts_digit(b":1"));
    assert!(rt; !starts_digit(b""));
    Ok(())
}
