//! Centres: what is written of texts with marks, and every arrangement of one centre, compared by a plain program.

use crate::tests::plain_places::{places, say_the_same};
use crate::write_smiles;
use mc_base::Text;
use smi_mean::read_smiles;
use std::process::Abort;
use std::test::Fail;

/// The text that is written of the molecule that a short text stands for.
fn converted(rt: &(impl Abort + AllocGlobal), text: &[u8]) -> Result<Text, Fail> {
    assert!(rt; text.len() < 1000);
    match read_smiles(rt.alloc(), text) {
        Ok(read) => {
            let written = write_smiles(rt.alloc(), &read.mol)?;
            Ok(written.text)
        }
        Err(_) => {
            assert!(rt; false);
            Ok(Text::new(rt.alloc()))
        }
    }
}

/// Each text is written so.
fn are_written(rt: &(impl Abort + AllocGlobal), rows: &[(&str, &str)]) -> Result<(), Fail> {
    for (text, expected) in rows {
        let written = converted(rt, text.as_bytes())?;
        assert_eq!(rt; written.as_slice(), expected.as_bytes());
    }
    Ok(())
}

#[test]
fn marks_are_kept(rt: HostRuntime) -> Result<(), Fail> {
    are_written(
        &rt,
        &[
            ("N[C@@H](C)C(=O)O", "N[C@@H](C)C(=O)O"),
            ("[C@@H](N)(C)C(=O)O", "[C@@H](N)(C)C(=O)O"),
            ("C[S@](=O)CC", "C[S@](=O)CC"),
            // where symmetry makes a mark meaningless it is kept all the same
            ("C[C@](C)(C)C", "C[C@](C)(C)C"),
            ("N[C@TH1H](C)O", "N[C@H](C)O"),
            ("N[C@TH2H](C)O", "N[C@@H](C)O"),
        ],
    )
}

/// One exchange of places each.
#[test]
fn marks_turn_at_ring_numbers(rt: HostRuntime) -> Result<(), Fail> {
    are_written(
        &rt,
        &[
            ("C1.[C@H]1(F)Cl", "C[C@@H](F)Cl"),
            ("[C@]21(F)CCC1CC2", "[C@@]12(F)CCC1CC2"),
        ],
    )
}

/// Two centres, each by its own order; a centre stands in brackets where a bare atom would do.
#[test]
fn two_centres(rt: HostRuntime) -> Result<(), Fail> {
    are_written(
        &rt,
        &[
            ("C[C@@H](F)[C@H](Cl)Br", "C[C@@H](F)[C@H](Cl)Br"),
            ("[C@](F)(Cl)(Br)I.C", "[C@](F)(Cl)(Br)I.C"),
            ("F[P@](C)(=O)N[S@@](=O)C", "F[P@](C)(=O)N[S@@](=O)C"),
        ],
    )
}

/// The text of a template, in which `*` is the centre and `a` to `d` are its neighbours, by their numbers in an order.
fn filled(
    rt: &(impl Abort + AllocGlobal),
    template: &[u8],
    centre: &[u8],
    order: [u8; 4],
) -> Result<Vec<u8>, Fail> {
    let mut text = Vec::new(rt.alloc());
    for byte in template {
        match *byte {
            b'*' => text.extend_from_slice(centre)?,
            b'a'..=b'd' => {
                text.extend_from_slice(b"[C:")?;
                text.push(order[(*byte - b'a') as usize])?;
                text.push(b']')?;
            }
            other => text.push(other)?,
        }
    }
    Ok(text)
}

/// A text is written as the same molecule, by the places of its centre, and what is written is written as it stands.
fn says_the_same(rt: &(impl Abort + AllocGlobal), text: &[u8]) -> Result<(), Fail> {
    let written = converted(rt, text)?;
    let before = places(rt.alloc(), text)?;
    let behind = places(rt.alloc(), written.as_slice())?;
    assert!(rt; say_the_same(&before, &behind));
    let again = converted(rt, written.as_slice())?;
    assert_eq!(rt; again.as_slice(), written.as_slice());
    Ok(())
}

/// The digits of a number in base four, if they all differ.
fn order_of(number: u8) -> Option<[u8; 4]> {
    let a = number % 4;
    let b = number / 4 % 4;
    let c = number / 16 % 4;
    let d = number / 64;
    if a == b || a == c || a == d || b == c || b == d || c == d {
        return None;
    }
    Some([b'1' + a, b'1' + b, b'1' + c, b'1' + d])
}

/// The same of a template under every order of its neighbours.
fn every_order(
    rt: &(impl Abort + AllocGlobal),
    template: &[u8],
    centre: &[u8],
) -> Result<(), Fail> {
    for number in 0..=255 {
        if let Some(order) = order_of(number) {
            let text = filled(rt, template, centre, order)?;
            says_the_same(rt, &text)?;
        }
    }
    Ok(())
}

/// The same of each template and each of these centres.
fn all_say_the_same(
    rt: &(impl Abort + AllocGlobal),
    templates: &[&str],
    centres: &[&str],
) -> Result<(), Fail> {
    for template in templates {
        for centre in centres {
            every_order(rt, template.as_bytes(), centre.as_bytes())?;
        }
    }
    Ok(())
}

#[test]
fn four_neighbours(rt: HostRuntime) -> Result<(), Fail> {
    all_say_the_same(
        &rt,
        &[
            // in a chain, in branches, as the first atom and as the last one
            "a*(b)(c)d",
            "*(a)(b)(c)d",
            "a(*(b)c)d",
            "a*(b(c))d",
            // ring numbers that close, in both orders
            "a1.b2.*12(c)d",
            "a1.b2.*21(c)d",
            "a1.b2.c3.d*123",
            "a1.b2.c3.d*231",
            "a1.b2.c3.d4.*4213",
            // that open
            "*12(a)b.c1.d2",
            "*21(a)b.c1.d2",
            "a*3(b).c.d3",
            "*1234.a2.b4.c1.d3",
            // both at one atom
            "a1.*12(b)c.d2",
            "a1.*21(b)c.d2",
            "a1.b2.*3142.c3.d4",
            "a%10.*%11%10(b)c.d%11",
            "a1.*%121(b)c.d%12",
            // a number that is used again
            "a1.*11(b)c.d1",
            // rings
            "*1(ab1)cd",
            "*12(ab1)cd2",
            "*21(ab1)cd2",
            "a1b*1(c)d",
            "a12bc1*2d",
        ],
        &["[C@:9]", "[C@@:9]", "[N@+:9]", "[P@@+:9]"],
    )
}

#[test]
fn three_neighbours(rt: HostRuntime) -> Result<(), Fail> {
    all_say_the_same(
        &rt,
        &[
            "d.a*(b)c",
            "d.*(a)(b)c",
            "da*(b)c",
            "d.a1.*1(b)c",
            "d.*1(a)b.c1",
            "d.a1.b2.*21c",
            "d.a1.b2.c*21",
            "d.*21a.b1.c2",
            "d.a1.*21b.c2",
            "d.*1(ab1)c",
        ],
        &[
            "[C@H:9]",
            "[C@@H1:9]",
            "[S@+:9]",
            "[S@@H+:9]",
            "[P@:9]",
            "[N@@:9]",
        ],
    )
}

#[test]
fn a_double_bond_at_a_centre(rt: HostRuntime) -> Result<(), Fail> {
    all_say_the_same(
        &rt,
        &[
            "d.a*(=b)c",
            "d.*(=a)(b)c",
            "d.a=1.*1(b)c",
            "d.*=1(a)b.c1",
            "a=*(b)c.d",
        ],
        &["[S@:9]", "[S@@:9]"],
    )
}
