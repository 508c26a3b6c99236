//! The bytes of atoms, ring numbers and bond symbols.

ghost use Rattle.std.specs.Prelude.{◌≡◌, ◌++◌, ◌<◌, OnOk, flat_map, decimal, codes, false};
ghost use Rattle.mc_elements.specs.Elements.{symbol};
ghost use Rattle.mc_elements.specs.Valences.{smiles_valences, implied};
ghost use Rattle.smi_lex.specs.declared.token.TokenKind.TheVariants.{Bracket};
ghost use Rattle.smi_lex.specs.Grammar.{may_be_bare};
ghost use Rattle.smi_mean.specs.Written.{is_bare, token_of, spelling, isotope_text, chiral_text, hydrogens_text, charge_text, class_text, ring_text, mark_tokens, symbol_of};

use mc_base::{NoMemory, Text};
use mc_digits::put_number;
use mc_elements::{Element, implied, smiles_valences};
use mc_mol::Atom;

/// The symbol of an element; most that are written have one letter.
fn push_element(text: &mut Text, element: Element) -> Result<(), NoMemory>
    ensures { OnOk result (text.new ≡ text.old ++ symbol element) }
{
    match element.symbol() {
        [letter] => text.push(*letter),
        letters => text.extend(letters),
    }
}

fn push_isotope(text: &mut Text, isotope: u16) -> Result<(), NoMemory>
    ensures { OnOk result (text.new ≡ text.old ++ isotope_text isotope) }
{
    if isotope != 0 {
        put_number(text, isotope as u64)?;
    }
    Ok(())
}

fn push_hydrogens(text: &mut Text, hydrogens: u8) -> Result<(), NoMemory>
    ensures { OnOk result (text.new ≡ text.old ++ hydrogens_text hydrogens) }
{
    if hydrogens == 0 {
        return Ok(());
    }
    text.push(b'H')?;
    if hydrogens != 1 {
        put_number(text, hydrogens as u64)?;
    }
    Ok(())
}

/// A sign, and the amount behind it where it isn't 1.
fn push_charge(text: &mut Text, charge: i8) -> Result<(), NoMemory>
    ensures { OnOk result (text.new ≡ text.old ++ charge_text charge) }
{
    if charge == 0 {
        return Ok(());
    }
    text.push(if charge > 0 { b'+' } else { b'-' })?;
    let amount = charge.unsigned_abs();
    if amount != 1 {
        put_number(text, amount as u64)?;
    }
    Ok(())
}

fn push_class(text: &mut Text, class: u16) -> Result<(), NoMemory>
    ensures { OnOk result (text.new ≡ text.old ++ class_text class) }
{
    if class == 0 {
        return Ok(());
    }
    text.push(b':')?;
    put_number(text, class as u64)
}

/// `@`, `@@` or nothing.
fn push_chirality(text: &mut Text, chiral: Option<bool>) -> Result<(), NoMemory>
    ensures { OnOk result (text.new ≡ text.old ++ chiral_text chiral) }
{
    match chiral {
        Some(true) => text.push(b'@'),
        Some(false) => {
            text.push(b'@')?;
            text.push(b'@')
        }
        None => Ok(()),
    }
}

/// What stands behind the chirality of a bracket.
fn push_values(text: &mut Text, atom: Atom) -> Result<(), NoMemory>
    ensures { OnOk result (text.new ≡ text.old ++ (hydrogens_text atom.hydrogens ++ (charge_text atom.charge ++ (class_text atom.class ++ codes "]")))) }
{
    push_hydrogens(text, atom.hydrogens)?;
    push_charge(text, atom.charge)?;
    push_class(text, atom.class)?;
    text.push(b']')?;
    Ok(())
}

fn push_bracket(text: &mut Text, atom: Atom, chiral: Option<bool>) -> Result<(), NoMemory>
    ensures { OnOk result (text.new ≡ text.old ++ spelling (Bracket atom.element false atom.isotope chiral atom.hydrogens atom.charge atom.class)) }
{
    text.push(b'[')?;
    push_isotope(text, atom.isotope)?;
    push_element(text, atom.element)?;
    push_chirality(text, chiral)?;
    push_values(text, atom)
}

fn may_be_bare(element: Element) -> bool
    ensures { result ≡ may_be_bare element false }
{
    match element {
        Element::B
        | Element::C
        | Element::N
        | Element::O
        | Element::P
        | Element::S
        | Element::F
        | Element::Cl
        | Element::Br
        | Element::I => true,
        _ => false,
    }
}

/// The hydrogens of an atom without brackets.
fn bare_hydrogens(element: Element, sum: u32) -> u8
    ensures { result ≡ implied (smiles_valences element) sum }
{
    if sum > 255 {
        return 0;
    }
    implied(smiles_valences(element), sum as u8)
}

/// Whether an atom with this bond sum stands without brackets.
fn is_bare(atom: Atom, sum: u32) -> bool
    ensures { result ≡ is_bare atom sum }
{
    may_be_bare(atom.element)
        && atom.isotope == 0
        && atom.charge == 0
        && atom.class == 0
        && atom.hydrogens == bare_hydrogens(atom.element, sum)
}

/// An atom with this bond sum, and with the mark of a centre where it is one.
pub fn push_atom(text: &mut Text, atom: Atom, sum: u32, mark: Option<bool>) -> Result<(), NoMemory>
    ensures { OnOk result (text.new ≡ text.old ++ spelling (token_of atom sum mark)) }
{
    if mark.is_none() && is_bare(atom, sum) {
        push_element(text, atom.element)
    } else {
        push_bracket(text, atom, mark)
    }
}

/// A ring number: `%` stands before two digits.
pub fn push_ring_number(text: &mut Text, number: usize) -> Result<(), NoMemory>
    ensures { OnOk result (text.new ≡ text.old ++ ring_text number) }
{
    if number >= 10 {
        text.push(b'%')?;
    }
    put_number(text, number as u64)
}

/// The symbol of a bond order; a single bond has none.
pub fn push_symbol(text: &mut Text, order: u8) -> Result<(), NoMemory>
    ensures { OnOk result (text.new ≡ text.old ++ flat_map spelling (mark_tokens (symbol_of order))) }
{
    match order {
        2 => text.push(b'='),
        3 => text.push(b'#'),
        4 => text.push(b'$'),
        _ => Ok(()),
    }
}
