ghost use Rattle.std.specs.Prelude.{◌≡◌, ◌++◌, OnOk, map, min};
ghost use Rattle.smi_graph.specs.Roles.{atom_of};
ghost use Rattle.smi_graph.specs.Reading.{held_atom};

use mc_base::Span;
use mc_elements::Element;
use smi_lex::TokenKind;
use std::alloc::AllocError;

/// An atom of a text. `bare` says that it stands without brackets, and then its hydrogens aren't written:
/// they stand here as 0. An isotope or a class of 0 is none. `chiral` is true for `@` and false for `@@`.
#[derive(Clone, Copy, Debug, PartialEq, Eq)]
pub struct SkelAtom {
    pub element: Element,
    pub lower: bool,
    pub bare: bool,
    pub isotope: u16,
    pub charge: i8,
    pub hydrogens: u8,
    pub class: u16,
    pub chiral: Option<bool>,
    pub span: Span,
}

/// A number as 16 bits hold it; one above the limits stays above them.
fn held(number: u32) -> u16
    ensures { result ≡ min number 65535 }
{
    if number > 65535 { 65535 } else { number as u16 }
}

/// Adds the atom that a token is.
#[inline(always)]
pub fn push_atom(atoms: &mut Vec<SkelAtom>, kind: TokenKind, span: Span) -> Result<(), AllocError>
    ensures { OnOk result (atoms.new.items ≡ atoms.old.items ++ map held_atom (atom_of kind span)) }
{
    match kind {
        TokenKind::Bare { element, lower } => {
            atoms.push(SkelAtom {
                element,
                lower,
                bare: true,
                isotope: 0,
                charge: 0,
                hydrogens: 0,
                class: 0,
                chiral: None,
                span,
            })?;
            Ok(())
        }
        TokenKind::Bracket {
            element,
            lower,
            isotope,
            chiral,
            hydrogens,
            charge,
            class,
        } => {
            atoms.push(SkelAtom {
                element,
                lower,
                bare: false,
                isotope: held(isotope),
                charge,
                hydrogens,
                class: held(class),
                chiral,
                span,
            })?;
            Ok(())
        }
        TokenKind::Bond(_)
        | TokenKind::Ring(_)
        | TokenKind::Enter
        | TokenKind::Leave
        | TokenKind::Dot => Ok(()),
    }
}
