ghost use Rattle.std.specs.Prelude.{◌≡◌, ◌-◌, ◌<◌, ℕ, All};
ghost use Rattle.std.specs.List.Sorted.{IsStrictlyIncreasing};
ghost use Rattle.mc_elements.specs.Valences.{smiles_valences, aromatic_valences, ct_valences, IsLeastValence, implied, reference_mass};

use crate::Element;

/// The normal valences of a bare atom, rising; empty where the element is never bare.
/// (OpenSMILES 1.0, section 3.1.5)
#[inline(always)]
pub fn smiles_valences(element: Element) -> &'static [u8]
    ensures value { result.now ≡ smiles_valences element }
    ensures rising { IsStrictlyIncreasing result.now }
{
    match element {
        Element::C => &[4],
        Element::N | Element::P => &[3, 5],
        Element::O => &[2],
        Element::S => &[2, 4, 6],
        Element::B => &[3],
        Element::F | Element::Cl | Element::Br | Element::I => &[1],
        _ => &[],
    }
}

/// The valences of an atom that is written in lower case, rising; empty where there are none.
pub fn aromatic_valences(element: Element, charge: i8) -> &'static [u8]
    ensures value { result.now ≡ aromatic_valences element charge }
    ensures rising { IsStrictlyIncreasing result.now }
{
    match (element, charge) {
        (Element::B, 0) => &[3],
        (Element::B, -1) => &[4],
        (Element::C, 0) => &[4],
        (Element::C, 1 | -1) => &[3],
        (Element::N | Element::P | Element::As, 0) => &[3, 5],
        (Element::N | Element::P | Element::As, 1) => &[4],
        (Element::N | Element::P | Element::As, -1) => &[2],
        (Element::O, 0) => &[2],
        (Element::O, 1) => &[3],
        (Element::O, -1) => &[1],
        (Element::S | Element::Se, 0) => &[2, 4, 6],
        (Element::S | Element::Se, 1) => &[3, 5],
        (Element::S | Element::Se, -1) => &[1],
        _ => &[],
    }
}

/// The valences of an atom of a CTfile that has no valence field, rising; empty where there are
/// none.
pub fn ct_valences(element: Element, charge: i8) -> &'static [u8]
    ensures value { result.now ≡ ct_valences element charge }
    ensures rising { IsStrictlyIncreasing result.now }
{
    match (element, charge) {
        (Element::F | Element::Cl | Element::Br | Element::I, 0) => &[1],
        (Element::Si | Element::Ge, 0) => &[4],
        _ => aromatic_valences(element, charge),
    }
}

/// The hydrogens that fill up a sum of bond orders to a valence of the list; 0 where the sum is
/// above them all.
pub fn implied(list: &[u8], sum: u8) -> u8
    requires { IsStrictlyIncreasing list.now }
    ensures filled { (valence : ℕ) → IsLeastValence list.now sum valence → result ≡ valence - sum }
    ensures above { All (λ valence. valence < sum) list.now → result ≡ 0 }
    ensures value { result ≡ implied list.now sum }
{
    for valence in list {
        if sum <= *valence {
            return *valence - sum;
        }
    }
    0
}

/// The whole number from which a mass difference of a CTfile counts, where there is one.
pub fn reference_mass(element: Element) -> Option<u8>
    ensures { result ≡ reference_mass element }
{
    match element {
        Element::H => Some(1),
        Element::C => Some(12),
        Element::N => Some(14),
        Element::O => Some(16),
        Element::F => Some(19),
        Element::P => Some(31),
        Element::S => Some(32),
        Element::I => Some(127),
        _ => None,
    }
}

#[cfg(test)]
mod tests {
    use super::*;

    #[test]
    fn hydrogens(rt: HostRuntime) {
        assert_eq!(rt; implied(smiles_valences(Element::C), 1), 3);
        assert_eq!(rt; implied(smiles_valences(Element::N), 4), 1);
        assert_eq!(rt; implied(smiles_valences(Element::S), 7), 0);
        assert_eq!(rt; implied(smiles_valences(Element::Fe), 2), 0);
        assert_eq!(rt; implied(aromatic_valences(Element::N, 1), 3), 1);
        assert_eq!(rt; implied(ct_valences(Element::Si, 0), 1), 3);
        assert_eq!(rt; ct_valences(Element::Cl, -1), b"".as_slice());
        assert_eq!(rt; reference_mass(Element::I), Some(127));
        assert_eq!(rt; reference_mass(Element::Cl), None);
    }
}
