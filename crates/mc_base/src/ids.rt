/// The number of an atom of a molecule, from 0. What is printed counts from 1.
#[derive(Clone, Copy, Debug, Default, PartialEq, Eq)]
pub struct AtomId(pub u32);

/// The number of a bond of a molecule, from 0. What is printed counts from 1.
#[derive(Clone, Copy, Debug, PartialEq, Eq)]
pub struct BondId(pub u32);
