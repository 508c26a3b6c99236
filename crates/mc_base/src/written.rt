use crate::{AtomList, Text};

/// A written SMILES text, and its atoms in the order in which they stand in it: entry k is the atom of
/// the molecule that is written as atom k.
#[derive(Drop)]
pub struct Written {
    pub text: Text,
    pub order: AtomList,
}
