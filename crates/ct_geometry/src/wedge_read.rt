use mc_mol::Slot;

/// What the wedges of a drawing say of an atom: it is no centre, they contradict each other or can't be told, or the list of places of a
/// centre.
#[derive(Clone, Copy, Debug, PartialEq, Eq)]
pub enum WedgeRead {
    None,
    Ambiguous,
    Centre([Slot; 4]),
}
