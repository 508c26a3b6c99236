/// What a map checker says: that two molecules are the same under a map, or the first difference.
/// Numbers count from 1, as they are printed.
#[derive(Clone, Copy, Debug, PartialEq, Eq)]
pub enum Verdict {
    True,
    /// the map or the molecules differ in their number of atoms
    Length,
    /// an entry of the map names no atom
    Range(u32),
    /// an entry of the map stood before
    Repeat(u32),
    /// an atom differs
    Atom(u32),
    /// the numbers of bonds differ
    Bonds,
    /// a bond has no counterpart of its order
    Bond(u32),
    /// a stereocentre differs
    Centre(u32),
    /// the sides of a double bond differ
    Sides(u32),
}
