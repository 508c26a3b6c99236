use crate::{TableAtoms, TableBonds};
use mc_base::Text;
use mc_elements::Element;

/// How a bond is drawn. Up, down and wavy are marks of a single bond and speak of its first atom; either is a mark of
/// a double bond.
#[derive(Clone, Copy, Debug, PartialEq, Eq)]
pub enum DrawMark {
    Plain,
    Up,
    Down,
    Wavy,
    Either,
}

/// An atom of a table, as its line and the property lines give it, before any limit is looked at.
#[derive(Clone, Copy, Debug, PartialEq, Eq)]
pub struct TableAtom {
    pub element: Element,
    /// the mass number; 0 is none
    pub isotope: u32,
    pub charge: i32,
    /// the mapping number; 0 is none
    pub class: u32,
    /// bond orders and hydrogens together, where the record says so
    pub valence: Option<u8>,
    /// places are whole ten-thousandths
    pub x: i64,
    pub y: i64,
    pub z: i64,
    /// the line of the record, from 1
    pub line: u32,
}

/// A bond of a table.
#[derive(Clone, Copy, Debug, PartialEq, Eq)]
pub struct TableBond {
    /// the atoms count from 0
    pub first: u32,
    pub second: u32,
    pub order: u8,
    pub mark: DrawMark,
    /// the line of the record, from 1
    pub line: u32,
}

/// What the lines of a CTfile give: its atoms and bonds in file order, and its name, which is the first line.
#[derive(Drop)]
pub struct Table {
    pub atoms: TableAtoms,
    pub bonds: TableBonds,
    pub name: Text,
}
