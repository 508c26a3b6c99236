ghost use Rattle.std.specs.Prelude.{◌≡◌, ◌++◌, [], ◌∷◌, length, OnOk, OnErr};

use mc_base::NoMemory;
use std::alloc::Global;
use std::marker::Model;

/// Where an atom is drawn: x to the right and y upwards, in ten-thousandths.
#[derive(Clone, Copy, Debug, PartialEq, Eq)]
pub struct Point {
    pub x: i64,
    pub y: i64,
}

/// A drawing of a molecule: the point of each atom, in the order of the atoms.
#[derive(Drop)]
pub struct Drawing {
    points: Vec<Point>,
}

impl Model for Drawing {
    ghost use Rattle.std.specs.Prelude.{List};
    ghost use Rattle.mc_mol.specs.declared.drawing.Point.{Point};

    ghost Value = { List Point };

    ghost view = { λ d. d.points.items };
}

impl Drawing {
    pub fn new(alloc: Global) -> Drawing
        ensures { result ≡ [] }
    {
        Drawing {
            points: Vec::new(alloc),
        }
    }

    pub fn from_vec(points: Vec<Point>) -> Drawing
        ensures { result ≡ points.items }
    {
        Drawing { points }
    }

    pub fn into_vec(self) -> Vec<Point>
        ensures { result.items ≡ self }
    {
        self.points
    }

    pub fn len(&self) -> usize
        ensures { result ≡ length self.now }
    {
        self.points.len()
    }

    pub fn push(&mut self, point: Point) -> Result<(), NoMemory>
        ensures ok { OnOk result (self.new ≡ self.old ++ point ∷ []) }
        ensures err { OnErr result (self.new ≡ self.old) }
    {
        self.points.push(point)?;
        Ok(())
    }

    pub fn as_slice(&self) -> &[Point]
        ensures { result.now ≡ self.now }
    {
        self.points.as_slice()
    }
}
