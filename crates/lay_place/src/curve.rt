//! Atoms in a row on a parabola.
ghost use Rattle.std.specs.Prelude.{◌≡◌, ◌<◌, ◌≤◌, map, length, IfSome};
ghost use Rattle.lay_place.specs.Curve.{AreLow, moved};

use crate::stretch::Stretch;
use mc_base::{AtomId, NoMemory};
use mc_mol::Drawing;
use std::alloc::Global;
use std::marker::Model;

/// Atoms in a row on a parabola, which bends to one side: no three of them stand on one line. For each atom its place in
/// the row, from 0 on, or none as long as it isn't put in.
#[derive(Drop)]
pub struct Curve {
    places: Vec<Option<u32>>,
}

impl Model for Curve {
    ghost use Rattle.std.specs.Prelude.{ℕ, List, Option};

    ghost Value = { List (Option ℕ) };

    ghost view = { λ c. c.places.items };
}

impl Curve {
    ghost use Rattle.std.specs.Prelude.{◌≡◌, ◌<◌, ◌≤◌, length, map, replicate, slice_get, slice_set, IfOk, IfSome, IfNone, Some, None, false};
    ghost use Rattle.mc_mol.specs.Numbered.{Mark};
    ghost use Rattle.lay_place.specs.Curve.{has_place};
    ghost use Rattle.lay_place.specs.Curve.{AreLow, AreBelow, IsOnCurve, moved};

    /// No atom is put in yet.
    pub fn new(alloc: Global, count: usize) -> Result<Curve, NoMemory>
        ensures { IfOk result (λ curve. curve ≡ replicate count None) }
    {
        let places = vec![in alloc; None; count]?;
        Ok(Curve { places })
    }

    /// The place of an atom.
    pub fn place(&self, a: AtomId) -> Option<u32>
        ensures some { IfSome result (λ place. Mark self.now a.0 place) }
        ensures none { IfNone result (has_place (slice_get self.now a.0) ≡ false) }
    {
        match self.places.get(a.0 as usize) {
            Some(slot) => *slot,
            None => None,
        }
    }

    pub fn has(&self, a: AtomId) -> bool
        ensures { result ≡ has_place (slice_get self.now a.0) }
    {
        match self.places.get(a.0 as usize) {
            Some(Some(_)) => true,
            _ => false,
        }
    }

    /// Puts an atom in at a place: the atoms from there on move up.
    pub fn insert(&mut self, a: AtomId, at: u32)
        requires atom { a.0 < length self.old }
        requires low { AreLow self.old }
        ensures { self.new ≡ slice_set (map (moved at) self.old) a.0 (Some at) }
    {
        make_room(&mut self.places, at);
        self.places[a.0 as usize] = Some(at);
    }

    /// The atoms where they stand, stretched as far as the columns allow.
    pub fn draw(&self, alloc: Global) -> Result<Drawing, NoMemory>
        requires few { length self.now ≤ 4999 }
        requires below { AreBelow self.now }
        ensures { IfOk result (λ drawing. IsOnCurve self.now drawing) }
    {
        let stretch = Stretch::of(self.places.len());
        let mut points = Vec::with_capacity(alloc, self.places.len())?;
        for slot in &self.places {
            points.push(stretch.point(*slot))?;
        }
        Ok(Drawing::from_vec(points))
    }
}

/// All atoms from place k on move up.
fn make_room(places: &mut [Option<u32>], k: u32)
    requires { AreLow places.old }
    ensures { places.new ≡ map (moved k) places.old }
{
    for i in 0..places.len() {
        places[i] = moved(places[i], k);
    }
}

fn moved(slot: Option<u32>, k: u32) -> Option<u32>
    requires { IfSome slot (λ place. place < 4999) }
    ensures { result ≡ moved k slot }
{
    match slot {
        None => None,
        Some(place) => Some(if place < k { place } else { place + 1 }),
    }
}
