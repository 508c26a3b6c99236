//! The rays of a drawing.
ghost use Rattle.std.specs.Prelude.{◌≡◌, ◌≤◌, ◌-ℤ◌};
ghost use Rattle.std.specs.Int.RustNames.{unsigned_abs};
ghost use Rattle.ct_geometry.specs.Bounds.{ArePlaces, IsCoordinate, IsPlace, IsShort};
ghost use Rattle.ct_geometry.specs.Drawn.{at, place, ray_of};
ghost use Rattle.ct_geometry.specs.Turns.{ray};

use crate::turns::Ray;
use mc_base::AtomId;
use mc_mol::Point;

/// Where an atom stands.
fn place_of(drawing: &[Point], a: AtomId) -> Point
    requires { ArePlaces drawing.now }
    ensures value { place result ≡ at drawing.now a.0 }
    ensures place { IsPlace result }
{
    match drawing.get(a.0 as usize) {
        Some(point) => *point,
        None => Point { x: 0, y: 0 },
    }
}

/// How far one coordinate is behind another.
pub fn span(from: i64, to: i64) -> i64
    requires from { IsCoordinate from }
    requires to { IsCoordinate to }
    ensures value { result ≡ to -ℤ from }
    ensures short { unsigned_abs result ≤ 1099999998 }
{
    to - from
}

/// The ray from one place to another.
fn ray_between(from: Point, to: Point) -> Ray
    requires from { IsPlace from }
    requires to { IsPlace to }
    ensures value { result ≡ ray (place from) (place to) }
    ensures short { IsShort result }
{
    (span(from.x, to.x), span(from.y, to.y))
}

/// The ray from an atom to another one.
pub fn ray_of(drawing: &[Point], a: AtomId, b: AtomId) -> Ray
    requires { ArePlaces drawing.now }
    ensures value { result ≡ ray_of drawing.now a.0 b.0 }
    ensures short { IsShort result }
{
    ray_between(place_of(drawing, a), place_of(drawing, b))
}
