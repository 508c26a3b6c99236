//! From the row to the plane.
ghost use Rattle.std.specs.Prelude.{◌≡◌, ◌<◌, ◌≤◌};

use mc_mol::Point;

/// How far x and y are stretched.
#[derive(Clone, Copy)]
pub struct Stretch {
    wide: u64,
    high: u64,
}

impl Stretch {
    ghost use Rattle.std.specs.Prelude.{◌≡◌, ◌≤◌, ◌*◌};
    ghost use Rattle.lay_place.specs.Curve.{IsStretch, place_in, on_parabola};

    /// As far as the columns allow with so many atoms: x so much more than y that the row is about as wide as high.
    pub fn of(count: usize) -> Stretch
        requires { count ≤ 4999 }
        ensures { IsStretch count result.wide result.high }
    {
        let most = if count > 2 { count as u64 - 1 } else { 1 };
        let area = most * most;
        let high = if area <= 99_999 {
            10_000
        } else if area <= 999_999 {
            1_000
        } else if area <= 9_999_999 {
            100
        } else {
            10
        };
        Stretch {
            wide: high * most,
            high,
        }
    }

    /// The point of the place, in ten-thousandths. An atom without a place gets the first.
    pub fn point(self, slot: Option<u32>) -> Point
        requires wide { self.wide * place_in slot ≤ 999999999 }
        requires high { self.high * (place_in slot * place_in slot) ≤ 999999999 }
        requires square { place_in slot * place_in slot ≤ 999999999 }
        ensures { result ≡ on_parabola self.wide self.high (place_in slot) }
    {
        match slot {
            None => Point { x: 0, y: 0 },
            Some(place) => {
                let p = place as u64;
                Point {
                    x: (self.wide * p) as i64,
                    y: (self.high * (p * p)) as i64,
                }
            }
        }
    }
}
