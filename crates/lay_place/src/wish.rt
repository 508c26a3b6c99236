//! What the next atom's place must give.
ghost use Rattle.std.specs.Prelude.{◌≡◌, ◌<◌};
ghost use Rattle.lay_place.specs.Rows.{is_inside, same, shift, beside, parting};

/// Whether c stands between a and b in the row.
pub fn is_inside(a: u32, c: u32, b: u32) -> bool
    ensures { result ≡ is_inside a c b }
{
    (a < c && c < b) || (b < c && c < a)
}

pub fn same(s: bool, t: bool) -> bool
    ensures { result ≡ same s t }
{
    if s { t } else { !t }
}

/// What the place of the next atom must give. Places are those of the row as it stands.
#[derive(Clone, Copy)]
pub enum Wish {
    Anywhere,
    /// Between the two ends of a bond, or not.
    Beside { near: u32, far: u32, inside: bool },
    /// As the second end of a bond from `end`: exactly one of the two others stands between.
    Parting { end: u32, one: u32, other: u32 },
}

impl Wish {
    ghost use Rattle.std.specs.Prelude.{◌≡◌, ◌≤◌};
    ghost use Rattle.lay_place.specs.Wishes.{IsLow, meets, first_place};

    /// Whether an atom that is put in at this place stands as wished.
    pub fn is_met(self, place: u32) -> bool
        requires { IsLow self }
        ensures { result ≡ meets self place }
    {
        match self {
            Wish::Anywhere => true,
            Wish::Beside { near, far, inside } => {
                let stands = is_inside(shift(place, near), place, shift(place, far));
                same(stands, inside)
            }
            Wish::Parting { end, one, other } => {
                let first = is_inside(shift(place, end), shift(place, one), place);
                let second = is_inside(shift(place, end), shift(place, other), place);
                !same(first, second)
            }
        }
    }

    /// A place that meets it, in a row of so many atoms.
    pub fn first(self, count: u32) -> u32
        requires { IsLow self }
        ensures { result ≡ first_place self count }
    {
        match self {
            Wish::Anywhere => count,
            Wish::Beside { near, far, inside } => beside(near, far, inside),
            Wish::Parting { end, one, other } => parting(end, one, other),
        }
    }
}

/// Where an atom at place i stands once there is room at place k.
fn shift(k: u32, i: u32) -> u32
    requires { i < 4999 }
    ensures { result ≡ shift k i }
{
    if i < k { i } else { i + 1 }
}

/// The place directly at f, between f and p or not.
fn beside(f: u32, p: u32, inside: bool) -> u32
    requires { f < 4999 }
    ensures { result ≡ beside f p inside }
{
    if same(f < p, inside) { f + 1 } else { f }
}

/// The place from which f sees exactly one of two atoms on the way.
fn parting(f: u32, a: u32, b: u32) -> u32
    requires first { a < 4999 }
    requires second { b < 4999 }
    ensures { result ≡ parting f a b }
{
    let greater = if a < b { b } else { a };
    let lesser = if a < b { a } else { b };
    if greater < f {
        greater
    } else if f < lesser {
        lesser + 1
    } else {
        greater + 1
    }
}
