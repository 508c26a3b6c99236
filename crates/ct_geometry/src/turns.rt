//! Rays and how they turn, by the signs of cross products.
ghost use Rattle.std.specs.Prelude.{◌≡◌, ◌≤◌, ◌*ℤ◌};
ghost use Rattle.std.specs.Int.RustNames.{unsigned_abs};
ghost use Rattle.ct_geometry.specs.Turns.{cross, dot, turn, sign, rank, is_positive, is_zero, have_one_direction, is_met_before, is_wide, is_middle};
ghost use Rattle.ct_geometry.specs.Bounds.{IsShort};

/// A ray from the atom that is looked at: x to the right and y upwards.
pub type Ray = (i64, i64);

/// Of two coordinates of rays.
fn product(a: i64, b: i64) -> i64
    requires a { unsigned_abs a ≤ 1099999998 }
    requires b { unsigned_abs b ≤ 1099999998 }
    ensures value { result ≡ a *ℤ b }
    ensures small { unsigned_abs result ≤ 1209999995600000004 }
{
    a * b
}

/// Positive where q stands anticlockwise from p by less than half a turn.
pub fn cross(p: Ray, q: Ray) -> i64
    requires p { IsShort p }
    requires q { IsShort q }
    ensures { result ≡ cross p q }
{
    product(p.0, q.1) - product(q.0, p.1)
}

/// Positive where two rays stand less than a quarter turn apart.
pub fn dot(p: Ray, q: Ray) -> i64
    requires p { IsShort p }
    requires q { IsShort q }
    ensures { result ≡ dot p q }
{
    product(p.0, q.0) + product(p.1, q.1)
}

/// From a ray, another one has rank 0 where the cross product is above 0, rank 1 where it is opposite, else rank 2.
fn rank(turn: i64) -> u8
    ensures { result ≡ rank (sign turn) }
{
    if turn > 0 {
        0
    } else if turn == 0 {
        1
    } else {
        2
    }
}

/// Whether q stands anticlockwise from p by less than half a turn.
fn is_left(p: Ray, q: Ray) -> bool
    requires p { IsShort p }
    requires q { IsShort q }
    ensures { result ≡ is_positive (turn p q) }
{
    cross(p, q) > 0
}

/// Whether p is met before q, turning anticlockwise from r.
pub fn is_met_before(r: Ray, p: Ray, q: Ray) -> bool
    requires r { IsShort r }
    requires p { IsShort p }
    requires q { IsShort q }
    ensures { result ≡ is_met_before r p q }
{
    let to_p = rank(cross(r, p));
    let to_q = rank(cross(r, q));
    to_p < to_q || (to_p == to_q && is_left(p, q))
}

/// Whether the gap after ray r, where p is met next, is half a turn or more.
pub fn is_wide(r: Ray, p: Ray) -> bool
    requires r { IsShort r }
    requires p { IsShort p }
    ensures { result ≡ is_wide r p }
{
    !is_left(r, p)
}

/// Whether q stands opposite to a gap of half a turn or more between the other two.
pub fn is_middle(p: Ray, q: Ray, r: Ray) -> bool
    requires p { IsShort p }
    requires q { IsShort q }
    requires r { IsShort r }
    ensures { result ≡ is_middle p q r }
{
    (is_wide(p, r) && is_met_before(p, r, q)) || (is_wide(r, p) && is_met_before(r, p, q))
}

/// Whether the ray leads to the point itself.
pub fn is_zero(p: Ray) -> bool
    ensures { result ≡ is_zero p }
{
    p.0 == 0 && p.1 == 0
}

/// Whether two rays have one direction.
pub fn have_one_direction(p: Ray, q: Ray) -> bool
    requires p { IsShort p }
    requires q { IsShort q }
    ensures { result ≡ have_one_direction p q }
{
    cross(p, q) == 0 && dot(p, q) > 0
}
