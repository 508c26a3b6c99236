ghost use Rattle.std.specs.Prelude.{◌≡◌, ◌≤◌, unsigned_abs, IfSome};
ghost use Rattle.mc_digits.specs.Fronts.{sign_front, signed_value};
ghost use Rattle.ct_v3000.specs.Numbers.{held, digits_from, unsigned_of, signed_of, at_most, minus_one, valence_of, value_of, held_amount, held_charge};

/// How the value of a key is written.
#[derive(Clone, Copy, Debug, PartialEq, Eq)]
pub enum Grammar {
    /// anything
    Any,
    Unsigned,
    Signed,
    /// 0 to 14, or -1
    Valence,
    /// 0 to 3
    Configuration,
}

/// Greater numbers stand as this one, which is beyond every index and every limit.
const GREATEST: u64 = 4_294_967_296;

fn held(n: u64) -> u64
    ensures { result ≡ held n }
{
    n.min(GREATEST)
}

/// The number that digits write.
#[tactic(auto, unfolding(crate::specs::Numbers::unsigned_of))]
pub fn unsigned(text: &[u8]) -> Option<u64>
    ensures value { result ≡ unsigned_of text.now }
    ensures held { IfSome result (λ n. n ≤ 4294967296) }
{
    if text.is_empty() {
        return None;
    }
    let mut value = 0u64;
    for byte in text {
        if !byte.is_ascii_digit() {
            return None;
        }
        value = held(value * 10 + u64::from(*byte - b'0'));
    }
    Some(value)
}

/// Whether a minus stands at the front, and what is behind the sign.
fn sign_front(text: &[u8]) -> (bool, &[u8])
    ensures value { result.0 ≡ (sign_front text.now).0 }
    ensures rest { result.1.now ≡ (sign_front text.now).1 }
{
    match text {
        [b'-', rest @ ..] => (true, rest),
        [b'+', rest @ ..] => (false, rest),
        _ => (false, text),
    }
}

fn signed_value(negative: bool, n: u64) -> i64
    requires { n ≤ 4294967296 }
    ensures { result ≡ signed_value negative n }
{
    if negative { -(n as i64) } else { n as i64 }
}

/// The number that a sign, or none, and digits write.
#[tactic(auto, unfolding(crate::specs::Numbers::signed_of))]
fn signed(text: &[u8]) -> Option<i64>
    ensures { result ≡ signed_of text.now }
{
    let (negative, digits) = sign_front(text);
    match unsigned(digits) {
        Some(n) => Some(signed_value(negative, n)),
        None => None,
    }
}

/// The number where it is at most so great.
fn at_most(most: u64, number: Option<u64>) -> Option<i64>
    requires { most ≤ 14 }
    ensures value { result ≡ at_most most number }
    ensures few { IfSome result (λ n. unsigned_abs n ≤ most) }
{
    match number {
        Some(n) if n <= most => Some(n as i64),
        _ => None,
    }
}

fn minus_one(number: Option<u64>) -> Option<i64>
    ensures value { result ≡ minus_one number }
    ensures few { IfSome result (λ n. unsigned_abs n ≤ 1) }
{
    match number {
        Some(1) => Some(-1),
        _ => None,
    }
}

fn valence(text: &[u8]) -> Option<i64>
    ensures value { result ≡ valence_of text.now }
    ensures few { IfSome result (λ n. unsigned_abs n ≤ 14) }
{
    match text {
        [] => None,
        [b'-', digits @ ..] => minus_one(unsigned(digits)),
        _ => at_most(14, unsigned(text)),
    }
}

impl Grammar {
    /// The number of a value, and 0 of one that may be anything; none where it isn't of the grammar.
    #[tactic(auto, unfolding(crate::specs::Numbers::value_of))]
    pub fn read(self, text: &[u8]) -> Option<i64>
        ensures value { result ≡ value_of self text.now }
        ensures valence { self ≡ Grammar.Valence → IfSome result (λ n. unsigned_abs n ≤ 14) }
        ensures configuration { self ≡ Grammar.Configuration → IfSome result (λ n. unsigned_abs n ≤ 3) }
    {
        match self {
            Grammar::Any => Some(0),
            Grammar::Unsigned => match unsigned(text) {
                Some(n) => Some(n as i64),
                None => None,
            },
            Grammar::Signed => signed(text),
            Grammar::Valence => valence(text),
            Grammar::Configuration => at_most(3, unsigned(text)),
        }
    }
}

/// The number as a table holds it.
pub fn held_amount(n: u64) -> u32
    ensures { result ≡ held_amount n }
{
    n.min(4_294_967_295) as u32
}

/// The charge as a table holds it.
pub fn held_charge(n: i64) -> i32
    ensures { result ≡ held_charge n }
{
    if n > 2_147_483_647 {
        i32::MAX
    } else if n < -2_147_483_648 {
        i32::MIN
    } else {
        n as i32
    }
}
