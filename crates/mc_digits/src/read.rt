ghost use Rattle.std.specs.Prelude.{◌≡◌, ◌<◌, ◌^◌, ◌↔◌, ℤ, IfSome, IsNone};
ghost use Rattle.std.specs.List.{list_all};
ghost use Rattle.mc_digits.specs.Fields.{is_blank, IsCount, IsFixed};
ghost use Rattle.mc_digits.specs.Fronts.{skip_blanks, sign_front, signed_value, digits_front, count_of, weighted, fraction_front, fixed_of};
ghost use Rattle.mc_digits.specs.Views.{digits_view};

/// The most digits of a field before its point.
const MOST_DIGITS: usize = 12;

fn is_blank(byte: u8) -> bool
    ensures { result ≡ is_blank byte }
{
    byte == b' ' || byte == b'\t'
}

fn are_blanks(text: &[u8]) -> bool
    ensures { result ≡ list_all is_blank text.now }
{
    text.iter().all(|byte| is_blank(*byte))
}

fn skip_blanks(text: &[u8]) -> &[u8]
    ensures { result.now ≡ skip_blanks text.now }
{
    for (i, byte) in text.iter().enumerate() {
        if !is_blank(*byte) {
            return &text[i..];
        }
    }
    &[]
}

/// Whether a minus stands at the front, and what is behind the sign.
fn sign_front(text: &[u8]) -> (bool, &[u8])
    ensures value { result.0 ≡ (sign_front text.now).0 }
    ensures rest { result.1.now ≡ (sign_front text.now).1 }
{
    match text {
        [b'-', rest @ ..] => (true, rest),
        [b'+', rest @ ..] => (false, rest),
        _ => (false, text),
    }
}

fn signed(negative: bool, amount: u64) -> i64
    requires { amount < 2 ^ 63 }
    ensures { result ≡ signed_value negative amount }
{
    if negative {
        -(amount as i64)
    } else {
        amount as i64
    }
}

/// The digits at the front: their value, their number, and what is behind them.
fn digits_front(text: &[u8]) -> Option<(u64, usize, &[u8])>
    ensures value { digits_view result ≡ digits_front 0 0 text.now }
    ensures small { IfSome result (λ digits. digits.0 < 10 ^ 12) }
{
    let mut value = 0u64;
    for (i, byte) in text.iter().enumerate() {
        if !byte.is_ascii_digit() {
            return Some((value, i, &text[i..]));
        }
        if i == MOST_DIGITS {
            return None;
        }
        value = value * 10 + u64::from(*byte - b'0');
    }
    Some((value, text.len(), &[]))
}

/// The whole number of a field: blanks, a sign or none, 1 to 12 digits, and blanks; 0 of blanks alone.
pub fn read_count(field: &[u8]) -> Option<i64>
    ensures exact { (value : ℤ) → (result ≡ Some value) ↔ IsCount value field.now }
    ensures none { IsNone result ↔ ((value : ℤ) → IsCount value field.now → ⊥) }
    ensures value { result ≡ count_of field.now }
{
    count_of(field)
}

fn count_of(field: &[u8]) -> Option<i64>
    ensures { result ≡ count_of field.now }
{
    let text = skip_blanks(field);
    if text.is_empty() {
        return Some(0);
    }
    let (negative, rest) = sign_front(text);
    let (amount, count, behind) = digits_front(rest)?;
    if count > 0 && are_blanks(behind) {
        Some(signed(negative, amount))
    } else {
        None
    }
}

/// The digits behind a point: the ten-thousandths that they write, their number, and what is behind
/// them.
fn weighted(text: &[u8]) -> (u64, usize, &[u8])
    ensures value { result.0 ≡ (weighted 1000 0 0 text.now).0 }
    ensures count { result.1 ≡ (weighted 1000 0 0 text.now).1 }
    ensures rest { result.2.now ≡ (weighted 1000 0 0 text.now).2 }
    ensures small { result.0 < 10000 }
{
    let mut weight = 1000u64;
    let mut value = 0u64;
    for (i, byte) in text.iter().enumerate() {
        if !byte.is_ascii_digit() {
            return (value, i, &text[i..]);
        }
        value += u64::from(*byte - b'0') * weight;
        weight /= 10;
    }
    (value, text.len(), &[])
}

fn fraction_front(text: &[u8]) -> (u64, usize, &[u8])
    ensures value { result.0 ≡ (fraction_front text.now).0 }
    ensures count { result.1 ≡ (fraction_front text.now).1 }
    ensures rest { result.2.now ≡ (fraction_front text.now).2 }
    ensures small { result.0 < 10000 }
{
    match text {
        [b'.', rest @ ..] => weighted(rest),
        _ => (0, 0, text),
    }
}

/// The number of a field in ten-thousandths: blanks, a sign or none, at most 12 digits, a point and
/// digits or none, one digit at least, and blanks; 0 of blanks alone. Digits behind the fourth behind
/// the point are cut.
pub fn read_fixed(field: &[u8]) -> Option<i64>
    ensures exact { (value : ℤ) → (result ≡ Some value) ↔ IsFixed value field.now }
    ensures none { IsNone result ↔ ((value : ℤ) → IsFixed value field.now → ⊥) }
    ensures value { result ≡ fixed_of field.now }
{
    fixed_of(field)
}

fn fixed_of(field: &[u8]) -> Option<i64>
    ensures { result ≡ fixed_of field.now }
{
    let text = skip_blanks(field);
    if text.is_empty() {
        return Some(0);
    }
    let (negative, rest) = sign_front(text);
    let (whole, count, behind) = digits_front(rest)?;
    let (fraction, more, behind) = fraction_front(behind);
    if (count > 0 || more > 0) && are_blanks(behind) {
        Some(signed(negative, whole * 10_000 + fraction))
    } else {
        None
    }
}

#[cfg(test)]
mod tests {
    use super::*;

    #[test]
    fn counts(rt: HostRuntime) {
        assert_eq!(rt; read_count(b"   "), Some(0));
        assert_eq!(rt; read_count(b""), Some(0));
        assert_eq!(rt; read_count(b" 12"), Some(12));
        assert_eq!(rt; read_count(b"\t-7 "), Some(-7));
        assert_eq!(rt; read_count(b"999999999999"), Some(999_999_999_999));
        assert_eq!(rt; read_count(b"+000000000001"), Some(1));
        assert_eq!(rt; read_count(b"1000000000000"), None);
        assert_eq!(rt; read_count(b"7-"), None);
        assert_eq!(rt; read_count(b"1 2"), None);
        assert_eq!(rt; read_count(b"- 5"), None);
        assert_eq!(rt; read_count(b"+"), None);
    }

    #[test]
    fn fixed_points(rt: HostRuntime) {
        assert_eq!(rt; read_fixed(b"          "), Some(0));
        assert_eq!(rt; read_fixed(b"    1.2500"), Some(12_500));
        assert_eq!(rt; read_fixed(b"-9999.9999"), Some(-99_999_999));
        assert_eq!(rt; read_fixed(b"99999.9999"), Some(999_999_999));
        assert_eq!(rt; read_fixed(b"0.00019"), Some(1));
        assert_eq!(rt; read_fixed(b"5."), Some(50_000));
        assert_eq!(rt; read_fixed(b".5"), Some(5_000));
        assert_eq!(rt; read_fixed(b"-.5"), Some(-5_000));
        assert_eq!(rt; read_fixed(b"."), None);
        assert_eq!(rt; read_fixed(b"1e3"), None);
        assert_eq!(rt; read_fixed(b"1.5-"), None);
        assert_eq!(rt; read_fixed(b"1000000000000.0"), None);
    }
}
