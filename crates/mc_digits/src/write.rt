ghost use Rattle.std.specs.Prelude.{◌≡◌, ◌++◌, ◌+◌, ◌<◌, ◌≤◌, ◌^◌, codes, decimal, length, take, replicate, unsigned_abs, ℕ, ℤ, OnOk, OnErr};
ghost use Rattle.mc_digits.specs.Fronts.{count_of, fixed_of};
ghost use Rattle.std.specs.Fmt.{signed_decimal};
ghost use Rattle.mc_digits.specs.Written.{right_aligned, four_digits, sign_text, fixed_text};

use itoa::Buffer;
use mc_base::{NoMemory, Text};

/// Adds the digits of a number; where memory runs out nothing is added. Numbers of one and of two digits, which
/// are most of those that are written, are made in place.
#[inline]
#[tactic(auto, using(crate::proofs::Decimals::decimal_digit, crate::proofs::Decimals::decimal_two))]
pub fn put_number(out: &mut Text, n: u64) -> Result<(), NoMemory>
    ensures ok { OnOk result (out.new ≡ out.old ++ decimal n) }
    ensures err { OnErr result (out.new ≡ out.old) }
{
    if n < 10 {
        return out.push(b'0' + n as u8);
    }
    if n < 100 {
        let digits = [b'0' + (n / 10) as u8, b'0' + (n % 10) as u8];
        return out.extend(&digits);
    }
    put_long(out, n)
}

/// The same of any number. It stays out of line, so that `put_number` is short where it is called.
#[inline(never)]
fn put_long(out: &mut Text, n: u64) -> Result<(), NoMemory>
    ensures ok { OnOk result (out.new ≡ out.old ++ decimal n) }
    ensures err { OnErr result (out.new ≡ out.old) }
{
    let mut buffer = Buffer::new();
    out.extend(buffer.format(n).as_bytes())
}

/// Adds so many spaces, or some of them.
#[tactic(auto, using(crate::proofs::Spaces::one_more, crate::proofs::Spaces::front_stays))]
fn push_spaces(out: &mut Text, count: usize) -> Result<(), NoMemory>
    ensures ok { OnOk result (out.new ≡ out.old ++ replicate count 32) }
    ensures err { OnErr result (take (length out.old) out.new ≡ out.old) }
{
    for _ in 0..count {
        out.push(b' ')?;
    }
    Ok(())
}

/// Adds a text behind the spaces that fill it up to a width, or some of it.
fn push_aligned(out: &mut Text, text: &[u8], width: u32) -> Result<(), NoMemory>
    ensures ok { OnOk result (out.new ≡ out.old ++ right_aligned width text.now) }
    ensures err { OnErr result (take (length out.old) out.new ≡ out.old) }
{
    push_spaces(out, (width as usize).saturating_sub(text.len()))?;
    out.extend(text)?;
    Ok(())
}

/// Adds a text behind the spaces that fill it up to a width, or nothing.
fn put_aligned(out: &mut Text, text: &[u8], width: u32) -> Result<(), NoMemory>
    ensures ok { OnOk result (out.new ≡ out.old ++ right_aligned width text.now) }
    ensures err { OnErr result (out.new ≡ out.old) }
{
    let before = out.len();
    match push_aligned(out, text, width) {
        Ok(()) => Ok(()),
        Err(NoMemory) => {
            out.truncate(before);
            Err(NoMemory)
        }
    }
}

/// Adds a whole number, right-aligned in a width, and whole where it is longer; where memory runs
/// out nothing is added.
pub fn put_count(out: &mut Text, n: i64, width: u32) -> Result<(), NoMemory>
    ensures ok { OnOk result (out.new ≡ out.old ++ right_aligned width (signed_decimal n)) }
    ensures err { OnErr result (out.new ≡ out.old) }
{
    let mut buffer = Buffer::new();
    put_aligned(out, buffer.format(n).as_bytes(), width)
}

/// A point and four digits.
fn point_and_digits(n: u16) -> [u8; 5]
    requires { n < 10000 }
    ensures { result ≡ codes "." ++ four_digits n }
{
    let digit = |n: u16| b'0' + (n % 10) as u8;
    [
        b'.',
        digit(n / 1000),
        digit(n / 100),
        digit(n / 10),
        digit(n),
    ]
}

/// Adds a sign, a whole part and a fraction behind the spaces that fill them up to a width, or some
/// of it.
fn push_parts(
    out: &mut Text,
    sign: &[u8],
    whole: &[u8],
    fraction: &[u8],
    width: u32,
) -> Result<(), NoMemory>
    requires { (length sign.now + length whole.now) + length fraction.now < 2 ^ 32 }
    ensures ok { OnOk result (out.new ≡ out.old ++ right_aligned width (sign.now ++ (whole.now ++ fraction.now))) }
    ensures err { OnErr result (take (length out.old) out.new ≡ out.old) }
{
    let length = sign.len() + whole.len() + fraction.len();
    push_spaces(out, (width as usize).saturating_sub(length))?;
    out.extend(sign)?;
    out.extend(whole)?;
    out.extend(fraction)?;
    Ok(())
}

fn sign_text(n: i64) -> &'static [u8]
    ensures value { result.now ≡ sign_text n }
    ensures short { length result.now ≤ 1 }
{
    if n < 0 { b"-" } else { b"" }
}

/// Adds a number of ten-thousandths with a point and four digits behind it, right-aligned in a width,
/// and whole where it is longer; where memory runs out nothing is added.
pub fn put_fixed(out: &mut Text, n: i64, width: u32) -> Result<(), NoMemory>
    ensures ok { OnOk result (out.new ≡ out.old ++ right_aligned width (fixed_text n)) }
    ensures err { OnErr result (out.new ≡ out.old) }
{
    let before = out.len();
    let amount = n.unsigned_abs();
    let mut buffer = Buffer::new();
    let whole = buffer.format(amount / 10_000).as_bytes();
    let fraction = point_and_digits((amount % 10_000) as u16);
    match push_parts(out, sign_text(n), whole, &fraction, width) {
        Ok(()) => Ok(()),
        Err(NoMemory) => {
            out.truncate(before);
            Err(NoMemory)
        }
    }
}

/// What is written is read back: counts of at most 12 digits, and fixed-point numbers with at most 12
/// digits before the point.
pub fn read_back_law()
    ensures count { (n : ℤ) (width : ℕ) → unsigned_abs n < 10 ^ 12 →
        count_of (right_aligned width (signed_decimal n)) ≡ Some n }
    ensures fixed { (n : ℤ) (width : ℕ) → unsigned_abs n < 10 ^ 16 →
        fixed_of (right_aligned width (fixed_text n)) ≡ Some n }
{}

#[cfg(test)]
mod tests {
    use super::*;
    use std::test::Fail;

    #[test]
    fn numbers(rt: HostRuntime) -> Result<(), Fail> {
        let mut out = Text::new(rt.alloc());
        put_number(&mut out, 0)?;
        put_number(&mut out, 9)?;
        put_number(&mut out, 10)?;
        put_number(&mut out, 99)?;
        put_number(&mut out, 100)?;
        put_number(&mut out, u64::MAX)?;
        assert_eq!(rt; out.as_slice(), b"09109910018446744073709551615".as_slice());
        Ok(())
    }

    #[test]
    fn counts(rt: HostRuntime) -> Result<(), Fail> {
        let mut out = Text::new(rt.alloc());
        put_count(&mut out, 7, 3)?;
        put_count(&mut out, -12, 4)?;
        put_count(&mut out, 1234, 2)?;
        assert_eq!(rt; out.as_slice(), b"  7 -121234".as_slice());
        Ok(())
    }

    #[test]
    fn fixed_points(rt: HostRuntime) -> Result<(), Fail> {
        let mut out = Text::new(rt.alloc());
        put_fixed(&mut out, 12_500, 10)?;
        put_fixed(&mut out, -5, 8)?;
        put_fixed(&mut out, 999_999_999, 3)?;
        assert_eq!(rt; out.as_slice(), b"    1.2500 -0.000599999.9999".as_slice());
        Ok(())
    }
}
