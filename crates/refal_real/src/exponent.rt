// An exponent: its sign and its value.
ghost use Rattle.std.specs.Prelude.{◌≡◌, ◌≤◌, length};
ghost use Rattle.refal_lexer.specs.Numbers.{exponent_at};
ghost use Rattle.refal_real.specs.Parts.{down_at, exponent_digits};
ghost use Rattle.refal_real.specs.Value.{num};
ghost use Rattle.refal_real.specs.Tens.{Digits};
ghost use Rattle.refal_real.specs.Found.{scale_of};
ghost use Rattle.refal_real.specs.Told.{exponent_of};

use crate::digits::trim_start;
use refal_lexer::class;

// How many digits an exponent has at most, leading zeros aside.
const MOST_DIGITS: usize = 9;

// The number that digits make.
fn number(digits: &[u8]) -> u32
    requires { (length digits.now ≤ 9) × Digits digits.now }
    ensures { result ≡ num digits.now }
{
    let mut value = 0;
    for &digit in digits {
        value = 10 * value + u32::from(digit - b'0');
    }
    value
}

// The value of what stands behind a real's digits, an exponent or nothing; none where its digits are too many.
pub fn value(exponent: &[u8]) -> Option<i64>
    requires { (exponent_at 0 exponent.now).end ≡ length exponent.now }
    ensures { result ≡ exponent_of (scale_of (down_at exponent.now) (exponent_digits exponent.now)) }
{
    if exponent.is_empty() {
        return Some(0);
    }
    let sign = refal_text::byte(exponent, 1);
    let digits = trim_start(&exponent[1 + usize::from(class::is_sign(sign))..]);
    if digits.len() > MOST_DIGITS {
        return None;
    }
    let by = i64::from(number(digits));
    let down = sign == b'-';
    Some(if down { -by } else { by })
}
