// Reals as exact decimals: the normal form of a real's text, and whether two texts have one.
#![tactic(auto)]

mod digits;
mod exponent;
mod parts;

ghost use Rattle.std.specs.Prelude.{◌≡◌, ◌<◌, ◌≤◌, length};
ghost use Rattle.refal_ast.specs.Limits.{most_bytes};
ghost use Rattle.refal_ast.specs.Told.{told};
ghost use Rattle.refal_real.specs.Value.{num};
ghost use Rattle.refal_real.specs.Form.{normal};
ghost use Rattle.refal_real.specs.Real.{outcome, real_answer, real_digits, real_form, reals_equal};
ghost use Rattle.refal_real.specs.Told.{parts_told, signed_power, form_told, outcome_told, Fits};

use crate::digits::Digits;
use crate::parts::Parts;
use refal_ast::answers::{Reason, Refusal};

// A form: its sign, its power of ten and its digits.
#[derive(Clone, Copy, Debug, PartialEq)]
struct Form<'a> {
    minus: bool,
    power: i64,
    digits: Digits<'a>,
}

impl<'a> Form<'a> {
    // The form of a real by its parts and the value of its exponent. Zero has plus and power 0.
    fn new(parts: Parts<'a>, exponent: i64) -> Form<'a>
        requires value { exponent ≡ signed_power (parts_told parts).down (num (parts_told parts).exponent) }
        requires small { num (parts_told parts).exponent < 1000000000 }
        requires whole { length parts.digits.whole.now ≤ most_bytes }
        requires fraction { length parts.digits.fraction.now ≤ most_bytes }
        ensures { form_told result ≡ normal (parts_told parts.entry) }
    {
        let all = parts.digits;
        let trimmed = all.trim_end();
        let digits = trimmed.trim_start();
        if digits.is_empty() {
            return Form {
                minus: false,
                power: 0,
                digits,
            };
        }
        let zeros = all.len() - trimmed.len();
        let power = exponent + zeros as i64 - all.fraction.len() as i64;
        Form {
            minus: parts.minus,
            power,
            digits,
        }
    }
}

// A text's form.
fn parse(text: &[u8]) -> Result<Form<'_>, Reason>
    ensures { outcome_told result ≡ outcome text.now }
{
    let parts = parts::split(text).ok_or(Reason::NoReal)?;
    let exponent = exponent::value(parts.exponent).ok_or(Reason::ExponentTooLong)?;
    Ok(Form::new(parts, exponent))
}

// A text's form, if its digits fit into so many bytes.
fn fitting(text: &[u8], room: usize) -> Result<Form<'_>, Refusal>
    ensures { Fits (outcome text.now) room result }
{
    let form = parse(text)?;
    let need = form.digits.len();
    if room < need {
        return Err(Refusal::needing(Reason::DigitsShort, need));
    }
    Ok(form)
}

// The normal form of a real's text: its digits into the bytes lent, and its sign, its power's sign and magnitude. C lends both, so
// the form goes out in words.
pub fn normal_form(text: &[u8], digits: &mut [u8], form: &mut [u64; 3]) -> Result<usize, Refusal>
    ensures answer { told result ≡ real_answer text.now (length digits.old) }
    ensures left { digits.new ≡ real_digits text.now digits.old }
    ensures formed { form.new ≡ real_form text.now (length digits.old) }
{
    match fitting(text, digits.len()) {
        Ok(f) => {
            f.digits.put(digits);
            *form = [
                u64::from(f.minus),
                u64::from(f.power < 0),
                f.power.unsigned_abs(),
            ];
            Ok(f.digits.len())
        }
        Err(refusal) => {
            digits.fill(0);
            *form = [0; 3];
            Err(refusal)
        }
    }
}

// Whether two texts are reals of one normal form, so of one value: in one pass over each, and with no buffer.
pub fn reals_equal(a: &[u8], b: &[u8]) -> bool
    ensures { result ≡ reals_equal a.now b.now }
{
    // Where the first is no real, the second isn't looked at.
    let Ok(f) = parse(a) else {
        return false;
    };
    let Ok(g) = parse(b) else {
        return false;
    };
    f == g
}
