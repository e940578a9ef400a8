// The parts of a real's text.
ghost use Rattle.refal_real.specs.Told.{Splits};

use crate::digits::Digits;
use refal_ast::limits;
use refal_lexer::{class, number};

// A real's sign, its digits before and behind the point, and its exponent: an E, a sign or none and digits, or nothing.
#[derive(Clone, Copy, Debug, PartialEq)]
pub struct Parts<'a> {
    pub minus: bool,
    pub digits: Digits<'a>,
    pub exponent: &'a [u8],
}

// The parts of a real that reading gives: a Number with a point or an E.
pub fn split(text: &[u8]) -> Option<Parts<'_>>
    ensures { Splits text.now result }
{
    if limits::MOST_BYTES < text.len() {
        return None;
    }
    let sign = refal_text::byte(text, 0);
    let from = usize::from(class::is_sign(sign));
    let whole = number::digits(text, from).end;
    if whole == from {
        return None;
    }
    let to = number::fraction(text, whole).ok()?;
    let end = number::power(text, to).ok()?;
    if end == whole || end < text.len() {
        return None;
    }
    let digits = Digits {
        whole: &text[from..whole],
        fraction: &text[(whole + 1).min(to)..to],
    };
    Some(Parts {
        minus: sign == b'-',
        digits,
        exponent: &text[to..],
    })
}
