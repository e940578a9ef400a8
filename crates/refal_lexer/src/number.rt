// Numbers. The parts of one are scanned by their place in the bytes lent, and not over the bytes from there on: the definitions' places are those of
// the whole, and each caller would add them again.
ghost use Rattle.std.specs.Prelude.{◌≡◌, true, ◌+◌, ◌-◌, ◌*◌, ◌≤◌, ◌<◌, length, drop, get_or};
ghost use Rattle.refal_text.specs.Span.{span};
ghost use Rattle.refal_lexer.specs.Classes.{digit};
ghost use Rattle.refal_lexer.specs.NumberLaws.{worth, digit_step, fit};
ghost use Rattle.refal_lexer.specs.Told.{part_told, scan_told};
ghost use Rattle.refal_lexer.specs.Numbers.{macrodigit, part, sign_bytes, point_at, exponent_at, number_scan};

use crate::Fault;
use crate::class::is_sign;
use crate::runs::run_end;
use crate::start::{Start, whole};
use refal_ast::answers::Reason;
use refal_ast::kinds::TokenKind;
use refal_ast::tokens::Token;

// Where a run of digits ends, and what it is worth, or some number above 4294967295 where it is worth more.
#[derive(Clone, Copy, Debug, PartialEq, Eq)]
pub struct Whole {
    pub end: usize,
    pub worth: u64,
}

impl Whole {
    // What the digits are worth: none where that is more than 4294967295.
    #[inline(always)]
    pub fn macrodigit(self) -> Option<u32>
        ensures { result ≡ fit self.worth }
    {
        u32::try_from(self.worth).ok()
    }
}

// No digit stands in the part that ends here.
#[derive(Clone, Copy, Debug, PartialEq, Eq)]
pub struct Bare {
    pub end: usize,
}

// What digits that are worth v are worth with the digit b behind. Past 4294967295 the count stays where it is: that it is more is all that is asked then, and
// a comparison costs less than a product and a sum that are tested.
fn with_digit(v: u64, b: u8) -> u64
    requires { digit b ≡ true }
    ensures { result ≡ digit_step v b }
{
    if v > u64::from(u32::MAX) {
        return v;
    }
    v * 10 + u64::from(b - b'0')
}

// The digits at `at`.
pub fn digits(src: &[u8], at: usize) -> Whole
    requires { at ≤ length src.now }
    ensures end { result.end ≡ at + span digit (drop at src.now) }
    ensures within { result.end ≤ length src.now }
    ensures worth { result.worth ≡ worth 0 (drop at src.now) }
    ensures macrodigit { fit result.worth ≡ macrodigit (drop at src.now) }
{
    // By index, in one pass, since the end and the worth come together: `run_end` and then a fold over the run proves too, goes over it twice, and reads
    // numbers at four fifths of the speed.
    let mut end = at;
    let mut worth = 0u64;
    while end < src.len() && src[end].is_ascii_digit() {
        worth = with_digit(worth, src[end]);
        end += 1;
    }
    Whole { end, worth }
}

// Where the digits of a part start: at `at`, or behind a sign there, if the part is signed. A flag: it says what the part is, and a
// closure for one test would say no more.
fn past_sign(src: &[u8], at: usize, signed: bool) -> usize
    requires { at ≤ length src.now }
    ensures { (result ≡ at + sign_bytes signed (drop at src.now)) × (at ≤ result) × (result ≤ length src.now) }
{
    if signed && is_sign(refal_text::byte(src, at)) {
        return at + 1;
    }
    at
}

// The end of the part at `at` that `mark` begins; no part ends where it would start. If it is signed, one sign may stand before its digits.
fn marked(src: &[u8], at: usize, mark: u8, signed: bool) -> Result<usize, Bare>
    requires inside { at ≤ length src.now }
    requires some { 0 < mark }
    ensures part { part_told result ≡ part mark signed at (drop at src.now) }
    ensures from { at ≤ (part_told result).end }
    ensures to { (part_told result).end ≤ length src.now }
{
    if refal_text::byte(src, at) != mark {
        return Ok(at);
    }
    let first = past_sign(src, at + 1, signed);
    let end = run_end(src, first, |b| b.is_ascii_digit());
    if end == first {
        Err(Bare { end })
    } else {
        Ok(end)
    }
}

// The end of a point and digits.
pub fn fraction(src: &[u8], at: usize) -> Result<usize, Bare>
    requires { at ≤ length src.now }
    ensures part { part_told result ≡ point_at at src.now }
    ensures from { at ≤ (part_told result).end }
    ensures to { (part_told result).end ≤ length src.now }
{
    marked(src, at, b'.', false)
}

// The end of an E, a sign or none, and digits.
pub fn power(src: &[u8], at: usize) -> Result<usize, Bare>
    requires { at ≤ length src.now }
    ensures part { part_told result ≡ exponent_at at src.now }
    ensures from { at ≤ (part_told result).end }
    ensures to { (part_told result).end ≤ length src.now }
{
    marked(src, at, b'E', true)
}

// The number at the front of src, whose offset is `at`; its digits start at `from`: 1 behind a sign, else 0.
// Inlined: its answer would go through memory.
#[inline(always)]
pub fn number(src: &[u8], at: usize, from: usize) -> Result<Token, Fault>
    requires { (from ≤ length src.now) × (at + length src.now ≤ 16777216) }
    ensures { scan_told result ≡ number_scan at from src.now }
{
    let digits = digits(src, from);
    let to = fraction(src, digits.end).map_err(|bare| Fault::over(
        Reason::FractionMissing,
        at,
        bare.end,
    ))?;
    let len = power(src, to).map_err(|bare| Fault::over(Reason::ExponentMissing, at, bare.end))?;
    // With neither point nor E it has no sign, and is a macrodigit.
    if len == digits.end {
        if from > 0 {
            return Err(Fault::over(Reason::SignedWhole, at, len));
        }
        if digits.macrodigit().is_none() {
            return Err(Fault::over(Reason::MacrodigitTooLarge, at, len));
        }
    }
    Ok(whole(TokenKind::Number, at, len))
}

impl Start<'_> {
    // The number whose digits start at `from`.
    #[inline(always)]
    pub fn number(self, from: usize) -> Result<Token, Fault>
        requires { from ≤ length self.src.now }
        ensures { scan_told result ≡ number_scan self.entry.at from self.entry.src.now }
    {
        number(self.src, self.at, from)
    }
}
