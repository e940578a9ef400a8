// Literals: first the end, then a row for each character.
ghost use Rattle.std.specs.Prelude.{◌≡◌, ◌+◌, ◌≤◌, ◌<◌, IfSome, length, drop, get_or};
ghost use Rattle.refal_text.specs.Told.{char_told};
ghost use Rattle.refal_text.specs.Utf8.{decode};
ghost use Rattle.refal_lexer.specs.Literals.{some as or_byte, lit_char, char_tokens};
ghost use Rattle.refal_lexer.specs.Puts.{put_tokens};
ghost use Rattle.refal_lexer.specs.Literals.{lit_from};
ghost use Rattle.refal_lexer.specs.Told.{step_told};
ghost use Rattle.refal_lexer.specs.Tokens.{literal_at};
ghost use Rattle.refal_lexer.specs.Steps.{step_of, rows_of, close_of, end_of};

use crate::start::Start;
use crate::{Cursor, Fault};
use refal_ast::answers::Reason;
use refal_ast::kinds::TokenKind;
use refal_ast::tokens::Token;
use refal_text::Char;

// How many characters a literal has at most.
const CHARS_MOST: usize = 255;

// The quote that a literal begins with, and ends.
#[derive(Clone, Copy, Debug, PartialEq, Eq)]
pub struct Quote {
    pub byte: u8,
    ghost some: { 0 < byte },
}

impl Quote {
    // The character at i of a literal in these quotes, none at the close: the quote doubled is one character, and a byte that is
    // no character counts as one.
    // Inlined: its answer would go through memory.
    #[inline(always)]
    fn lit_char(self, src: &[u8], i: usize) -> Option<Char>
        requires { i < length src.now }
        ensures told { char_told result ≡ lit_char self.byte (drop i src.now) }
        ensures within { IfSome result (λ c. (1 ≤ c.len) × (i + c.len ≤ length src.now)) }
    {
        let b = src[i];
        if b == self.byte {
            let doubled = refal_text::byte(src, i + 1) == self.byte;
            return doubled.then_some(Char {
                code: u32::from(b),
                len: 2,
            });
        }
        // The commonest by far: no call.
        if b.is_ascii() {
            return Some(Char {
                code: u32::from(b),
                len: 1,
            });
        }
        Some(wide(src, i))
    }
}

// The character at i, past U+007F; a byte that is no character counts as one.
#[inline(never)]
fn wide(src: &[u8], i: usize) -> Char
    requires { i < length src.now }
    ensures { (result ≡ or_byte (decode (drop i src.now))) × (1 ≤ result.len) × (i + result.len ≤ length src.now) }
{
    refal_text::decode(src, i).unwrap_or(Char { code: 0, len: 1 })
}

impl Start<'_> {
    // Behind the close of the literal at row `row`, of n characters and len bytes.
    fn close(self, row: usize, n: usize, len: usize) -> Result<Cursor, Fault>
        requires { (len ≤ length self.src.now) × (row + n ≤ 16777216) }
        ensures { step_told result ≡ close_of self.entry.at row n len }
    {
        match n {
            0 => Err(self.over(Reason::LiteralEmpty, len)),
            1..=CHARS_MOST => Ok(Cursor::behind(self.at + len, row + n)),
            _ => Err(self.over(Reason::LiteralTooLong, len)),
        }
    }

    // Behind the literal at row `row`, or its refusal.
    fn behind(self, row: usize, quote: Quote) -> Result<Cursor, Fault>
        requires { row ≤ self.at }
        ensures { step_told result ≡ end_of self.entry.at row (lit_from quote.byte 0 1 0 (drop 1 self.entry.src.now)) }
    {
        // By index: a step is a character, of one byte to four or a doubled quote, and the bytes need not be UTF-8 here.
        let mut i = 1;
        let mut n = 0;
        while i < self.src.len() {
            let Some(x) = quote.lit_char(self.src, i) else {
                return self.close(row, n, i + 1);
            };
            if self.src[i] == b'\n' {
                return Err(self.over(Reason::LiteralNewline, i + 1));
            }
            i += x.len;
            n += 1;
        }
        Err(self.over(Reason::LiteralUnclosed, i))
    }

    // A row for each character of the literal, from row n on; its span ends at `end`.
    fn put_chars(self, end: usize, quote: Quote, rows: &mut [u32], n: usize)
        requires { (n ≤ self.at) × (end ≤ 16777216) }
        ensures { rows.new ≡ put_tokens rows.old n (char_tokens quote.byte self.entry.at end 0 (drop 1 self.entry.src.now)) }
    {
        // By index, as above.
        let mut i = 1;
        let mut k = n;
        while i < self.src.len() {
            let Some(c) = quote.lit_char(self.src, i) else {
                return;
            };
            let token = Token {
                kind: TokenKind::Char,
                detail: c.code,
                start: 0,
                len: 0,
                from: self.at as u32,
                to: end as u32,
            };
            token.put(rows, k);
            i += c.len;
            k += 1;
        }
    }

    // The literal puts its rows from `row` on.
    pub fn literal(self, row: usize, quote: Quote, rows: &mut [u32]) -> Result<Cursor, Fault>
        requires { (row ≤ self.at) × (quote.byte ≡ get_or self.src.now 0 0) }
        ensures value { step_told result ≡ step_of (literal_at self.entry.at self.entry.src.now) row }
        ensures rows_after { rows.new ≡ rows_of (literal_at self.entry.at self.entry.src.now) rows.old row }
    {
        let scanned = self.behind(row, quote);
        let Ok(next) = scanned else {
            // As in `put_next`: the fault goes on in the scan's own answer.
            return scanned;
        };
        self.put_chars(next.at, quote, rows, row);
        Ok(next)
    }
}
