// The lexer: from the bytes of a source to the rows of its tokens.
#![tactic(auto)]

ghost use Rattle.std.specs.Prelude.{◌≡◌, false, ◌+◌, ◌≤◌, ◌<◌, IfOk, length};
ghost use Rattle.refal_ast.specs.Answers.{refusal};
ghost use Rattle.refal_rows.specs.Rows.{put_row};
ghost use Rattle.refal_ast.specs.Rows.{token_told};
ghost use Rattle.refal_ast.specs.Tokens.{token_width, words};
ghost use Rattle.refal_ast.specs.Told.{told, reason_code, refusal_told};
ghost use Rattle.refal_lexer.specs.Lex.{stop_answer};
ghost use Rattle.refal_lexer.specs.Puts.{put_tokens};
ghost use Rattle.refal_lexer.specs.Tokens.{token_at};
ghost use Rattle.refal_lexer.specs.Told.{step_told};
ghost use Rattle.refal_lexer.specs.Steps.{cursor, step_of, rows_of};
ghost use Rattle.refal_lexer.specs.Source.{source};
ghost use Rattle.refal_lexer.specs.Read.{read_answer, read_rows};

mod blank;
pub mod class;
mod literal;
pub mod number;
mod runs;
mod start;
mod token;
mod word;

use crate::class::Class;
use crate::literal::Quote;
use crate::start::{Rest, Start};
use refal_ast::answers::{Reason, Refusal, Span};
use refal_ast::kinds::TokenKind;
use refal_ast::limits::MOST_BYTES;
use refal_ast::tokens::{Token, WIDTH};

// Why a token is refused, and where.
#[derive(Clone, Copy, Debug, PartialEq, Eq)]
pub struct Fault {
    pub reason: Reason,
    pub span: Span,
}

impl Fault {
    ghost use Rattle.refal_lexer.specs.Scans.{Bad};
    ghost use Rattle.refal_lexer.specs.Told.{fault_told};

    // A fault whose span is the len bytes at `at`.
    #[inline(always)]
    fn over(reason: Reason, at: usize, len: usize) -> Fault
        requires { at + len ≤ 16777216 }
        ensures { fault_told result ≡ Bad (reason_code reason) at (at + len) }
    {
        Fault {
            reason,
            span: Span {
                start: at,
                end: at + len,
            },
        }
    }
}

impl From<Fault> for Refusal {
    ghost from_gives = { λ fault r. refusal_told r ≡ refusal (reason_code fault.reason) 0 0 fault.span.start fault.span.end 0 };

    fn from(fault: Fault) -> Refusal {
        Refusal::at(fault.reason, fault.span)
    }
}

// Where reading stands: the offset, the next row, and whether a star would start a comment there.
#[derive(Clone, Copy, Debug, PartialEq, Eq)]
pub struct Cursor {
    pub at: usize,
    pub row: usize,
    pub line: bool,
}

impl Cursor {
    // Behind a token or more: no blanks have passed.
    fn behind(at: usize, row: usize) -> Cursor
        ensures { result ≡ cursor at row false }
    {
        Cursor {
            at,
            row,
            line: false,
        }
    }
}

// A token puts its row, and reading goes on behind it.
fn put(token: Token, row: usize, rows: &mut [u32]) -> Cursor
    requires { row ≤ 16777216 }
    ensures cursor { result ≡ cursor token.to (row + 1) false }
    ensures rows_after { rows.new ≡ put_row token_width rows.old row (words (token_told token)) }
{
    token.put(rows, row);
    Cursor::behind(token.to as usize, row + 1)
}

// The token at the start puts its row or rows, from `row` on.
fn put_next(start: Start, row: usize, rows: &mut [u32]) -> Result<Cursor, Fault>
    requires { row ≤ start.at }
    ensures value { step_told result ≡ step_of (token_at start.entry.at start.entry.src.now) row }
    ensures rows_after { rows.new ≡ rows_of (token_at start.entry.at start.entry.src.now) rows.old row }
{
    let here = Cursor::behind(start.at, row);
    let first = start.first();
    let class = Class::of(first);
    match class {
        Class::Quote => start.literal(row, Quote { byte: first }, rows),
        // The two commonest stand apart from the rest, whose scan's answer goes through memory.
        Class::Single(kind) => Ok(put(start.bare(kind, 1), row, rows)),
        Class::Upper => {
            let scanned = start.name();
            let Ok(token) = scanned else {
                // 01 asks for `let .. else` at each caller of a scan. It binds no fault, so the scan's own answer goes on.
                return scanned.map(|_| here);
            };
            Ok(put(token, row, rows))
        }
        _ => {
            let scanned = start.scan(class);
            let Ok(token) = scanned else {
                return scanned.map(|_| here);
            };
            Ok(put(token, row, rows))
        }
    }
}

// Blanks, then a token, to the end.
fn lex(src: &[u8], rows: &mut [u32]) -> Result<usize, Refusal>
    requires { length src.now ≤ 16777216 }
    ensures value { told result ≡ stop_answer (source src.now) }
    ensures rows_after { rows.new ≡ put_tokens rows.old 0 (source src.now).tokens }
{
    let all = Rest { src, at: 0 };
    let mut c = Cursor {
        at: 0,
        row: 0,
        line: true,
    };
    loop {
        let place = all.from(c.at).blanks(c.line)?;
        let rest = all.from(place.at);
        let Some(start) = rest.start() else {
            rest.eof().put(rows, c.row);
            return Ok(c.row + 1);
        };
        // No scan's answer but a cursor, so `?`, which makes the fault a refusal.
        c = put_next(start, c.row, rows)?;
    }
}

// The number of the source's tokens, whose rows are put as far as they fit, or the first refusal.
fn lex_within(src: &[u8], rows: &mut [u32]) -> Result<usize, Refusal>
    ensures value { told result ≡ read_answer src.now (length rows.old) }
    ensures rows_after { IfOk result (λ n. rows.new ≡ read_rows src.now rows.old) }
{
    if src.len() > MOST_BYTES {
        return Err(Refusal::from(Reason::SourceTooLong));
    }
    if let Some(ill) = refal_text::ill_formed(src) {
        return Err(Refusal::at(
            Reason::IllFormed,
            Span {
                start: ill,
                end: ill,
            },
        ));
    }
    let count = lex(src, rows)?;
    if count > rows.len() / WIDTH {
        return Err(Refusal::needing(Reason::TokenRowsShort, count));
    }
    Ok(count)
}

// The rows of the source's tokens, or the first refusal, with every word of `rows` zero.
pub fn read(src: &[u8], rows: &mut [u32]) -> Result<usize, Refusal>
    ensures value { told result ≡ read_answer src.now (length rows.old) }
    ensures rows_after { rows.new ≡ read_rows src.now rows.old }
{
    let count = lex_within(src, rows);
    if count.is_err() {
        rows.fill(0);
    }
    count
}
