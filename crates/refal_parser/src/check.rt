// Check 30: whether the words are the rows of tokens that parsing takes.
ghost use Rattle.std.specs.Prelude.{◌≡◌, ◌≤◌, length, get_or};
ghost use Rattle.refal_ast.specs.Check.{good_fields, uses_detail, uses_text, well_formed};

use refal_ast::kinds::TokenKind;
use refal_ast::limits;
use refal_ast::tokens::WIDTH;

// A token for each byte of the longest source, and Eof.
const MOST_WORDS: usize = WIDTH * (limits::MOST_BYTES + 1);

// The kinds' numbers: the words are not yet known to be any.
const ENTRY: u32 = TokenKind::Entry as u32;

const IDENTIFIER: u32 = TokenKind::Identifier as u32;

const VARIABLE: u32 = TokenKind::Variable as u32;

const NUMBER: u32 = TokenKind::Number as u32;

const CHAR: u32 = TokenKind::Char as u32;

const SEMICOLON: u32 = TokenKind::Semicolon as u32;

const EOF: u32 = TokenKind::Eof as u32;

fn uses_text(kind: u32) -> bool
    ensures { result ≡ uses_text kind }
{
    matches!(kind, IDENTIFIER | VARIABLE | NUMBER)
}

fn uses_detail(kind: u32) -> bool
    ensures { result ≡ uses_detail kind }
{
    matches!(kind, VARIABLE | CHAR)
}

// Whether the unused fields of a row are 0, and a Variable's or Char's detail is a scalar value. Both tests of the detail are made before one is
// taken, and the rest goes by `&` and `|`, so that nothing branches: kinds come in no order that a processor could predict.
fn good_fields(row: &[u32; WIDTH]) -> bool
    ensures { result ≡ good_fields (get_or row.now 0 0) (get_or row.now 1 0) (get_or row.now 2 0) (get_or row.now 3 0) }
{
    let scalar = char::from_u32(row[1]).is_some();
    let zero = row[1] == 0;
    let detail = if uses_detail(row[0]) { scalar } else { zero };
    detail & (uses_text(row[0]) | ((row[2] == 0) & (row[3] == 0)))
}

// Whole rows, at most 16,777,217 of them; kinds 1 to 17, Eof exactly once and last; fields as their kinds use them. The loop has no
// way out in its middle and goes over rows of a known width, so that the compiler tests several at once.
pub fn check(tokens: &[u32]) -> bool
    ensures { result ≡ well_formed tokens.now }
{
    let n = tokens.len();
    if n % WIDTH != 0 || n > MOST_WORDS {
        return false;
    }
    let (rows, _) = tokens.as_chunks::<WIDTH>();
    let Some((last, before)) = rows.split_last() else {
        return false;
    };
    let mut good = true;
    for row in before {
        good &= (ENTRY <= row[0]) & (row[0] <= SEMICOLON) & good_fields(row);
    }
    good & (last[0] == EOF) & good_fields(last)
}
