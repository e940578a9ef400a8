// Where the parser stands.
ghost use Rattle.refal_parser.specs.Ready.{Ready};

use crate::nodes::Extent;
use refal_ast::kinds::TokenKind;
use refal_ast::tokens::{Token, WIDTH};

// The tokens, the word where the next one begins, and the row that is put next. It goes by value: a part of the parser takes the
// place where it begins, and answers the one where it ends. Beside it go the rows, which are lent and can't be copied with it,
// and the levels left, which are as many at the end as at the start. How far rows may be ahead of tokens (`Few`) differs from part to
// part, so each part asks it and the place does not keep it.
#[derive(Clone, Copy, Debug, PartialEq, Eq)]
pub struct Place<'t> {
    pub tokens: &'t [u32],
    pub at: usize,
    pub row: usize,
    pub ghost ready: { Ready tokens.now at },
}

// What the rows of a part stand under: the row that is their parent, and how many more levels may open there.
#[derive(Clone, Copy, Debug, PartialEq, Eq)]
pub struct Level {
    pub parent: u32,
    pub left: usize,
}

impl<'t> Place<'t> {
    ghost use Rattle.std.specs.Prelude.{◌≡◌, ◌+◌, ◌≤◌, get_or};
    ghost use Rattle.refal_ast.specs.Kinds.{tok_eof};
    ghost use Rattle.refal_ast.specs.KindCodes.{token_code};
    ghost use Rattle.refal_parser.specs.Ready.{Ready, TokenAt, end_before};

    // The first token's.
    pub fn start(tokens: &'t [u32]) -> Place<'t>
        requires { Ready tokens.now 0 }
        ensures tokens { result.tokens.now ≡ tokens.now }
        ensures begins { (result.at ≡ 0) × (result.row ≡ 0) }
    {
        Place {
            tokens,
            at: 0,
            row: 0,
        }
    }

    // The next token's kind alone.
    pub fn kind(self) -> TokenKind
        ensures { token_code result ≡ get_or self.entry.tokens.now self.entry.at 0 }
    {
        TokenKind::try_from(self.tokens[self.at]).unwrap()
    }

    // The next token.
    pub fn token(self) -> Token
        ensures { TokenAt self.entry.tokens.now self.entry.at result }
    {
        let Place { tokens, at, .. } = self;
        Token {
            kind: self.kind(),
            detail: tokens[at + 1],
            start: tokens[at + 2],
            len: tokens[at + 3],
            from: tokens[at + 4],
            to: tokens[at + 5],
        }
    }

    // The place after the next token, with another row to be put.
    pub fn next(self, row: usize) -> Place<'t>
        requires { get_or self.tokens.now self.at 0 ≡ tok_eof → ⊥ }
        ensures { (ready : Ready self.entry.tokens.now (self.entry.at + 6)) × (result ≡ record { tokens = self.entry.tokens; at = self.entry.at + 6; row = row; ready = ready }) }
    {
        Place {
            tokens: self.tokens,
            at: self.at + WIDTH,
            row,
        }
    }

    // What a node under this parent covers that began at `from` and ends before the place.
    pub fn since(self, from: u32, parent: u32) -> Extent
        requires { (1 ≤ self.at) × (self.row ≤ 1073741824) }
        ensures { (few : self.entry.row ≤ 1073741824) × (result ≡ record { from = from; to = end_before self.entry.tokens.now self.entry.at; next = self.entry.row; parent = parent; few = few }) }
    {
        Extent {
            from,
            to: self.tokens[self.at - 1],
            next: self.row,
            parent,
        }
    }
}
