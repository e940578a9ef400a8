// The source from a place on, with that place's offset.
ghost use Rattle.std.specs.Prelude.{◌≡◌, ◌+◌, ◌≤◌, ◌<◌, length};
ghost use Rattle.refal_ast.specs.KindCodes.{token_code};
ghost use Rattle.refal_ast.specs.Rows.{token_told};
ghost use Rattle.refal_ast.specs.Tokens.{token};

use crate::Fault;
use refal_ast::answers::{Reason, Span};
use refal_ast::kinds::TokenKind;
use refal_ast::tokens::Token;

// What is left of a source.
#[derive(Clone, Copy, Debug, PartialEq, Eq)]
pub struct Rest<'a> {
    pub src: &'a [u8],
    pub at: usize,
    ghost short: { at + length src.now ≤ 16777216 },
}

// Where a token or a comment starts: a byte or more is left.
#[derive(Clone, Copy, Debug, PartialEq, Eq)]
pub struct Start<'a> {
    pub src: &'a [u8],
    pub at: usize,
    ghost some: { 0 < length src.now },
    ghost short: { at + length src.now ≤ 16777216 },
}

// A token of the len bytes at `at`, all of which are its text.
#[inline(always)]
pub fn whole(kind: TokenKind, at: usize, len: usize) -> Token
    requires { at + len ≤ 16777216 }
    ensures { token_told result ≡ token (token_code kind) 0 at len at (at + len) }
{
    Token {
        kind,
        detail: 0,
        start: at as u32,
        len: len as u32,
        from: at as u32,
        to: (at + len) as u32,
    }
}

impl<'a> Rest<'a> {
    ghost use Rattle.std.specs.Prelude.{◌≡◌, IfSome, IfNone, ◌-◌, drop};
    ghost use Rattle.refal_ast.specs.Kinds.{tok_eof};
    ghost use Rattle.refal_ast.specs.Rows.{token_told};
    ghost use Rattle.refal_ast.specs.Tokens.{token};

    // What is left from offset `at` on.
    #[inline(always)]
    pub fn from(self, at: usize) -> Rest<'a>
        requires { (self.at ≤ at) × (at ≤ self.at + length self.src.now) }
        ensures { (result.at ≡ at) × (result.src.now ≡ drop (at - self.entry.at) self.entry.src.now) }
    {
        Rest {
            src: &self.src[at - self.at..],
            at,
        }
    }

    // The start of what comes next, if anything does.
    #[inline(always)]
    pub fn start(self) -> Option<Start<'a>>
        ensures some { IfSome result (λ start. (start.src.now ≡ self.entry.src.now) × (start.at ≡ self.entry.at)) }
        ensures none { IfNone result (length self.entry.src.now ≡ 0) }
    {
        if self.src.is_empty() {
            return None;
        }
        Some(Start {
            src: self.src,
            at: self.at,
        })
    }

    // The token that stands at the end, and has no bytes.
    pub fn eof(self) -> Token
        ensures { token_told result ≡ token tok_eof 0 0 0 self.entry.at self.entry.at }
    {
        Token {
            kind: TokenKind::Eof,
            detail: 0,
            start: 0,
            len: 0,
            from: self.at as u32,
            to: self.at as u32,
        }
    }
}

impl Start<'_> {
    ghost use Rattle.std.specs.Prelude.{◌≡◌, get_or};
    ghost use Rattle.refal_ast.specs.KindCodes.{token_code};
    ghost use Rattle.refal_ast.specs.Rows.{token_told};
    ghost use Rattle.refal_ast.specs.Told.{reason_code};
    ghost use Rattle.refal_ast.specs.Tokens.{token};
    ghost use Rattle.refal_lexer.specs.Scans.{Bad};
    ghost use Rattle.refal_lexer.specs.Told.{fault_told};

    #[inline(always)]
    pub fn first(self) -> u8
        ensures { result ≡ get_or self.entry.src.now 0 0 }
    {
        self.src[0]
    }

    // The span of the first len bytes. A length is a number here and below: a type of its own, which kept that it is no more than the
    // bytes, would hold these once more.
    #[inline(always)]
    pub fn span(self, len: usize) -> Span
        requires { len ≤ length self.src.now }
        ensures { (result.start ≡ self.entry.at) × (result.end ≡ self.entry.at + len) }
    {
        Span {
            start: self.at,
            end: self.at + len,
        }
    }

    // A fault whose span is the first len bytes.
    #[inline(always)]
    pub fn over(self, reason: Reason, len: usize) -> Fault
        requires { len ≤ length self.src.now }
        ensures { fault_told result ≡ Bad (reason_code reason) self.entry.at (self.entry.at + len) }
    {
        Fault::over(reason, self.at, len)
    }

    // A token of the first len bytes, all of which are its text.
    #[inline(always)]
    pub fn whole(self, kind: TokenKind, len: usize) -> Token
        requires { len ≤ length self.src.now }
        ensures { token_told result ≡ token (token_code kind) 0 self.entry.at len self.entry.at (self.entry.at + len) }
    {
        whole(kind, self.at, len)
    }

    // A token of the first len bytes that has no text.
    #[inline(always)]
    pub fn bare(self, kind: TokenKind, len: usize) -> Token
        requires { len ≤ length self.src.now }
        ensures { token_told result ≡ token (token_code kind) 0 0 0 self.entry.at (self.entry.at + len) }
    {
        Token {
            kind,
            detail: 0,
            start: 0,
            len: 0,
            from: self.at as u32,
            to: (self.at + len) as u32,
        }
    }
}
