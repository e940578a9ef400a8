// What every call of the project answers: a count, or a refusal.
ghost use Rattle.std.specs.Prelude.{◌≡◌, [], ◌∷◌};
ghost use Rattle.refal_ast.specs.Answers.{refusal};
ghost use Rattle.refal_ast.specs.Told.{reason_code, refusal_told};

use crate::kinds::TokenKind;
use std::fmt;

// Bytes of a source, the end exclusive.
#[derive(Clone, Copy, Debug, PartialEq, Eq)]
pub struct Span {
    pub start: usize,
    pub end: usize,
}

// Why a call is refused, by the numbers of documents 01 and 02.
#[derive(Clone, Copy, Debug, PartialEq, Eq)]
pub enum Reason {
    SourceTooLong = 1,
    IllFormed = 2,
    UnexpectedCharacter = 10,
    UnknownDirective = 11,
    IndexMissing = 12,
    IndexTooLong = 13,
    NameStart = 14,
    NameTooLong = 15,
    FractionMissing = 16,
    ExponentMissing = 17,
    SignedWhole = 18,
    MacrodigitTooLarge = 19,
    LiteralTooLong = 20,
    LiteralEmpty = 21,
    LiteralNewline = 22,
    LiteralUnclosed = 23,
    CommentUnclosed = 24,
    TokenRowsShort = 25,
    NoTokenRows = 30,
    DeclarationName = 31,
    ItemName = 32,
    CallName = 33,
    NoTerm = 34,
    OtherKind = 35,
    VariableLetter = 36,
    TooDeep = 37,
    NodeRowsShort = 38,
    NoTree = 40,
    NotSpelled = 41,
    TextTooLong = 42,
    OutputShort = 50,
    FunctionRepeated = 60,
    FunctionMissing = 61,
    VariableUnbound = 62,
    NoReal = 64,
    ExponentTooLong = 65,
    DigitsShort = 66,
}

impl From<Reason> for u32 {
    ghost from_gives = { λ reason number. number ≡ reason_code reason };

    fn from(reason: Reason) -> u32 {
        reason as u32
    }
}

// One of two files.
#[derive(Clone, Copy, Debug, PartialEq, Eq)]
pub enum File {
    One = 1,
    Two = 2,
}

// What a refusal finds: a token of a kind, or the file in which the fault is.
#[derive(Clone, Copy, Debug, PartialEq, Eq)]
pub enum Found {
    Token(TokenKind),
    File(File),
}

// A refusal: the token kind expected, what was found, the span shown, and how many rows or bytes would be needed. What 01 does
// not name for a reason is none or 0.
#[derive(Clone, Copy, Debug, PartialEq, Eq)]
pub struct Refusal {
    pub reason: Reason,
    pub expected: Option<TokenKind>,
    pub found: Option<Found>,
    pub span: Span,
    pub need: usize,
}

impl Refusal {
    // A refusal with a span and no more.
    pub fn at(reason: Reason, span: Span) -> Refusal
        ensures { refusal_told result ≡ refusal (reason_code reason) 0 0 span.start span.end 0 }
    {
        Refusal {
            reason,
            expected: None,
            found: None,
            span,
            need: 0,
        }
    }

    // A refusal with a need and no more.
    pub fn needing(reason: Reason, need: usize) -> Refusal
        ensures { refusal_told result ≡ refusal (reason_code reason) 0 0 0 0 need }
    {
        Refusal {
            reason,
            expected: None,
            found: None,
            span: Span { start: 0, end: 0 },
            need,
        }
    }

    // The numbers of what was expected and found, 0 for none.
    pub fn expected_code(self) -> u32
        ensures { result ≡ (refusal_told self).expected }
    {
        self.expected.map_or(0, u32::from)
    }

    pub fn found_code(self) -> u32
        ensures { result ≡ (refusal_told self).found }
    {
        match self.found {
            None => 0,
            Some(Found::Token(kind)) => u32::from(kind),
            Some(Found::File(file)) => file as u32,
        }
    }
}

// A refusal by its reason alone.
impl From<Reason> for Refusal {
    ghost from_gives = { λ reason r. refusal_told r ≡ refusal (reason_code reason) 0 0 0 0 0 };

    fn from(reason: Reason) -> Refusal {
        Refusal::needing(reason, 0)
    }
}

// The line that programs print: `refused`, the number, the span.
impl fmt::Display for Refusal {
    fn fmt<W: fmt::Write>(&self, f: &mut fmt::Formatter<W>) -> fmt::Result {
        write!(
            f,
            "refused {} {} {}",
            u32::from(self.reason),
            self.span.start,
            self.span.end
        )
    }
}
