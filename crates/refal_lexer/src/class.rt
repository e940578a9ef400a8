// The classes of bytes: the class of a token's first byte decides how it is scanned.
ghost use Rattle.std.specs.Prelude.{◌≡◌, leb};
ghost use Rattle.refal_lexer.specs.SpaceLaws.{begins_blank};
ghost use Rattle.refal_lexer.specs.Told.{class_code, single_code};
ghost use Rattle.refal_lexer.specs.Classes.{class_of, name_byte, blank, sign, single_kind};

use refal_ast::kinds::TokenKind;

#[derive(Clone, Copy, Debug, PartialEq, Eq)]
pub enum Class {
    White,
    Wide,
    Star,
    Slash,
    Quote,
    Dollar,
    // A token of one byte.
    Single(TokenKind),
    Plus,
    Minus,
    Upper,
    Digit,
    Variable,
    Other,
    Nothing,
}

// The classes in two letters, for the table.
use Class::{
    Digit as DI, Dollar as DO, Minus as MI, Nothing as NO, Other as OT, Plus as PL, Quote as QU,
    Slash as SL, Star as ST, Upper as UP, Variable as VA, White as WH, Wide as WI,
};

const LB: Class = Class::Single(TokenKind::LBrace);

const RB: Class = Class::Single(TokenKind::RBrace);

const LP: Class = Class::Single(TokenKind::LParen);

const RP: Class = Class::Single(TokenKind::RParen);

const LA: Class = Class::Single(TokenKind::LAngle);

const RA: Class = Class::Single(TokenKind::RAngle);

const CO: Class = Class::Single(TokenKind::Comma);

const CL: Class = Class::Single(TokenKind::Colon);

const EQ: Class = Class::Single(TokenKind::Equals);

const SE: Class = Class::Single(TokenKind::Semicolon);

// The class of each byte. A table: a `match` takes 1.3 to 2.8 times as long, and misses the bar of 0.7 of the mark's speed.
static CLASSES: [Class; 256] = [
    NO, NO, NO, NO, NO, NO, NO, NO, NO, WH, WH, WH, WH, WH, NO, NO, NO, NO, NO, NO, NO, NO, NO, NO,
    NO, NO, NO, NO, NO, NO, NO, NO, WH, NO, QU, NO, DO, NO, NO, QU, LP, RP, ST, PL, CO, MI, NO, SL,
    DI, DI, DI, DI, DI, DI, DI, DI, DI, DI, CL, SE, LA, EQ, RA, NO, NO, UP, UP, UP, UP, UP, UP, UP,
    UP, UP, UP, UP, UP, UP, UP, UP, UP, UP, UP, UP, UP, UP, UP, UP, UP, UP, UP, NO, NO, NO, NO, OT,
    NO, OT, OT, OT, OT, VA, OT, OT, OT, OT, OT, OT, OT, OT, OT, OT, OT, OT, OT, VA, VA, OT, OT, OT,
    OT, OT, OT, LB, NO, RB, NO, NO, WI, WI, WI, WI, WI, WI, WI, WI, WI, WI, WI, WI, WI, WI, WI, WI,
    WI, WI, WI, WI, WI, WI, WI, WI, WI, WI, WI, WI, WI, WI, WI, WI, WI, WI, WI, WI, WI, WI, WI, WI,
    WI, WI, WI, WI, WI, WI, WI, WI, WI, WI, WI, WI, WI, WI, WI, WI, WI, WI, WI, WI, WI, WI, WI, WI,
    WI, WI, WI, WI, WI, WI, WI, WI, WI, WI, WI, WI, WI, WI, WI, WI, WI, WI, WI, WI, WI, WI, WI, WI,
    WI, WI, WI, WI, WI, WI, WI, WI, WI, WI, WI, WI, WI, WI, WI, WI, WI, WI, WI, WI, WI, WI, WI, WI,
    WI, WI, WI, WI, WI, WI, WI, WI, WI, WI, WI, WI, WI, WI, WI, WI,
];

impl Class {
    pub fn of(b: u8) -> Class
        ensures class { class_code result ≡ class_of b }
        ensures single { single_code result ≡ single_kind b }
    {
        CLASSES[usize::from(b)]
    }

    // Whether white space or a comment can begin with the bytes of the class.
    pub fn begins_blank(self) -> bool
        ensures { result ≡ begins_blank (class_code self) }
    {
        matches!(
            self,
            Class::White | Class::Wide | Class::Star | Class::Slash
        )
    }

    // Whether a name goes on over the bytes of the class.
    fn is_name(self) -> bool
        ensures { result ≡ leb 20 (class_code self) }
    {
        matches!(
            self,
            Class::Minus | Class::Upper | Class::Digit | Class::Variable | Class::Other
        )
    }
}

// Whether a name goes on over the byte.
pub fn is_name(b: u8) -> bool
    ensures { result ≡ name_byte b }
{
    Class::of(b).is_name()
}

// White space of one byte: std's test leaves out U+000B.
pub fn is_blank(b: u8) -> bool
    ensures { result ≡ blank b }
{
    matches!(b, b'\t'..=b'\r' | b' ')
}

// std has no test of it.
pub fn is_sign(b: u8) -> bool
    ensures { result ≡ sign b }
{
    matches!(b, b'+' | b'-')
}
