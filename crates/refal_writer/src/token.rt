// The writers of tokens that hold no text of the source: a token's spelling and one space.
ghost use Rattle.std.specs.Prelude.{◌≡◌, [], ◌∷◌, ◌++◌, ◌+◌, ◌≤◌};
ghost use Rattle.refal_ast.specs.Kinds.{tok_char};
ghost use Rattle.refal_spelling.specs.Spell.{spelled};
ghost use Rattle.refal_writer.specs.Puts.{Puts};
ghost use Rattle.refal_writer.specs.Token.{token_text};
ghost use Rattle.refal_writer.specs.Words.{mark_word};
ghost use Rattle.refal_writer.specs.Marks.{mark_code};

use crate::bytes::Put;

// The tokens that are spelled by their kind alone.
#[derive(Clone, Copy, Debug, PartialEq, Eq)]
pub enum Mark {
    Entry,
    Extern,
    LBrace,
    RBrace,
    LParen,
    RParen,
    LAngle,
    RAngle,
    Comma,
    Colon,
    Equals,
    Semicolon,
}

#[tactic(auto, unfolding(refal_spelling::specs::Spell::text, refal_spelling::specs::Spell::spelling))]
impl Put for Mark {
    ghost bytes = { λ mark. token_text (mark_word (mark_code mark)) };

    ghost most = { 8 };

    fn put(self, out: &mut [u8]) -> usize {
        match self {
            Mark::Entry => b"$ENTRY ".put(out),
            Mark::Extern => b"$EXTRN ".put(out),
            Mark::LBrace => b"{ ".put(out),
            Mark::RBrace => b"} ".put(out),
            Mark::LParen => b"( ".put(out),
            Mark::RParen => b") ".put(out),
            Mark::LAngle => b"< ".put(out),
            Mark::RAngle => b"> ".put(out),
            Mark::Comma => b", ".put(out),
            Mark::Colon => b": ".put(out),
            Mark::Equals => b"= ".put(out),
            Mark::Semicolon => b"; ".put(out),
        }
    }
}

// The bytes of a character in apostrophes, and a space.
fn put_quoted<const N: usize>(bytes: &[u8; N], out: &mut [u8]) -> usize
    requires { N ≤ 4 }
    ensures { Puts (39 ∷ (bytes.now ++ 39 ∷ 32 ∷ [])) result out.old out.new × (result ≤ N + 3) }
{
    (b"'", (bytes, b"' ")).put(out)
}

const APOSTROPHE: u32 = b'\'' as u32;

// A character in apostrophes: an apostrophe twice, any other in UTF-8. `char::encode_utf8` would ask each caller for a scalar value;
// the contract is for every number.
#[tactic(auto, unfolding(refal_spelling::specs::Spell::text, refal_spelling::specs::Spell::spelling, refal_spelling::specs::Spell::body))]
pub fn put_char(x: u32, out: &mut [u8]) -> usize
    ensures { Puts (token_text (spelled tok_char x [])) result out.old out.new × (result ≤ 8) }
{
    match x {
        APOSTROPHE => put_quoted(b"''", out),
        0..=127 => put_quoted(&[x as u8], out),
        128..=2047 => put_quoted(&[(192 + x / 64) as u8, (128 + x % 64) as u8], out),
        2048..=65535 => put_quoted(
            &[
                (224 + x / 4096) as u8,
                (128 + x / 64 % 64) as u8,
                (128 + x % 64) as u8,
            ],
            out,
        ),
        _ => put_quoted(
            &[
                (240 + x / 262144 % 8) as u8,
                (128 + x / 4096 % 64) as u8,
                (128 + x / 64 % 64) as u8,
                (128 + x % 64) as u8,
            ],
            out,
        ),
    }
}
