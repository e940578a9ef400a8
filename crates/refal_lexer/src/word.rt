// Names, variables and directives.
ghost use Rattle.std.specs.Prelude.{◌≡◌, IfSome, ◌+◌, ◌-◌, ◌≤◌, length, drop};
ghost use Rattle.refal_text.specs.Span.{span};
ghost use Rattle.refal_ast.specs.KindCodes.{token_code};
ghost use Rattle.refal_ast.specs.Kinds.{tok_variable};
ghost use Rattle.refal_ast.specs.Rows.{token_told};
ghost use Rattle.refal_ast.specs.Told.{kind_told};
ghost use Rattle.refal_ast.specs.Tokens.{token};
ghost use Rattle.refal_lexer.specs.Classes.{name_byte};
ghost use Rattle.refal_lexer.specs.WordLaws.{word_kind};
ghost use Rattle.refal_lexer.specs.Told.{scan_told};
ghost use Rattle.refal_lexer.specs.Words.{name_scan, other_scan, index_of, variable_scan, directive_scan};

use crate::Fault;
use crate::runs::{name_end, run_end};
use crate::start::Start;
use refal_ast::answers::Reason;
use refal_ast::kinds::TokenKind;
use refal_ast::tokens::Token;

// How many bytes a name and an index have at most.
const NAME_MOST: usize = 15;

const INDEX_MOST: usize = 15;

impl Start<'_> {
    // A name that starts with A to Z.
    pub fn name(self) -> Result<Token, Fault>
        ensures { scan_told result ≡ name_scan self.entry.at self.entry.src.now }
    {
        let len = name_end(self.src, 1);
        if len > NAME_MOST {
            return Err(self.over(Reason::NameTooLong, len));
        }
        Ok(self.whole(TokenKind::Identifier, len))
    }

    // A name that starts otherwise.
    pub fn other(self) -> Result<Token, Fault>
        ensures { scan_told result ≡ other_scan self.entry.at self.entry.src.now }
    {
        let len = name_end(self.src, 1);
        Err(self.over(Reason::NameStart, len))
    }

    // The variable of letter b, with a point behind it.
    fn index(self, b: u8) -> Result<Token, Fault>
        requires { 2 ≤ length self.src.now }
        ensures { scan_told result ≡ index_of self.entry.at b (span name_byte (drop 2 self.entry.src.now)) }
    {
        let len = name_end(self.src, 2);
        match len - 2 {
            0 => Err(self.over(Reason::IndexMissing, len)),
            1..=INDEX_MOST => Ok(self.variable_of(b, 2, len)),
            _ => Err(self.over(Reason::IndexTooLong, len)),
        }
    }

    // The variable of letter b and of len bytes, whose index is behind the first `skip`.
    fn variable_of(self, b: u8, skip: usize, len: usize) -> Token
        requires { (skip ≤ len) × (len ≤ length self.src.now) }
        ensures { token_told result ≡ token tok_variable b (self.entry.at + skip) (len - skip) self.entry.at (self.entry.at + len) }
    {
        Token {
            detail: u32::from(b),
            start: (self.at + skip) as u32,
            len: (len - skip) as u32,
            ..self.bare(TokenKind::Variable, len)
        }
    }

    // What the first letter starts, which is s, t or e.
    pub fn variable(self) -> Result<Token, Fault>
        ensures { scan_told result ≡ variable_scan self.entry.at self.entry.src.now }
    {
        let b = self.first();
        match refal_text::byte(self.src, 1) {
            b'.' => self.index(b),
            b'A'..=b'Z' | b'0'..=b'9' => Ok(self.variable_of(b, 1, 2)),
            _ => self.other(),
        }
    }

    // A directive, whose `$` stands first.
    pub fn directive(self) -> Result<Token, Fault>
        ensures { scan_told result ≡ directive_scan self.entry.at self.entry.src.now }
    {
        let len = run_end(self.src, 1, |b| b.is_ascii_alphabetic());
        let Some(kind) = declares(&self.src[1..len]) else {
            return Err(self.over(Reason::UnknownDirective, len));
        };
        Ok(self.bare(kind, len))
    }
}

// What the word of a directive declares.
fn declares(word: &[u8]) -> Option<TokenKind>
    ensures told { kind_told result ≡ word_kind (length word.now) word.now }
    ensures some { IfSome result (λ kind. 1 ≤ token_code kind) }
{
    match word {
        b"ENTRY" => Some(TokenKind::Entry),
        b"EXTERN" | b"EXTRN" | b"EXTERNAL" => Some(TokenKind::Extern),
        _ => None,
    }
}
