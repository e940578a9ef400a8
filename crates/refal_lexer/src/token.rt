// The token at a start.
ghost use Rattle.std.specs.Prelude.{◌≡◌, get_or};
ghost use Rattle.refal_text.specs.Utf8.{decode};
ghost use Rattle.refal_lexer.specs.Classes.{class_of, single_kind};
ghost use Rattle.refal_lexer.specs.Told.{class_code, single_code, fault_told, scan_told};
ghost use Rattle.refal_lexer.specs.Tokens.{sign_scan, wide_scan, class_scan};

use crate::Fault;
use crate::class::Class;
use crate::start::Start;
use refal_ast::answers::Reason;
use refal_ast::tokens::Token;

impl Start<'_> {
    // A sign of a class: it starts a number before a digit only.
    fn sign(self, class: Class) -> Result<Token, Fault>
        ensures { scan_told result ≡ sign_scan (class_code class) self.entry.at self.entry.src.now }
    {
        if refal_text::byte(self.src, 1).is_ascii_digit() {
            return self.number(1);
        }
        if class == Class::Minus {
            return self.other();
        }
        Err(self.over(Reason::UnexpectedCharacter, 1))
    }

    // A character past U+007F.
    fn wide(self) -> Fault
        ensures { fault_told result ≡ wide_scan self.entry.at (decode self.entry.src.now) }
    {
        let len = refal_text::decode(self.src, 0).map_or(1, |c| c.len);
        self.over(Reason::UnexpectedCharacter, len)
    }

    // The token whose first byte is of a class, which is no quote's.
    pub fn scan(self, class: Class) -> Result<Token, Fault>
        requires class { class_code class ≡ class_of (get_or self.src.now 0 0) }
        requires single { single_code class ≡ single_kind (get_or self.src.now 0 0) }
        ensures { scan_told result ≡ class_scan (class_of (get_or self.entry.src.now 0 0)) self.entry.at self.entry.src.now }
    {
        match class {
            Class::Single(kind) => Ok(self.bare(kind, 1)),
            Class::Upper => self.name(),
            Class::Digit => self.number(0),
            Class::Variable => self.variable(),
            Class::Dollar => self.directive(),
            Class::Plus | Class::Minus => self.sign(class),
            Class::Other => self.other(),
            Class::Wide => Err(self.wide()),
            _ => Err(self.over(Reason::UnexpectedCharacter, 1)),
        }
    }
}
