// Items: declarations and functions; and the program.
ghost use Rattle.std.specs.Prelude.{◌≡◌, get_or};
ghost use Rattle.refal_ast.specs.Kinds.{tok_eof, tok_extern, tok_identifier, tok_semicolon};
ghost use Rattle.refal_ast.specs.Encode.{entry_detail};
ghost use Rattle.refal_parser.specs.Ready.{Few, Ready};
ghost use Rattle.refal_parser.specs.PostItems.{FunctionPost, ItemPost, NamePost, ProgramPost};

use crate::answers::SyntaxError;
use crate::nodes::Extent;
use crate::place::{Level, Place};
use refal_ast::answers::Reason;
use refal_ast::kinds::{NodeKind, TokenKind};
use refal_ast::limits;
use refal_ast::nodes::NO_PARENT;

// The levels of a function's own braces, which stand outside all that may be open at once.
const BODY: usize = limits::MOST_LEVELS + 1;

impl<'t> Place<'t> {
    // The name of a declaration at the place.
    fn name(self, rows: &mut [u32], parent: u32) -> Result<Place<'t>, SyntaxError>
        requires { Few self.row self.at 0 }
        ensures { NamePost self.entry rows.old rows.new parent result }
    {
        let name = self.token();
        let TokenKind::Identifier = name.kind else {
            let expected = Some(TokenKind::Identifier);
            return Err(self.taken(Reason::DeclarationName, expected));
        };
        let end = self.next(self.row + 1);
        let spanless = Extent {
            from: 0,
            to: 0,
            next: end.row,
            parent,
        };
        spanless
            .named(NodeKind::Name, name.start, name.len)
            .put(rows, self.row);
        Ok(end)
    }

    // The declaration whose Extern is at the place.
    fn declaration(self, rows: &mut [u32]) -> Result<Place<'t>, SyntaxError>
        requires { Few self.row self.at 0 × (get_or self.tokens.now self.at 0 ≡ tok_extern) }
        ensures { ItemPost self.entry rows.old rows.new result }
    {
        let parent = self.row as u32;
        let mut place = self.next(self.row + 1).name(rows, parent)?;
        while let TokenKind::Comma = place.kind() {
            place = place.next(place.row).name(rows, parent)?;
        }
        let TokenKind::Semicolon = place.kind() else {
            let expected = Some(TokenKind::Semicolon);
            return Err(place.present(Reason::OtherKind, expected));
        };
        let end = place.next(place.row);
        let whole = end.since(self.token().from, NO_PARENT);
        whole.bare(NodeKind::Declaration).put(rows, self.row);
        Ok(end)
    }

    // The function whose name is at the place, and whose span begins at `from`.
    fn function(self, rows: &mut [u32], from: u32, entry: bool) -> Result<Place<'t>, SyntaxError>
        requires { Few self.row self.at 0 × (get_or self.tokens.now self.at 0 ≡ tok_identifier) }
        ensures { FunctionPost self.entry rows.old rows.new from (entry_detail entry) result }
    {
        let open = self.next(self.row + 1);
        let TokenKind::LBrace = open.kind() else {
            let expected = Some(TokenKind::LBrace);
            return Err(open.present(Reason::OtherKind, expected));
        };
        let body = Level {
            parent: self.row as u32,
            left: BODY,
        };
        let end = open.block(rows, body)?;
        let name = self.token();
        let whole = end.since(from, NO_PARENT);
        whole
            .function(entry, name.start, name.len)
            .put(rows, self.row);
        Ok(end)
    }

    // The item that begins at the place.
    fn item(self, rows: &mut [u32]) -> Result<Place<'t>, SyntaxError>
        requires { Few self.row self.at 0 × (get_or self.tokens.now self.at 0 ≡ tok_eof → ⊥) × (get_or self.tokens.now self.at 0 ≡ tok_semicolon → ⊥) }
        ensures { ItemPost self.entry rows.old rows.new result }
    {
        let expected = Some(TokenKind::Identifier);
        let first = self.token();
        match first.kind {
            TokenKind::Extern => self.declaration(rows),
            TokenKind::Identifier => self.function(rows, first.from, false),
            TokenKind::Entry => {
                let name = self.next(self.row);
                match name.kind() {
                    TokenKind::Identifier => name.function(rows, first.from, true),
                    _ => Err(name.taken(Reason::ItemName, expected)),
                }
            }
            _ => Err(self.taken(Reason::ItemName, expected)),
        }
    }
}

// The items, up to the Eof; semicolons outside items are passed over.
pub fn program<'t>(tokens: &'t [u32], rows: &mut [u32]) -> Result<Place<'t>, SyntaxError>
    requires { Ready tokens.now 0 }
    ensures { ProgramPost tokens.now rows.old rows.new result }
{
    let mut place = Place::start(tokens);
    loop {
        match place.kind() {
            TokenKind::Eof => return Ok(place),
            TokenKind::Semicolon => place = place.next(place.row),
            _ => place = place.item(rows)?,
        }
    }
}
