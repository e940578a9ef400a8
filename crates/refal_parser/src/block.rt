// Sentences hold blocks and blocks hold sentences.
ghost use Rattle.std.specs.Prelude.{◌≡◌, get_or, ◌≤◌};
ghost use Rattle.refal_ast.specs.Kinds.{tok_comma, tok_l_brace, tok_r_brace, tok_semicolon};
ghost use Rattle.refal_parser.specs.Ready.{Few};
ghost use Rattle.refal_parser.specs.Post.{Joint};
ghost use Rattle.refal_parser.specs.PostBlock.{BlockPost, CondPost, EndingPost, SentencePost, sentence_end, sentence_put};

use crate::answers::SyntaxError;
use crate::place::{Level, Place};
use refal_ast::answers::Reason;
use refal_ast::kinds::{NodeKind, TokenKind};

impl<'t> Place<'t> {
    // The condition whose comma is at the place, up to a comma or `=`.
    #[cycle(block_condition_ending_sentence)]
    fn condition(self, rows: &mut [u32], level: Level) -> Result<Place<'t>, SyntaxError>
        requires { Few self.row self.at 2 × (get_or self.tokens.now self.at 0 ≡ tok_comma) }
        ensures { CondPost self.entry rows.old rows.new level result }
    {
        let start = self.next(self.row + 1);
        let from = start.token().from;
        let under = Level {
            parent: self.row as u32,
            ..level
        };
        let asked = start.argument(rows, under)?;
        if let TokenKind::LBrace = asked.kind() {
            let mut inside = asked;
            inside.row += 1;
            let within = Level {
                parent: asked.row as u32,
                ..level
            };
            let end = inside.block(rows, within)?;
            let part = end.since(from, under.parent);
            part.bare(NodeKind::ConditionBlock).put(rows, asked.row);
            let whole = end.since(from, level.parent);
            whole.bare(NodeKind::Condition).put(rows, self.row);
            end.follows(false, TokenKind::Comma, TokenKind::Equals)?;
            return Ok(end);
        }
        let (also, want) = (TokenKind::Comma, TokenKind::Equals);
        let end = asked.clause(rows, under, also, want)?;
        let whole = end.since(from, level.parent);
        whole.bare(NodeKind::Condition).put(rows, self.row);
        Ok(end)
    }

    // What stands after a sentence's `=`: terms, or a comma and an ending block; up to the `;`, or the `}` of the block that the
    // sentence stands in, where its `;` is left off.
    #[cycle(block_condition_ending_sentence)]
    fn ending(self, rows: &mut [u32], level: Level) -> Result<Place<'t>, SyntaxError>
        requires { Few self.row self.at 0 }
        ensures { EndingPost self.entry rows.old rows.new level result }
    {
        let TokenKind::Comma = self.kind() else {
            let (also, want) = (TokenKind::RBrace, TokenKind::Semicolon);
            return self.clause(rows, level, also, want);
        };
        let start = self.next(self.row + 1);
        let from = start.token().from;
        let under = Level {
            parent: self.row as u32,
            ..level
        };
        let asked = start.argument(rows, under)?;
        let TokenKind::LBrace = asked.kind() else {
            let expected = Some(TokenKind::LBrace);
            return Err(asked.present(Reason::OtherKind, expected));
        };
        let end = asked.block(rows, under)?;
        let whole = end.since(from, level.parent);
        whole.bare(NodeKind::EndingBlock).put(rows, self.row);
        end.follows(false, TokenKind::RBrace, TokenKind::Semicolon)?;
        Ok(end)
    }

    // The row of a sentence under this parent, whose span begins at `from` and of which all but its `;` ends at the place; where the
    // sentence ends. A `}` here means that the `;` is left off.
    fn put_sentence(self, rows: &mut [u32], from: u32, row: usize, parent: u32) -> Place<'t>
        requires { (1 ≤ self.at) × Joint self.tokens.now self.at tok_r_brace tok_semicolon × (row ≤ 1073741824) × (self.row ≤ 1073741824) }
        ensures tokens { result.tokens.now ≡ self.entry.tokens.now }
        ensures next { result.at ≡ sentence_end self.entry.tokens.now self.entry.at }
        ensures row { result.row ≡ self.entry.row }
        ensures put { rows.new ≡ sentence_put self.entry.tokens.now rows.old from self.entry.at row self.entry.row parent }
    {
        let left_off = self.kind() == TokenKind::RBrace;
        let end = if left_off { self } else { self.next(self.row) };
        end.since(from, parent).sentence(left_off).put(rows, row);
        end
    }

    // The sentence that begins at the place.
    #[cycle(block_condition_ending_sentence)]
    fn sentence(self, rows: &mut [u32], level: Level) -> Result<Place<'t>, SyntaxError>
        requires { Few self.row self.at 0 }
        ensures { SentencePost self.entry rows.old rows.new level result }
    {
        let mut pattern = self;
        pattern.row += 1;
        let (also, want) = (TokenKind::Comma, TokenKind::Equals);
        let under = Level {
            parent: self.row as u32,
            ..level
        };
        let mut place = pattern.clause(rows, under, also, want)?;
        while let TokenKind::Comma = place.kind() {
            place = place.condition(rows, under)?;
        }
        let end = place.next(place.row).ending(rows, under)?;
        Ok(end.put_sentence(rows, self.token().from, self.row, level.parent))
    }

    // The sentences in the block whose `{` is at the place, with its `}`; this block's level is among those left.
    #[cycle(block_condition_ending_sentence)]
    pub fn block(self, rows: &mut [u32], level: Level) -> Result<Place<'t>, SyntaxError>
        requires { Few self.row self.at 4 × (get_or self.tokens.now self.at 0 ≡ tok_l_brace) }
        ensures { BlockPost self.entry rows.old rows.new level result }
    {
        if level.left == 0 {
            return Err(self.present(Reason::TooDeep, None));
        }
        let inside = Level {
            left: level.left - 1,
            ..level
        };
        let mut place = self.next(self.row);
        loop {
            match place.kind() {
                TokenKind::RBrace => return Ok(place.next(place.row)),
                TokenKind::Eof => {
                    let expected = Some(TokenKind::RBrace);
                    return Err(place.present(Reason::OtherKind, expected));
                }
                _ => place = place.sentence(rows, inside)?,
            }
        }
    }
}
