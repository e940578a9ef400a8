// Terms, brackets and calls; and what follows terms.
ghost use Rattle.std.specs.Prelude.{◌≡◌, ◌≤◌};
ghost use Rattle.refal_ast.specs.KindCodes.{token_code};
ghost use Rattle.refal_parser.specs.Begins.{term_told, Bracket, Call};
ghost use Rattle.refal_parser.specs.Machine.{term_of};
ghost use Rattle.refal_parser.specs.Ready.{Few, term_at};
ghost use Rattle.refal_parser.specs.PostTerms.{ArgumentPost, ClausePost, ClosesPost, FollowsPost, TermPost, TermsPost, UntilPost};

use crate::answers::SyntaxError;
use crate::nodes::Extent;
use crate::place::{Level, Place};
use refal_ast::answers::Reason;
use refal_ast::kinds::{NodeKind, TokenKind};
use refal_ast::tokens::Token;
use refal_ast::tree::{Symbol, Term, UnknownLetter, VariableKind};

// What a token begins where a term may stand.
fn term_of(token: Token) -> Result<Option<Term>, UnknownLetter>
    ensures { term_told result ≡ term_of (token_code token.kind) token.detail token.start token.len }
{
    let Token {
        detail,
        start,
        len,
        ..
    } = token;
    match token.kind {
        TokenKind::Identifier => Ok(Some(Term::Symbol(Symbol::Identifier { start, len }))),
        TokenKind::Variable => {
            let kind = VariableKind::try_from(detail)?;
            Ok(Some(Term::Variable { kind, start, len }))
        }
        TokenKind::Number => Ok(Some(Term::Symbol(Symbol::Number { start, len }))),
        TokenKind::Char => Ok(Some(Term::Symbol(Symbol::Char(detail)))),
        TokenKind::LParen => Ok(Some(Term::Bracket)),
        TokenKind::LAngle => Ok(Some(Term::Call)),
        _ => Ok(None),
    }
}

impl<'t> Place<'t> {
    // The kind that closes terms, where no term begins: Eof there is 35, another kind 34.
    fn closes(self, want: TokenKind) -> Result<Place<'t>, SyntaxError>
        requires { token_code want ≤ 16 }
        ensures { ClosesPost self.entry (token_code want) result }
    {
        let kind = self.kind();
        if kind == want {
            return Ok(self.next(self.row));
        }
        match kind {
            TokenKind::Eof => Err(self.present(Reason::OtherKind, Some(want))),
            _ => Err(self.taken(Reason::NoTerm, None)),
        }
    }

    // Terms from the place on, up to a token that begins none.
    #[cycle(bracket_call_terms_until)]
    fn terms(self, rows: &mut [u32], level: Level) -> Result<Place<'t>, SyntaxError>
        requires { Few self.row self.at 2 }
        ensures { TermsPost self.entry rows.old rows.new level result }
    {
        let mut place = self;
        loop {
            let first = place.token();
            let leaf = Extent {
                from: first.from,
                to: first.to,
                next: place.row + 1,
                parent: level.parent,
            };
            match term_of(first) {
                Ok(Some(Term::Symbol(symbol))) => {
                    leaf.symbol(symbol).put(rows, place.row);
                    place = place.next(leaf.next);
                }
                Ok(Some(Term::Variable { kind, start, len })) => {
                    leaf.variable(kind, start, len).put(rows, place.row);
                    place = place.next(leaf.next);
                }
                Ok(Some(Term::Bracket)) => place = place.bracket(rows, level)?,
                Ok(Some(Term::Call)) => place = place.call(rows, level)?,
                Ok(None) => return Ok(place),
                Err(_) => return Err(place.taken(Reason::VariableLetter, None)),
            }
        }
    }

    // Terms and the kind that closes them.
    #[cycle(bracket_call_terms_until)]
    fn until(
        self,
        rows: &mut [u32],
        level: Level,
        want: TokenKind,
    ) -> Result<Place<'t>, SyntaxError>
        requires { Few self.row self.at 2 × (token_code want ≤ 16) }
        ensures { UntilPost self.entry rows.old rows.new level (token_code want) result }
    {
        let end = self.terms(rows, level)?;
        end.closes(want)
    }

    // The bracket that opens at the place.
    #[cycle(bracket_call_terms_until)]
    fn bracket(self, rows: &mut [u32], level: Level) -> Result<Place<'t>, SyntaxError>
        requires { Few self.row self.at 2 × (term_at self.tokens.now self.at ≡ Bracket) }
        ensures { TermPost self.entry rows.old rows.new level result }
    {
        if level.left == 0 {
            return Err(self.present(Reason::TooDeep, None));
        }
        let body = self.next(self.row + 1);
        let inside = Level {
            parent: self.row as u32,
            left: level.left - 1,
        };
        let end = body.until(rows, inside, TokenKind::RParen)?;
        let whole = end.since(self.token().from, level.parent);
        whole.bare(NodeKind::Bracket).put(rows, self.row);
        Ok(end)
    }

    // The call that opens at the place. Apart from `bracket`, since a name with a refusal of its own stands between.
    #[cycle(bracket_call_terms_until)]
    fn call(self, rows: &mut [u32], level: Level) -> Result<Place<'t>, SyntaxError>
        requires { Few self.row self.at 2 × (term_at self.tokens.now self.at ≡ Call) }
        ensures { TermPost self.entry rows.old rows.new level result }
    {
        if level.left == 0 {
            return Err(self.present(Reason::TooDeep, None));
        }
        let named = self.next(self.row + 1);
        let name = named.token();
        let TokenKind::Identifier = name.kind else {
            let expected = Some(TokenKind::Identifier);
            return Err(named.taken(Reason::CallName, expected));
        };
        let body = named.next(named.row);
        let inside = Level {
            parent: self.row as u32,
            left: level.left - 1,
        };
        let end = body.until(rows, inside, TokenKind::RAngle)?;
        let whole = end.since(self.token().from, level.parent);
        whole
            .named(NodeKind::Call, name.start, name.len)
            .put(rows, self.row);
        Ok(end)
    }

    // An argument: a Terms row, its terms and their `:`.
    pub fn argument(self, rows: &mut [u32], level: Level) -> Result<Place<'t>, SyntaxError>
        requires { Few self.row self.at 1 }
        ensures { ArgumentPost self.entry rows.old rows.new level result }
    {
        let mut first = self;
        first.row += 1;
        let under = Level {
            parent: self.row as u32,
            ..level
        };
        let end = first.until(rows, under, TokenKind::Colon)?;
        let spanless = Extent {
            from: 0,
            to: 0,
            next: end.row,
            parent: level.parent,
        };
        spanless.bare(NodeKind::Terms).put(rows, self.row);
        Ok(end)
    }

    // Whether one of two kinds stands after terms, or after a block. After terms Eof is 35 and another kind 34; after a block another
    // kind is 35. `terms` is a flag: what it chooses is one refusal, and an enum would say no more than its name.
    pub fn follows(self, terms: bool, also: TokenKind, want: TokenKind) -> Result<(), SyntaxError>
        ensures { FollowsPost self.entry terms (token_code also) (token_code want) result }
    {
        let kind = self.kind();
        if kind == also || kind == want {
            return Ok(());
        }
        if terms && kind != TokenKind::Eof {
            return Err(self.taken(Reason::NoTerm, None));
        }
        Err(self.present(Reason::OtherKind, Some(want)))
    }

    // A Terms row and its terms, up to one of two kinds.
    pub fn clause(
        self,
        rows: &mut [u32],
        level: Level,
        also: TokenKind,
        want: TokenKind,
    ) -> Result<Place<'t>, SyntaxError>
        requires { Few self.row self.at 1 }
        ensures { ClausePost self.entry rows.old rows.new level (token_code also) (token_code want) result }
    {
        let mut first = self;
        first.row += 1;
        let under = Level {
            parent: self.row as u32,
            ..level
        };
        let end = first.terms(rows, under)?;
        let spanless = Extent {
            from: 0,
            to: 0,
            next: end.row,
            parent: level.parent,
        };
        spanless.bare(NodeKind::Terms).put(rows, self.row);
        end.follows(true, also, want)?;
        Ok(end)
    }
}
