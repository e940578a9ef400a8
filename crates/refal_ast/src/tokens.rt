// Token rows: a token's six words.
ghost use Rattle.std.specs.Prelude.{◌≡◌, ◌≤◌};
ghost use Rattle.refal_rows.specs.Rows.{put_row};
ghost use Rattle.refal_ast.specs.Tokens.{words, token_width};
ghost use Rattle.refal_ast.specs.Rows.{token_told};

use crate::kinds::TokenKind;

// How many words a row has.
pub const WIDTH: usize = 6;

// A token, as its row has it.
#[derive(Clone, Copy, Debug, PartialEq, Eq)]
pub struct Token {
    pub kind: TokenKind,
    pub detail: u32,
    pub start: u32,
    pub len: u32,
    pub from: u32,
    pub to: u32,
}

impl Token {
    // Row m, put where it fits whole.
    #[inline(always)]
    pub fn put(self, rows: &mut [u32], m: usize)
        requires { m ≤ 1073741824 }
        ensures { rows.new ≡ put_row token_width rows.old m (words (token_told self)) }
    {
        refal_rows::put(
            rows,
            m,
            [
                u32::from(self.kind),
                self.detail,
                self.start,
                self.len,
                self.from,
                self.to,
            ],
        );
    }
}
