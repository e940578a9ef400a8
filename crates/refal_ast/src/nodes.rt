// Node rows by number: the words of row i, which must stand whole in the slice.
ghost use Rattle.std.specs.Prelude.{◌≡◌, ◌≤◌, ◌<◌};
ghost use Rattle.refal_rows.specs.Rows.{put_row};
ghost use Rattle.refal_ast.specs.KindCodes.{node_code};
ghost use Rattle.refal_ast.specs.Rows.{node_told, ReadsNode};
ghost use Rattle.refal_ast.specs.Nodes.{has_text, node_words, node_width, HasRow, word_at, col_kind, col_start, col_len};

use crate::kinds::{NodeKind, UnknownKind};

// How many words a row has.
pub const WIDTH: usize = 8;

// The parent of a top row.
pub const NO_PARENT: u32 = 4294967295;

const KIND: usize = 0;

const DETAIL: usize = 1;

const START: usize = 2;

const LEN: usize = 3;

const FROM: usize = 4;

const TO: usize = 5;

const NEXT: usize = 6;

const PARENT: usize = 7;

// A node, as its row has it.
#[derive(Clone, Copy, Debug, PartialEq, Eq)]
pub struct Node {
    pub kind: NodeKind,
    pub detail: u32,
    pub start: u32,
    pub len: u32,
    pub from: u32,
    pub to: u32,
    pub next: u32,
    pub parent: u32,
}

impl Node {
    // Row i of the words, if its kind is known.
    pub fn read(tree: &[u32], i: usize) -> Result<Node, UnknownKind>
        requires { HasRow tree.now i }
        ensures { ReadsNode tree.now i result }
    {
        let at = WIDTH * i;
        let kind = NodeKind::try_from(tree[at + KIND])?;
        Ok(Node {
            kind,
            detail: tree[at + DETAIL],
            start: tree[at + START],
            len: tree[at + LEN],
            from: tree[at + FROM],
            to: tree[at + TO],
            next: tree[at + NEXT],
            parent: tree[at + PARENT],
        })
    }

    // Row m, put where it fits whole.
    #[inline(always)]
    pub fn put(self, rows: &mut [u32], m: usize)
        requires { m ≤ 1073741824 }
        ensures { rows.new ≡ put_row node_width rows.old m (node_words (node_told self)) }
    {
        refal_rows::put(
            rows,
            m,
            [
                u32::from(self.kind),
                self.detail,
                self.start,
                self.len,
                self.from,
                self.to,
                self.next,
                self.parent,
            ],
        );
    }
}

impl NodeKind {
    // Whether rows of the kind use their text.
    pub fn has_text(self) -> bool
        ensures { result ≡ has_text (node_code self) }
    {
        matches!(
            self,
            NodeKind::Name
                | NodeKind::Function
                | NodeKind::Identifier
                | NodeKind::Number
                | NodeKind::Variable
                | NodeKind::Call
        )
    }
}

// The word of row i in a column, whatever the row's kind. That the row is there is asked here and of `read`: it is what refal_files' `Row` keeps.
pub fn word(tree: &[u32], i: usize, column: usize) -> u32
    requires { HasRow tree.now i × (column < node_width) }
    ensures { result ≡ word_at tree.now i column }
{
    tree[WIDTH * i + column]
}

// The number of row i's kind, known or not.
pub fn kind(tree: &[u32], i: usize) -> u32
    requires { HasRow tree.now i }
    ensures { result ≡ word_at tree.now i col_kind }
{
    word(tree, i, KIND)
}

// Where the text of row i starts, and its length.
pub fn text_start(tree: &[u32], i: usize) -> u32
    requires { HasRow tree.now i }
    ensures { result ≡ word_at tree.now i col_start }
{
    word(tree, i, START)
}

pub fn text_len(tree: &[u32], i: usize) -> u32
    requires { HasRow tree.now i }
    ensures { result ≡ word_at tree.now i col_len }
{
    word(tree, i, LEN)
}

// Whether rows of the kind of this number use their text; those of no kind do not.
pub fn has_text(kind: u32) -> bool
    ensures { result ≡ has_text kind }
{
    match NodeKind::try_from(kind) {
        Ok(kind) => kind.has_text(),
        Err(_) => false,
    }
}
