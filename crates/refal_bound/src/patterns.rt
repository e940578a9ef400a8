// A lawful tree with its source, and its rows that are patterns.
ghost use Rattle.std.specs.Prelude.{◌≡◌, true, eqb};
ghost use Rattle.refal_ast.specs.KindCodes.{node_code};
ghost use Rattle.refal_ast.specs.Nodes.{whole_rows};
ghost use Rattle.refal_tree.specs.Lawful.{lawful};

use refal_ast::kinds::NodeKind;
use refal_ast::nodes::{self, Node};

#[derive(Clone, Copy, Debug, PartialEq, Eq)]
pub struct Tree<'a> {
    pub tree: &'a [u32],
    pub source: &'a [u8],
    ghost is_lawful: { lawful tree.now ≡ true },
    ghost whole: { whole_rows tree.now ≡ true },
}

// A Terms row whose variables bind: the row after it, and the row after its sentence, where what it binds ends.
#[derive(Clone, Copy, Debug, PartialEq, Eq)]
pub struct Pattern {
    pub end: usize,
    pub scope: usize,
}

impl<'a> Tree<'a> {
    ghost use Rattle.std.specs.Prelude.{◌≡◌, ◌<◌, false, eqb};
    ghost use Rattle.refal_ast.specs.KindCodes.{node_code};
    ghost use Rattle.refal_files.specs.FileLaws.{row_count};
    ghost use Rattle.refal_bound.specs.Bound.{scope, index_at};
    ghost use Rattle.refal_bound.specs.View.{RowAt, IsPattern};
    ghost use Rattle.refal_tree.specs.Ranges.{kind_at};

    // How many rows there are.
    pub fn count(self) -> usize
        ensures { result ≡ row_count self.entry.tree.now }
    {
        self.tree.len() / nodes::WIDTH
    }

    // Row i, if there is one of a known kind.
    pub fn row(self, i: usize) -> Option<Node>
        ensures { RowAt self.entry.tree.now i result }
    {
        if i < self.tree.len() / nodes::WIDTH {
            Node::read(self.tree, i).ok()
        } else {
            None
        }
    }

    // Whether row i is of the kind.
    pub fn is_kind(self, i: usize, kind: NodeKind) -> bool
        ensures { result ≡ eqb (kind_at self.entry.tree.now i) (node_code kind) }
    {
        match self.row(i) {
            Some(node) => is(node.kind, kind),
            None => false,
        }
    }

    // The text of row i.
    pub fn index(self, i: usize) -> &'a [u8]
        requires { i < row_count self.tree.now }
        ensures { result.now ≡ index_at self.entry.tree.now self.entry.source.now i }
    {
        refal_spelling::text(self.tree, self.source, i)
    }

    // The pattern that row t is: the first part of a sentence, or what stands behind a condition's `:`.
    pub fn pattern_at(self, t: usize) -> Option<Pattern>
        ensures { IsPattern self.entry.tree.now t result }
    {
        let Some(terms) = self.row(t) else {
            return None;
        };
        if !is(terms.kind, NodeKind::Terms) {
            return None;
        }
        let end = terms.next as usize;
        let above = terms.parent as usize;
        let Some(parent) = self.row(above) else {
            return None;
        };
        if t == above + 1 {
            if !is(parent.kind, NodeKind::Sentence) {
                return None;
            }
            let scope = parent.next as usize;
            return Some(Pattern { end, scope });
        }
        if !is(parent.kind, NodeKind::Condition) {
            return None;
        }
        let Some(sentence) = self.row(parent.parent as usize) else {
            return None;
        };
        if !is(sentence.kind, NodeKind::Sentence) {
            return None;
        }
        let scope = sentence.next as usize;
        Some(Pattern { end, scope })
    }
}

// Whether the kinds are the same: by the numbers that the definitions compare.
pub fn is(kind: NodeKind, other: NodeKind) -> bool
    ensures { result ≡ eqb (node_code kind) (node_code other) }
{
    kind == other
}
