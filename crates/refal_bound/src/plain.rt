// The first unbound variable by a plain search: for each use all patterns before it.
ghost use Rattle.std.specs.Prelude.{◌≡◌, ◌<◌};
ghost use Rattle.refal_files.specs.FileLaws.{row_count};
ghost use Rattle.refal_tree.specs.Ranges.{detail_at};
ghost use Rattle.refal_bound.specs.Bound.{index_at};

use crate::patterns::Tree;
use refal_ast::kinds::NodeKind;
use refal_ast::names::indices_equal;
use refal_ast::nodes::Node;

// The variable in row `row` of a tree: its letter and its index.
#[derive(Clone, Copy, Debug, PartialEq, Eq)]
pub struct Variable<'a> {
    pub of: Tree<'a>,
    pub row: usize,
    pub letter: u32,
    pub index: &'a [u8],
    ghost there: { row < row_count of.tree.now },
    ghost lettered: { letter ≡ detail_at of.tree.now row },
    ghost indexed: { index.now ≡ index_at of.tree.now of.source.now row },
}

impl<'a> Tree<'a> {
    ghost use Rattle.std.specs.Prelude.{◌≡◌, true, false, ◌<◌};
    ghost use Rattle.refal_files.specs.FileLaws.{row_count};
    ghost use Rattle.refal_bound.specs.Bound.{binds_in, is_use, is_variable, is_unbound, first_unbound};

    // Whether row u, behind row t, stands in the pattern t.
    fn binds_in(self, u: usize, t: usize) -> bool
        ensures { result ≡ binds_in self.entry.tree.now u t }
    {
        self.pattern_at(t).is_some_and(|p| u < p.end)
    }

    // Whether row u is a variable outside all patterns.
    #[tactic(auto, unfolding(crate::specs::Bound::is_use))]
    fn is_use(self, u: usize) -> bool
        ensures { result ≡ is_use self.entry.tree.now u }
    {
        self.is_kind(u, NodeKind::Variable) && !(0..u).any(|t| self.binds_in(u, t))
    }

    // Whether row b is a variable of the letter and an equal index.
    #[tactic(auto, unfolding(crate::specs::Bound::is_variable))]
    pub fn is_variable(self, letter: u32, index: &[u8], b: usize) -> bool
        requires { b < row_count self.tree.now }
        ensures { result ≡ is_variable self.entry.tree.now self.entry.source.now letter index.now b }
    {
        let Ok(node) = Node::read(self.tree, b) else {
            return false;
        };
        node.kind == NodeKind::Variable
            && node.detail == letter
            && indices_equal(self.index(b), index)
    }

    // Whether row u is a variable that is used unbound.
    #[tactic(auto, unfolding(crate::specs::Bound::is_unbound))]
    fn is_unbound(self, u: usize) -> bool
        requires { u < row_count self.tree.now }
        ensures { result ≡ is_unbound self.entry.tree.now self.entry.source.now u }
    {
        let Ok(node) = Node::read(self.tree, u) else {
            return false;
        };
        let variable = Variable {
            of: self,
            row: u,
            letter: node.detail,
            index: self.index(u),
        };
        self.is_use(u) && !(0..u).any(|t| variable.bound_by(t))
    }

    // The row of the first variable that is used unbound.
    pub fn first_unbound(self) -> Option<usize>
        ensures { result ≡ first_unbound self.entry.tree.now self.entry.source.now }
    {
        (0..self.count()).find(|u| self.is_unbound(*u))
    }
}

impl Variable<'_> {
    ghost use Rattle.std.specs.Prelude.{◌≡◌, ◌<◌};
    ghost use Rattle.refal_bound.specs.Bound.{bound_by};

    // Whether an equal variable of the pattern t is in force here.
    #[tactic(auto, unfolding(crate::specs::Bound::bound_by))]
    fn bound_by(self, t: usize) -> bool
        requires { t < self.row }
        ensures { result ≡ bound_by self.entry.of.tree.now self.entry.of.source.now self.entry.row t }
    {
        let Variable {
            of,
            row,
            letter,
            index,
        } = self;
        match of.pattern_at(t) {
            Some(p) if row < p.scope => {
                (t + 1..p.end.min(row)).any(|b| of.is_variable(letter, index, b))
            }
            _ => false,
        }
    }
}
