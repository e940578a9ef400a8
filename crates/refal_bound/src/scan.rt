// The first unbound variable by one scan over the rows: bindings in force stand in lent words, by the buckets of their indices.
ghost use Rattle.std.specs.Prelude.{◌≡◌};

use crate::patterns::{Tree, is};
use crate::plain::Variable;
use refal_ast::kinds::NodeKind;
use refal_ast::nodes::Node;
use refal_index::Index;

impl<'a> Tree<'a> {
    ghost use Rattle.std.specs.Prelude.{◌≡◌, true, false, not, ◌+◌, ◌<◌, MatchOption};
    ghost use Rattle.refal_files.specs.FileLaws.{row_count};
    ghost use Rattle.refal_bound.specs.Bound.{scope, within, is_unbound, first_unbound};
    ghost use Rattle.refal_bound.specs.Climb.{is_top, terms_above};
    ghost use Rattle.refal_bound.specs.Scan.{Keeps, reach, pattern_end};
    ghost use Rattle.refal_tree.specs.Ranges.{parent_at};

    // The parent of row i, where the way up goes on: row i is no Terms row, and its parent stands before it.
    fn above(self, i: usize) -> Option<usize>
        ensures { MatchOption result (is_top self.entry.tree.now i ≡ true) (λ p. (is_top self.entry.tree.now i ≡ false) × (p ≡ parent_at self.entry.tree.now i)) }
    {
        let Some(node) = self.row(i) else {
            return None;
        };
        if is(node.kind, NodeKind::Terms) {
            return None;
        }
        let parent = node.parent as usize;
        if i <= parent {
            return None;
        }
        Some(parent)
    }

    // The Terms row that row i stands in, if it is a term.
    fn terms_above(self, i: usize) -> usize
        ensures { result ≡ terms_above self.entry.tree.now i }
    {
        let mut at = i;
        while let Some(parent) = self.above(at) {
            at = parent;
        }
        at
    }

    // Whether what row g binds is in force at row u.
    fn in_force(self, g: usize, u: usize) -> bool
        ensures { result ≡ within self.entry.tree.now (scope self.entry.tree.now (terms_above self.entry.tree.now g)) u }
    {
        self.pattern_at(self.terms_above(g))
            .is_some_and(|p| u < p.scope)
    }

    // Bindings of bucket h that are no longer in force at row u are taken out, from the newest on. Scopes lie in one another, so
    // that below one in force all are.
    fn trim(self, bindings: &mut Index, h: usize, u: usize)
        requires rows { (u < row_count self.tree.now) × (h < bindings.old.buckets) }
        requires keeps { Keeps self.tree.now self.source.now bindings.old.words.now bindings.old.rows bindings.old.buckets u }
        ensures kept { Keeps self.entry.tree.now self.entry.source.now bindings.new.words.now bindings.new.rows bindings.new.buckets u }
        ensures shape { (bindings.new.rows ≡ bindings.old.rows) × (bindings.new.buckets ≡ bindings.old.buckets) }
    {
        let mut next = bindings.first(h);
        while let Some(g) = next.checked_sub(1) {
            if self.in_force(g, u) {
                return;
            }
            next = bindings.after(g);
            bindings.pop(h, g);
        }
    }

    // Row u is scanned, where patterns before it reach so far: a binding is put in, a use is looked up. Whether it is bound, or
    // no use.
    fn scan_row(self, bindings: &mut Index, u: usize, far: usize) -> bool
        requires rows { (u < row_count self.tree.now) × (bindings.old.rows ≡ row_count self.tree.now) }
        requires reached { far ≡ reach self.tree.now u }
        requires keeps { Keeps self.tree.now self.source.now bindings.old.words.now bindings.old.rows bindings.old.buckets u }
        ensures bound { result ≡ not (is_unbound self.entry.tree.now self.entry.source.now u) }
        ensures kept { Keeps self.entry.tree.now self.entry.source.now bindings.new.words.now bindings.new.rows bindings.new.buckets (u + 1) }
        ensures shape { (bindings.new.rows ≡ bindings.old.rows) × (bindings.new.buckets ≡ bindings.old.buckets) }
    {
        let Ok(node) = Node::read(self.tree, u) else {
            return true;
        };
        if !is(node.kind, NodeKind::Variable) {
            return true;
        }
        let index = self.index(u);
        let h = bindings.bucket_from(index, node.detail);
        self.trim(bindings, h, u);
        if u < far {
            bindings.push(h, u);
            return true;
        }
        let variable = Variable {
            of: self,
            row: u,
            letter: node.detail,
            index,
        };
        variable.is_bound(bindings, h)
    }

    // The row after the pattern t, 0 where row t is none.
    fn pattern_end(self, t: usize) -> usize
        ensures { result ≡ pattern_end self.entry.tree.now t }
    {
        match self.pattern_at(t) {
            Some(p) => p.end,
            None => 0,
        }
    }

    // The row of the first variable that is used unbound, over an index that has no binding yet.
    fn scan(self, bindings: &mut Index) -> Option<usize>
        requires rows { bindings.old.rows ≡ row_count self.tree.now }
        requires keeps { Keeps self.tree.now self.source.now bindings.old.words.now bindings.old.rows bindings.old.buckets 0 }
        ensures { result ≡ first_unbound self.entry.tree.now self.entry.source.now }
    {
        let mut far = 0;
        for u in 0..self.count() {
            if !self.scan_row(bindings, u, far) {
                return Some(u);
            }
            far = far.max(self.pattern_end(u));
        }
        None
    }

    // The same, over an index of a link for each row and of a bucket for four rows where there are so many words; without words
    // by a plain search.
    pub fn first_row(self, words: &mut [u32]) -> Option<usize>
        ensures { result ≡ first_unbound self.entry.tree.now self.entry.source.now }
    {
        let rows = self.count();
        let buckets = words.len().saturating_sub(rows).min(rows / 4 + 1);
        if buckets == 0 {
            return self.first_unbound();
        }
        let mut bindings = Index::new(words, rows, buckets);
        self.scan(&mut bindings)
    }
}

impl Variable<'_> {
    ghost use Rattle.std.specs.Prelude.{◌≡◌, ◌<◌};
    ghost use Rattle.refal_files.specs.FileLaws.{row_count};
    ghost use Rattle.refal_bound.specs.Bound.{some_in, bound_by};
    ghost use Rattle.refal_bound.specs.Scan.{Keeps, bucket, serves};

    // Whether row g, a binding, is equal to the variable and in force here.
    #[tactic(auto, unfolding(crate::specs::Scan::serves))]
    fn serves(self, g: usize) -> bool
        requires { g < row_count self.of.tree.now }
        ensures { result ≡ serves self.entry.of.tree.now self.entry.of.source.now self.entry.row g }
    {
        self.of.is_variable(self.letter, self.index, g) && self.of.in_force(g, self.row)
    }

    // Whether an equal binding before is in force here: only those of the variable's bucket, h, are looked at.
    fn is_bound(self, bindings: &Index, h: usize) -> bool
        requires rows { bindings.now.rows ≡ row_count self.of.tree.now }
        requires buckets { (h < bindings.now.buckets) × (h ≡ bucket self.of.tree.now self.of.source.now bindings.now.buckets self.row) }
        requires keeps { Keeps self.of.tree.now self.of.source.now bindings.now.words.now bindings.now.rows bindings.now.buckets self.row }
        ensures { result ≡ some_in 0 self.entry.row (bound_by self.entry.of.tree.now self.entry.of.source.now self.entry.row) }
    {
        let mut next = bindings.first(h);
        while let Some(g) = next.checked_sub(1) {
            if self.serves(g) {
                return true;
            }
            next = bindings.after(g);
        }
        false
    }
}
