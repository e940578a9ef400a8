// Two trees with their sources, whose rows are numbered through: file one's rows, then file two's.
#![tactic(auto)]

mod row;

ghost use Rattle.std.specs.Prelude.{◌≡◌, ◌<◌};
ghost use Rattle.refal_files.specs.Files.{text_of};
ghost use Rattle.refal_files.specs.FileLaws.{row_count};
ghost use Rattle.refal_files.specs.View.{rows_of, row_of, placed_of};

use refal_ast::{answers, nodes};
pub use row::Row;

// A tree with the source of its texts.
#[derive(Clone, Copy, Debug, PartialEq, Eq)]
pub struct File<'a> {
    pub tree: &'a [u32],
    pub source: &'a [u8],
}

#[derive(Clone, Copy, Debug, PartialEq, Eq)]
pub struct Files<'a> {
    pub one: File<'a>,
    pub two: File<'a>,
}

impl<'a> File<'a> {
    // How many rows the tree's words hold.
    pub fn count(&self) -> usize
        ensures value { result ≡ row_count self.now.tree.now }
        ensures fits { result < 4611686018427387904 }
    {
        self.tree.len() / nodes::WIDTH
    }
}

impl<'a> Files<'a> {
    // How many rows both have.
    pub fn count(&self) -> usize
        ensures { result ≡ rows_of self.now }
    {
        self.one.count() + self.two.count()
    }

    // Row g. Its number is of both files, so no type keeps that it is one without holding both.
    #[tactic(auto, unfolding(crate::specs::FileLaws::row_at))]
    pub fn row(&self, g: usize) -> Row<'a>
        requires { g < rows_of self.now }
        ensures { placed_of result ≡ row_of self.now g }
    {
        let n = self.one.count();
        if g < n {
            Row {
                file: self.one,
                which: answers::File::One,
                number: g,
            }
        } else {
            Row {
                file: self.two,
                which: answers::File::Two,
                number: g - n,
            }
        }
    }

    // The number of row g's kind, for rows of unknown kinds too. Not by `row`: a search asks for the kind of every row and for no more.
    #[tactic(auto, unfolding(crate::specs::FileLaws::row_at))]
    pub fn kind(&self, g: usize) -> u32
        requires { g < rows_of self.now }
        ensures { result ≡ (row_of self.now g).node.kind }
    {
        let n = self.one.count();
        if g < n {
            nodes::kind(self.one.tree, g)
        } else {
            nodes::kind(self.two.tree, g - n)
        }
    }

    // The text of row g, as a part of whichever source holds it. It is that of a row of an unknown kind too, which is no Node.
    pub fn text(&self, g: usize) -> &'a [u8]
        requires { g < rows_of self.now }
        ensures { result.now ≡ text_of (row_of self.now g) }
    {
        let row = self.row(g);
        refal_spelling::text(row.file.tree, row.file.source, row.number)
    }
}
