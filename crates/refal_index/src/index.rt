// An index of rows by a hash of their canonical names.
ghost use Rattle.std.specs.Prelude.{◌≡◌, ◌+◌, ◌≤◌, ◌<◌, length};
ghost use Rattle.refal_index.specs.Chain.{pushed};
ghost use Rattle.refal_index.specs.Hash.{hash_of, bucket_of};

use crate::Bearers;
use refal_ast::names::name_byte;
use refal_files::Files;

// The lent words: a link for each row, then the heads of buckets. There is no heap, so a bucket is a chain of row numbers: 0 ends
// it, g + 1 goes on at row g. One slice with two counts, and not two slices: the definitions' words are one list.
#[derive(Drop)]
pub struct Index<'w> {
    words: &'w mut [u32],
    rows: usize,
    buckets: usize,
    ghost sized: { (rows < 4294967296) × (0 < buckets) × (buckets < 4294967296) × (rows + buckets ≤ length words.now) },
}

impl<'w> Index<'w> {
    ghost use Rattle.std.specs.Prelude.{ℕ, ◌%◌, get_or, set};
    ghost use Rattle.refal_files.specs.Files.{Placed};
    ghost use Rattle.refal_files.specs.View.{rows_of, row_of};
    ghost use Rattle.refal_index.specs.Named.{Holds, with_row};
    ghost use Rattle.refal_index.specs.View.{only_functions, known_before, Indexes};

    // An index of no row.
    pub fn new(words: &'w mut [u32], rows: usize, buckets: usize) -> Index<'w>
        requires { (rows < 4294967296) × (0 < buckets) × (buckets < 4294967296) × (rows + buckets ≤ length words.old) }
        ensures holds { (R : ℕ → Placed) → Holds result.words.now rows buckets R 0 }
        ensures shape { (result.rows ≡ rows) × (result.buckets ≡ buckets) }
    {
        words[rows..rows + buckets].fill(0);
        Index {
            words,
            rows,
            buckets,
        }
    }

    // Row g is entered, if it bears a name.
    pub fn enter(&mut self, files: &Files, g: usize)
        requires { (rows_of files.now ≡ self.old.rows) × (g < self.old.rows) }
        ensures entered { self.new.words.now ≡ with_row self.old.words.now self.old.rows self.old.buckets (row_of files.now) g }
        ensures shape { (self.new.rows ≡ self.old.rows) × (self.new.buckets ≡ self.old.buckets) }
    {
        crate::enter(self.words, self.buckets, files, g);
    }

    // The bucket of a name.
    pub fn bucket(&self, name: &[u8]) -> usize
        ensures { (result ≡ bucket_of self.now.buckets name.now) × (result < self.now.buckets) }
    {
        bucket(name, self.buckets)
    }

    // The same, moved on by so many buckets, past the last one to the first.
    pub fn bucket_from(&self, name: &[u8], by: u32) -> usize
        ensures { (result ≡ (bucket_of self.now.buckets name.now + by) % self.now.buckets) × (result < self.now.buckets) }
    {
        (self.bucket(name) + by as usize) % self.buckets
    }

    // Row g is put into bucket h, above all rows that are in.
    pub fn push(&mut self, h: usize, g: usize)
        requires { (h < self.old.buckets) × (g < self.old.rows) }
        ensures put { self.new.words.now ≡ pushed self.old.words.now self.old.rows h g }
        ensures shape { (self.new.rows ≡ self.old.rows) × (self.new.buckets ≡ self.old.buckets) }
    {
        push(self.words, self.rows, h, g);
    }

    // Row g, the newest of bucket h, is taken out.
    pub fn pop(&mut self, h: usize, g: usize)
        requires { (h < self.old.buckets) × (g < self.old.rows) }
        ensures out { self.new.words.now ≡ set self.old.words.now (self.old.rows + h) (get_or self.old.words.now g 0) }
        ensures shape { (self.new.rows ≡ self.old.rows) × (self.new.buckets ≡ self.old.buckets) }
    {
        self.words[self.rows + h] = self.words[g];
    }

    // Where the rows of bucket h begin: the newest row's number and one more, 0 where there is none.
    pub fn first(&self, h: usize) -> usize
        requires { h < self.now.buckets }
        ensures { result ≡ get_or self.now.words.now (self.now.rows + h) 0 }
    {
        self.words[self.rows + h] as usize
    }

    // Where they go on below row g.
    pub fn after(&self, g: usize) -> usize
        requires { g < self.now.rows }
        ensures { result ≡ get_or self.now.words.now g 0 }
    {
        self.words[g] as usize
    }

    // Whether a row that is in bears the name: only the rows of the name's bucket are looked at.
    pub fn find(&self, files: &Files, bearers: Bearers, name: &[u8]) -> bool
        requires { (g : ℕ) × Indexes self.now files.now g }
        ensures { (g : ℕ) → Indexes self.now files.now g → result ≡ known_before files.now (only_functions bearers) name.now g }
    {
        crate::find(self.words, self.rows, self.buckets, files, bearers, name)
    }
}

// Row g is put into bucket h, above all rows that are in.
pub fn push(words: &mut [u32], rows: usize, h: usize, g: usize)
    requires { (rows < 4294967296) × (g < rows) × (rows + h < length words.old) }
    ensures { words.new ≡ pushed words.old rows h g }
{
    let at = rows + h;
    words[g] = words[at];
    words[at] = g as u32 + 1;
}

// The bucket of a name, of so many.
pub fn bucket(name: &[u8], buckets: usize) -> usize
    requires { (0 < buckets) × (buckets < 4294967296) }
    ensures { (result ≡ bucket_of buckets name.now) × (result < buckets) }
{
    let spread = hash(name).wrapping_mul(2654435769);
    spread as usize * buckets / 4294967296
}

// The hash of a name's canonical form.
fn hash(name: &[u8]) -> u32
    ensures { result ≡ hash_of name.now }
{
    let mut x: u32 = 2166136261;
    for b in name {
        x = x
            .wrapping_mul(16777619)
            .wrapping_add(u32::from(name_byte(*b)));
    }
    x
}
