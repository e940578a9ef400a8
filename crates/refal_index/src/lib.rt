// The rows of two trees that bear names, Functions and declared Names, looked up by a hash of the canonical name, over lent
// words: a link for each row, then the heads of buckets. Without words, a search that answers the same.
#![tactic(auto)]

mod index;

ghost use Rattle.std.specs.Prelude.{◌≡◌, ℕ, ◌+◌, ◌≤◌, ◌<◌, length};
ghost use Rattle.refal_files.specs.View.{rows_of, row_of, placed_of};
ghost use Rattle.refal_index.specs.Named.{bears, answers_to, Sized, Holds, with_row};
ghost use Rattle.refal_index.specs.View.{only_functions, known_before, IndexesIf, indexes_if_prop};

pub use crate::index::Index;
use refal_ast::kinds::NodeKind;
use refal_ast::names::identifiers_equal;
use refal_files::Files;

// Which rows bear names: functions only, or declared names too.
#[derive(Clone, Copy, Debug, PartialEq, Eq)]
pub enum Bearers {
    Functions,
    All,
}

const FUNCTION: u32 = NodeKind::Function as u32;

const NAME: u32 = NodeKind::Name as u32;

impl Bearers {
    // Of a kind's number: a search asks it of every row, so no row is read whole for it.
    fn include(self, kind: u32) -> bool
        ensures { result ≡ bears (only_functions self) kind }
    {
        (kind == FUNCTION) | (matches!(self, Bearers::All) & (kind == NAME))
    }

    // Whether row g bears the name.
    #[tactic(auto, unfolding(crate::specs::Named::answers_to))]
    fn bear(self, files: &Files, g: usize, name: &[u8]) -> bool
        requires { g < rows_of files.now }
        ensures { result ≡ answers_to (only_functions self) name.now (row_of files.now g) }
    {
        self.include(files.kind(g)) && identifiers_equal(name, files.text(g))
    }
}

// Whether a row before g bears the name: a search over all rows.
fn search(files: &Files, g: usize, bearers: Bearers, name: &[u8]) -> bool
    requires { g ≤ rows_of files.now }
    ensures { result ≡ known_before files.now (only_functions bearers) name.now g }
{
    (0..g).any(|i| bearers.bear(files, i, name))
}

// Whether a row that is in bears the name, over words that are lent for reading alone.
fn find(
    words: &[u32],
    rows: usize,
    buckets: usize,
    files: &Files,
    bearers: Bearers,
    name: &[u8],
) -> bool
    requires some { 0 < buckets }
    requires sized { Sized rows buckets files.now.one.tree.now files.now.two.tree.now }
    requires holds { (g : ℕ) × Holds words.now rows buckets (row_of files.now) g }
    ensures { (g : ℕ) → Holds words.now rows buckets (row_of files.now) g → result ≡ known_before files.now (only_functions bearers) name.now g }
{
    let at = rows + index::bucket(name, buckets);
    let mut next = words[at] as usize;
    while let Some(g) = next.checked_sub(1) {
        if bearers.bear(files, g, name) {
            return true;
        }
        next = words[g] as usize;
    }
    false
}

// Whether a row before g bears the name: by the index that the words hold where there are buckets, else by a search.
pub fn known(
    words: &[u32],
    buckets: usize,
    files: &Files,
    g: usize,
    bearers: Bearers,
    name: &[u8],
) -> bool
    requires { Sized (rows_of files.now) buckets files.now.one.tree.now files.now.two.tree.now × (g ≤ rows_of files.now) × Holds words.now (rows_of files.now) buckets (row_of files.now) g }
    ensures { result ≡ known_before files.now (only_functions bearers) name.now g }
{
    match buckets {
        0 => search(files, g, bearers, name),
        _ => find(words, files.count(), buckets, files, bearers, name),
    }
}

// Row g is entered into the index that the words hold, if there are buckets and the row bears a name.
pub fn enter(words: &mut [u32], buckets: usize, files: &Files, g: usize)
    requires sized { Sized (rows_of files.now) buckets files.now.one.tree.now files.now.two.tree.now × (g < rows_of files.now) }
    requires room { 0 < buckets → rows_of files.now + buckets ≤ length words.old }
    ensures { words.new ≡ with_row words.old (rows_of files.now) buckets (row_of files.now) g }
{
    if buckets > 0 && Bearers::All.include(files.kind(g)) {
        let h = index::bucket(files.text(g), buckets);
        index::push(words, files.count(), h, g);
    }
}

// The names of the rows before `entered`.
#[derive(Drop)]
pub struct Names<'w, 'a> {
    pub files: Files<'a>,
    pub entered: usize,
    index: Option<Index<'w>>,
    ghost within: { (rows_of files < 4294967296) × (entered ≤ rows_of files) },
    ghost indexed: { IndexesIf index files entered } by { indexes_if_prop index files entered },
}

impl<'w, 'a> Names<'w, 'a> {
    ghost use Rattle.refal_index.specs.Known.{knows, EntersNext, Over};

    // Those of no row, over so many buckets. Where there is none, names are searched for.
    pub fn new(files: Files<'a>, words: &'w mut [u32], buckets: usize) -> Names<'w, 'a>
        requires words { (rows_of files < 4294967296) × (buckets < 4294967296) }
        requires room { 0 < buckets → rows_of files + buckets ≤ length words.old }
        ensures none { (result.files ≡ files.entry) × (result.entered ≡ 0) }
        ensures index { Over result.index files.entry buckets }
    {
        let index = match buckets {
            0 => None,
            _ => Some(Index::new(words, files.count(), buckets)),
        };
        Names {
            files,
            entered: 0,
            index,
        }
    }

    // Whether a row that is entered bears the name.
    pub fn known(&self, bearers: Bearers, name: &[u8]) -> bool
        ensures { result ≡ knows self.now (only_functions bearers) name.now }
    {
        match &self.index {
            Some(index) => index.find(&self.files, bearers, name),
            None => search(&self.files, self.entered, bearers, name),
        }
    }

    // The next row is entered.
    pub fn enter(&mut self)
        requires { self.old.entered < rows_of self.old.files }
        ensures { EntersNext self.old self.new }
    {
        if let Some(index) = &mut self.index {
            index.enter(&self.files, self.entered);
        }
        self.entered += 1;
    }
}
