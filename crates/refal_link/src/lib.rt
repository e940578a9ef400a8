// Linking: two files, each a tree with its source. No two functions of both may have equal names, every call must name a
// function or a declared name of either, and every variable that is used must be bound.
#![tactic(auto)]

ghost use Rattle.std.specs.Prelude.{◌≡◌, true, false, ℕ, ◌≤◌, ◌<◌, [], eqb, IfOk};
ghost use Rattle.refal_text.specs.Pick.{pick};
ghost use Rattle.refal_ast.specs.Kinds.{node_call};
ghost use Rattle.refal_ast.specs.Answers.{refusal, Answer, Refused};
ghost use Rattle.refal_ast.specs.Told.{told, refusal_told, reason_code, file_code};
ghost use Rattle.refal_tree.specs.Lawful.{lawful};
ghost use Rattle.refal_files.specs.View.{rows_of, row_of};
ghost use Rattle.refal_link.specs.Link.{functions, repeated as first_repeated, shown, shown_at, resolved, linked, link_words};
ghost use Rattle.refal_link.specs.LinkLaws.{repeats as is_repeated, bucket_count};
ghost use Rattle.refal_link.specs.View.{rows, is_lost, answer_for, checked_file, bound_file, reason_or, refused_or, Tells};

use refal_ast::answers::{self, Found, Reason, Refusal, Span};
use refal_ast::kinds::NodeKind;
use refal_ast::nodes::Node;
pub use refal_files::{File, Files};
use refal_index::{Bearers, Names};

// The refusal that shows a node of a file.
fn refusal_at(reason: Reason, which: answers::File, node: &Node) -> Refusal
    ensures { refusal_told result ≡ refusal (reason_code reason) 0 (file_code which) node.now.from node.now.to 0 }
{
    let span = Span {
        start: node.from as usize,
        end: node.to as usize,
    };
    Refusal {
        found: Some(Found::File(which)),
        ..Refusal::at(reason, span)
    }
}

// The next row is refused if it is a function whose name an earlier one has.
fn repeats(names: &Names) -> Result<(), Refusal>
    requires { names.now.entered < rows_of names.now.files }
    ensures { Tells result (is_repeated (row_of names.now.files) names.now.entered) (shown_at 60 (row_of names.now.files names.now.entered)) }
{
    let row = names.files.row(names.entered);
    match row.node() {
        Ok(node)
            if node.kind == NodeKind::Function
                && names.known(Bearers::Functions, names.files.text(names.entered)) => {
            Err(refusal_at(Reason::FunctionRepeated, row.which, &node))
        }
        _ => Ok(()),
    }
}

// The first function whose name an earlier one has is refused; if there is none, every row is entered.
fn repeated(names: &mut Names) -> Result<(), Refusal>
    requires { names.old.entered ≡ 0 }
    ensures answer { (rest : Answer) → refused_or result rest ≡ shown 60 (first_repeated [] (functions (rows names.old.files))) rest }
    ensures entered { IfOk result (λ _. (names.new.files ≡ names.old.files) × (names.new.entered ≡ rows_of names.old.files)) }
{
    let files = names.files;
    for _ in 0..files.count() {
        repeats(names)?;
        names.enter();
    }
    Ok(())
}

// 1 for a call, whose name a row must bear; 0 for another row.
fn call(names: &Names, g: usize) -> Result<usize, Refusal>
    requires { (names.now.entered ≡ rows_of names.now.files) × (g < rows_of names.now.files) }
    ensures tells { Tells result (is_lost names.now.files g) (shown_at 61 (row_of names.now.files g)) }
    ensures one { IfOk result (λ n. (n ≡ pick (eqb (row_of names.now.files g).node.kind node_call) 1 0) × (n ≤ 1)) }
{
    let row = names.files.row(g);
    match row.node() {
        Ok(node) if node.kind == NodeKind::Call => {
            if names.known(Bearers::All, names.files.text(g)) {
                Ok(1)
            } else {
                Err(refusal_at(Reason::FunctionMissing, row.which, &node))
            }
        }
        _ => Ok(0),
    }
}

// Every call's name is looked for: how many calls there are, or the first whose name is missing.
fn resolve(names: &Names) -> Result<usize, Refusal>
    requires { names.now.entered ≡ rows_of names.now.files }
    ensures { told result ≡ resolved (rows names.now.files) }
{
    let mut found = 0;
    for g in 0..names.entered {
        found += call(names, g)?;
    }
    Ok(found)
}

// How many buckets there are for n rows in so many words: one for eight rows, since few rows bear names, or fewer where the
// words end.
fn bucket_count(n: usize, words: usize) -> usize
    requires { n < 4294967296 }
    ensures { result ≡ bucket_count n words }
{
    words.saturating_sub(n).min(n / 8 + 1)
}

// The answer for two files that passed 40 and 41.
fn link_rows(files: &Files, work: &mut [u32]) -> Result<usize, Refusal>
    requires { rows_of files.now < 4294967296 }
    ensures { told result ≡ linked (rows files.now) }
{
    let buckets = bucket_count(files.count(), work.len());
    let mut names = Names::new(*files, work, buckets);
    repeated(&mut names)?;
    resolve(&names)
}

// 40 and 41 of a file.
fn check(file: &File) -> Result<(), Reason>
    ensures answer { (rest : Answer) → reason_or result rest ≡ checked_file file.now rest }
    ensures is_tree { IfOk result (λ _. lawful file.now.tree.now ≡ true) }
{
    if !refal_tree::lawful(file.tree) {
        return Err(Reason::NoTree);
    }
    if !refal_spelling::spellings(file.tree, file.source) {
        return Err(Reason::NotSpelled);
    }
    Ok(())
}

// The first variable of a file that is used unbound is refused.
fn bound(file: &File, which: answers::File, work: &mut [u32]) -> Result<(), Refusal>
    requires { lawful file.now.tree.now ≡ true }
    ensures { (rest : Answer) → refused_or result rest ≡ bound_file (file_code which) file.now rest }
{
    match refal_bound::unbound(file, work) {
        Some(variable) => Err(refusal_at(Reason::VariableUnbound, which, &variable)),
        None => Ok(()),
    }
}

// The answer, whatever the words hold.
fn answer(files: &Files, work: &mut [u32]) -> Result<usize, Refusal>
    ensures { told result ≡ answer_for files.now }
{
    check(&files.one)?;
    check(&files.two)?;
    let calls = link_rows(files, work)?;
    bound(&files.one, answers::File::One, work)?;
    bound(&files.two, answers::File::Two, work)?;
    Ok(calls)
}

// The number of calls of both files, all of which are resolved, or the first refusal. The answer does not depend on `work`, every
// word of which is 0 afterwards; with 2 words for each row of both trees the time is linear on average.
pub fn link(files: &Files, work: &mut [u32]) -> Result<usize, Refusal>
    ensures value { told result ≡ answer_for files.now }
    ensures work_after { work.new ≡ link_words work.old }
{
    let result = answer(files, work);
    work.fill(0);
    result
}
