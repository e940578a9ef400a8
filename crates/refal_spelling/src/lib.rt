// How tokens are spelled in a written text, and the test for refusal 41: every text of a row stands in the source and is a
// spelling that reading gives for the row's kind; a Char is no newline, and a scalar value.
#![tactic(auto)]

mod words;

ghost use Rattle.std.specs.Prelude.{◌≡◌, ◌≤◌, length};
ghost use Rattle.refal_ast.specs.KindCodes.{node_code};
ghost use Rattle.refal_ast.specs.Nodes.{HasRow, word_at, col_start, col_len};
ghost use Rattle.refal_spelling.specs.Spell.{text_at};
ghost use Rattle.refal_spelling.specs.Spellings.{char_ok, number_ok, text_spelled, row_spelled, all_spelled};

use crate::words::{is_identifier, is_index, is_number};
use refal_ast::kinds::NodeKind;
use refal_ast::nodes::Node;
use refal_ast::{limits, nodes};

// Neither newline nor outside the scalar values.
fn is_char(x: u32) -> bool
    ensures { result ≡ char_ok x }
{
    char::from_u32(x).is_some_and(|c| c != '\n')
}

// A Number that reading gives.
fn number_ok(word: &[u8]) -> bool
    ensures { result ≡ number_ok word.now }
{
    is_number(word) && word.len() <= limits::MOST_BYTES
}

// The text of a node whose kind uses it.
fn text_spelled(node: Node, src: &[u8]) -> bool
    ensures { result ≡ text_spelled src.now (node_code node.kind) node.start node.len }
{
    let from = node.start as usize;
    let end = from + node.len as usize;
    let Some(word) = src.get(from..end) else {
        return false;
    };
    match node.kind {
        NodeKind::Number => number_ok(word),
        NodeKind::Variable => is_index(word),
        _ => is_identifier(word),
    }
}

// The bytes of the source from `start` on, `len` of them; what lies outside the source is not there.
fn part<'a>(src: &'a [u8], start: u32, len: u32) -> &'a [u8]
    ensures text { result.now ≡ text_at src.now start len }
    ensures short { length result.now ≤ 4294967295 }
{
    let from = (start as usize).min(src.len());
    let n = (len as usize).min(src.len() - from);
    &src[from..from + n]
}

// The text of a node, as a part of the source.
pub fn text_of<'a>(node: Node, src: &'a [u8]) -> &'a [u8]
    ensures text { result.now ≡ text_at src.now node.start node.len }
    ensures short { length result.now ≤ 4294967295 }
{
    part(src, node.start, node.len)
}

// The text of row i, as a part of the source. It asks nothing of the row, whose kind may be unknown.
pub fn text<'a>(tree: &[u32], src: &'a [u8], i: usize) -> &'a [u8]
    requires { HasRow tree.now i }
    ensures { (result.now ≡ text_at src.now (word_at tree.now i col_start) (word_at tree.now i col_len)) × (length result.now ≤ 4294967295) }
{
    part(src, nodes::text_start(tree, i), nodes::text_len(tree, i))
}

// One node.
#[tactic(auto, unfolding(crate::specs::Spellings::row_spelled))]
fn row_spelled(node: Node, src: &[u8]) -> bool
    ensures { result ≡ row_spelled src.now (node_code node.kind) node.detail node.start node.len }
{
    match node.kind {
        NodeKind::Char => is_char(node.detail),
        kind if kind.has_text() => text_spelled(node, src),
        _ => true,
    }
}

// Every row of the tree. A row of an unknown kind has no text.
pub fn spellings(tree: &[u32], src: &[u8]) -> bool
    ensures { result ≡ all_spelled src.now tree.now }
{
    // Not by `all`: a row of an unknown kind passes, and a `for` says so plainly. Tree and source are apart here: refal_files, whose
    // `File` joins them, stands above.
    for row in tree.chunks_exact(nodes::WIDTH) {
        let Ok(node) = Node::read(row, 0) else {
            continue;
        };
        if !row_spelled(node, src) {
            return false;
        }
    }
    true
}
