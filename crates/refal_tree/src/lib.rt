// Trees of rows: whether words are the rows of a lawful tree.
#![tactic(auto)]

mod fields;
pub mod kinds;
pub mod states;

ghost use Rattle.std.specs.Prelude.{◌≡◌, ◌*◌, ◌≤◌, length};
ghost use Rattle.refal_ast.specs.Limits.{most_rows};
ghost use Rattle.refal_ast.specs.Nodes.{node_width};
ghost use Rattle.refal_ast.specs.Rows.{node_told};
ghost use Rattle.refal_tree.specs.Forest.{own};
ghost use Rattle.refal_tree.specs.StateCodes.{state_code, Stands};
ghost use Rattle.refal_tree.specs.Ranges.{ok_at};
ghost use Rattle.refal_tree.specs.Lawful.{lawful as is_lawful};

use crate::kinds::has_room;
use crate::states::State;
use refal_ast::nodes::Node;
use refal_ast::{limits, nodes};

// The state after a row that keeps the rules, None where it may not stand where so many levels are left.
fn after_row(node: Node, state: State, left: usize) -> Option<State>
    ensures { Stands (state_code state) left (own (node_told node)) result }
{
    let fields = fields::detail_ok(node) && fields::text_ok(node) && fields::span_ok(node);
    if fields && has_room(node.kind, left) {
        state.after(node.kind, node.detail)
    } else {
        None
    }
}

// Whether the rows from .. to are children of the parent that keep the rules, from the state `start` on: each row, and below
// it the same check of its children. A row tells where the next child stands, so no iterator gives the children.
fn check(tree: &[u32], from: usize, to: usize, start: State, left: usize, parent: u32) -> bool
    requires { (from ≤ to) × (node_width * to ≤ length tree.now) × (to ≤ most_rows) }
    ensures { result ≡ ok_at tree.now from to (state_code start) left parent }
{
    let mut i = from;
    let mut state = start;
    while i < to {
        let Ok(node) = Node::read(tree, i) else {
            return false;
        };
        if node.parent != parent {
            return false;
        }
        let Some(after) = after_row(node, state, left) else {
            return false;
        };
        let end = node.next as usize;
        if end <= i || to < end {
            return false;
        }
        let inside = State::inside(node.kind);
        let below = state.below(node.kind, left);
        if !check(tree, i + 1, end, inside, below, i as u32) {
            return false;
        }
        state = after;
        i = end;
    }
    state.ends()
}

// Whether the words are the rows of a lawful tree: whole rows, not too many, no deeper than 64 levels, the top ones without a
// parent.
pub fn lawful(tree: &[u32]) -> bool
    ensures { result ≡ is_lawful tree.now }
{
    let rows = tree.len() / nodes::WIDTH;
    if tree.len() % nodes::WIDTH != 0 || rows > limits::MOST_ROWS {
        return false;
    }
    let levels = limits::MOST_LEVELS;
    check(tree, 0, rows, State::Items, levels, nodes::NO_PARENT)
}
