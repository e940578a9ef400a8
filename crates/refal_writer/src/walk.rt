// The walk over the rows of a tree: for each row what stands before its children, the children, what stands after them.
ghost use Rattle.std.specs.Prelude.{◌≡◌, ◌+◌, ◌*◌, ◌≤◌, length};
ghost use Rattle.refal_ast.specs.Nodes.{node_width};
ghost use Rattle.refal_ast.specs.Limits.{most_rows};
ghost use Rattle.refal_tree.specs.StateCodes.{state_code};
ghost use Rattle.refal_tree.specs.Walk.{flat_at};
ghost use Rattle.refal_writer.specs.Puts.{Puts};
ghost use Rattle.refal_writer.specs.Token.{text_of};
ghost use Rattle.refal_writer.specs.Walk.{Walks, widest};

use crate::opening::{write_closing, write_opening};
use refal_ast::nodes::Node;
use refal_tree::states::State;

// The rows from .. to, the first of which stands in the state `start`. By index: a row tells where the next one beside it stands.
pub fn write_rows(
    tree: &[u32],
    src: &[u8],
    from: usize,
    to: usize,
    start: State,
    out: &mut [u8],
) -> usize
    requires { (from ≤ to) × (node_width * to ≤ length tree.now) × (to ≤ most_rows) × Walks tree.now from to (state_code start) }
    ensures { Puts (text_of src.now (flat_at tree.now from to (state_code start))) result out.old out.new × (result + from * widest ≤ to * widest) }
{
    let mut i = from;
    let mut state = start;
    let mut at = 0;
    while i < to {
        // The rows keep the rules: each kind is known, and each row may stand where it does.
        let node = Node::read(tree, i).unwrap();
        let next = node.next as usize;
        let middle = at.min(out.len());
        at += write_opening(node, state, src, &mut out[middle..]);
        let middle = at.min(out.len());
        at += write_rows(
            tree,
            src,
            i + 1,
            next,
            State::inside(node.kind),
            &mut out[middle..],
        );
        let middle = at.min(out.len());
        at += write_closing(node, state, &mut out[middle..]);
        state = state.after(node.kind, node.detail).unwrap();
        i = next;
    }
    at
}
