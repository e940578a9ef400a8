// Writing: from the rows of a tree and its source to a text that reads back the same.
#![tactic(auto)]

mod bytes;
mod opening;
mod token;
mod walk;

ghost use Rattle.std.specs.Prelude.{◌≡◌, IfOk};
ghost use Rattle.refal_ast.specs.Told.{told};
ghost use Rattle.refal_writer.specs.Write.{write_answer, write_bytes};

use refal_ast::answers::{Reason, Refusal};
use refal_ast::{limits, nodes};
use refal_tree::states::State;

// The text of the tree's tokens, or the first refusal, where `out` is left as it comes.
fn put_text(tree: &[u32], src: &[u8], out: &mut [u8]) -> Result<usize, Refusal>
    ensures value { told result ≡ write_answer tree.now src.now out.old }
    ensures out_after { IfOk result (λ n. out.new ≡ write_bytes tree.now src.now out.old) }
{
    if !refal_tree::lawful(tree) {
        return Err(Refusal::from(Reason::NoTree));
    }
    if !refal_spelling::spellings(tree, src) {
        return Err(Refusal::from(Reason::NotSpelled));
    }
    let room = out.len();
    let rows = tree.len() / nodes::WIDTH;
    let n = walk::write_rows(tree, src, 0, rows, State::Items, out);
    if n > room || n > limits::MOST_BYTES {
        return Err(Refusal::needing(Reason::TextTooLong, n));
    }
    Ok(n)
}

// The text of the tree's tokens, each as spelled in its source, with one space after it; or the first refusal, with every
// byte of `out` zero.
pub fn write(tree: &[u32], src: &[u8], out: &mut [u8]) -> Result<usize, Refusal>
    ensures value { told result ≡ write_answer tree.now src.now out.old }
    ensures out_after { out.new ≡ write_bytes tree.now src.now out.old }
{
    let answer = put_text(tree, src, out);
    if answer.is_err() {
        out.fill(0);
    }
    answer
}
