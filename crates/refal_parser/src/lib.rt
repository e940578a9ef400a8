// The parser: token rows to node rows.
#![tactic(auto)]

ghost use Rattle.std.specs.Prelude.{◌≡◌, OnOk};
ghost use Rattle.refal_ast.specs.Told.{told};
ghost use Rattle.refal_parser.specs.Parse.{parse_answer, parse_rows};

mod answers;
mod block;
mod check;
mod items;
mod nodes;
mod place;
mod terms;

use refal_ast::answers::{Reason, Refusal};
use refal_ast::nodes::WIDTH;

// How many rows the tree of the tokens has, which are put where they fit.
fn tree(tokens: &[u32], rows: &mut [u32]) -> Result<usize, Refusal>
    ensures answer { told result ≡ parse_answer tokens.now rows.old }
    ensures left { OnOk result (rows.new ≡ parse_rows tokens.now rows.old) }
{
    if !check::check(tokens) {
        return Err(Refusal::from(Reason::NoTokenRows));
    }
    let nodes = items::program(tokens, rows)?.row;
    let words = WIDTH * nodes;
    if words <= rows.len() {
        Ok(nodes)
    } else {
        Err(Refusal::needing(Reason::NodeRowsShort, nodes))
    }
}

// The tree of the tokens, put into the rows parent first; or the refusal, and every word 0.
pub fn parse(tokens: &[u32], rows: &mut [u32]) -> Result<usize, Refusal>
    ensures answer { told result ≡ parse_answer tokens.now rows.old }
    ensures left { rows.new ≡ parse_rows tokens.now rows.old }
{
    let answer = tree(tokens, rows);
    if answer.is_err() {
        rows.fill(0);
    }
    answer
}
