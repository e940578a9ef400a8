// Unbound variables of a file: the first variable that is used where no equal one is bound.
#![tactic(auto)]

mod patterns;
mod plain;
mod scan;

ghost use Rattle.std.specs.Prelude.{◌≡◌, true, not};
ghost use Rattle.refal_tree.specs.Lawful.{lawful};
ghost use Rattle.refal_bound.specs.View.{IsFirst};

use crate::patterns::Tree;
use refal_ast::nodes::Node;
pub use refal_files::File;

// The first variable of a lawful tree that is used unbound. It does not depend on the words; with two for each row the time is
// linear on average.
pub fn unbound(file: &File, words: &mut [u32]) -> Option<Node>
    requires { lawful file.now.tree.now ≡ true }
    ensures { IsFirst file.now.tree.now file.now.source.now result }
{
    let tree = Tree {
        tree: file.tree,
        source: file.source,
    };
    match tree.first_row(words) {
        Some(u) => tree.row(u),
        None => None,
    }
}
