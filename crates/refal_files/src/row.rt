// A row of one of two files.
ghost use Rattle.refal_ast.specs.Nodes.{HasRow};

use crate::File;
use refal_ast::answers;
use refal_ast::kinds::UnknownKind;
use refal_ast::nodes::Node;

// The file, which one it is, and the row's number there.
#[derive(Clone, Copy, Debug, PartialEq, Eq)]
pub struct Row<'a> {
    pub file: File<'a>,
    pub which: answers::File,
    pub number: usize,
    ghost stands: { HasRow file.tree.now number },
}

impl<'a> Row<'a> {
    ghost use Rattle.refal_ast.specs.Rows.{ReadsNode};

    pub fn node(&self) -> Result<Node, UnknownKind>
        ensures { ReadsNode self.now.file.tree.now self.now.number result }
    {
        Node::read(self.file.tree, self.number)
    }
}
