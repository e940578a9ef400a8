// Nodes by what they are made of.
ghost use Rattle.std.specs.Prelude.{◌≡◌, ◌≤◌};

use refal_ast::kinds::NodeKind;
use refal_ast::nodes::Node;
use refal_ast::tree::{Symbol, VariableKind};

// What a node covers: its span, and the rows before the row `next`; and its parent's row.
#[derive(Clone, Copy, Debug, PartialEq, Eq)]
pub struct Extent {
    pub from: u32,
    pub to: u32,
    pub next: usize,
    pub parent: u32,
    pub ghost few: { next ≤ 1073741824 },
}

impl Extent {
    ghost use Rattle.std.specs.Prelude.{◌≡◌};
    ghost use Rattle.refal_ast.specs.Kinds.{node_function};
    ghost use Rattle.refal_ast.specs.KindCodes.{node_code};
    ghost use Rattle.refal_ast.specs.Rows.{node_told};
    ghost use Rattle.refal_ast.specs.Nodes.{node, node_words};
    ghost use Rattle.refal_ast.specs.Tree.{symbol, variable};
    ghost use Rattle.refal_ast.specs.Encode.{entry_detail, leaf_row};
    ghost use Rattle.refal_parser.specs.Writers.{sentence_row, span_row};

    // A node that has no text.
    pub fn bare(self, kind: NodeKind) -> Node
        ensures { node_words (node_told result) ≡ span_row (node_code kind) self.from self.to self.next self.parent }
    {
        Node {
            kind,
            detail: 0,
            start: 0,
            len: 0,
            from: self.from,
            to: self.to,
            next: self.next as u32,
            parent: self.parent,
        }
    }

    // A node that has a text.
    pub fn named(self, kind: NodeKind, start: u32, len: u32) -> Node
        ensures { node_words (node_told result) ≡ node (node_code kind) 0 start len self.from self.to self.next self.parent }
    {
        Node {
            start,
            len,
            ..self.bare(kind)
        }
    }

    pub fn function(self, entry: bool, start: u32, len: u32) -> Node
        ensures { node_words (node_told result) ≡ node node_function (entry_detail entry) start len self.from self.to self.next self.parent }
    {
        Node {
            detail: u32::from(entry),
            ..self.named(NodeKind::Function, start, len)
        }
    }

    // A sentence, and whether its `;` is left off.
    pub fn sentence(self, left_off: bool) -> Node
        ensures { node_words (node_told result) ≡ sentence_row left_off self.from self.to self.next self.parent }
    {
        Node {
            detail: u32::from(left_off),
            ..self.bare(NodeKind::Sentence)
        }
    }

    pub fn symbol(self, leaf: Symbol) -> Node
        ensures { node_words (node_told result) ≡ leaf_row (symbol leaf) self.from self.to self.next self.parent }
    {
        match leaf {
            Symbol::Char(detail) => Node {
                detail,
                ..self.bare(NodeKind::Char)
            },
            Symbol::Identifier { start, len } => self.named(NodeKind::Identifier, start, len),
            Symbol::Number { start, len } => self.named(NodeKind::Number, start, len),
        }
    }

    pub fn variable(self, kind: VariableKind, start: u32, len: u32) -> Node
        ensures { node_words (node_told result) ≡ leaf_row (variable kind start len) self.from self.to self.next self.parent }
    {
        Node {
            detail: u32::from(kind),
            ..self.named(NodeKind::Variable, start, len)
        }
    }
}
