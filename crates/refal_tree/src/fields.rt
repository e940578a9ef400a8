// The fields of a row: which kinds use which, and that the others are 0.
ghost use Rattle.std.specs.Prelude.{◌≡◌};
ghost use Rattle.refal_ast.specs.KindCodes.{node_code};
ghost use Rattle.refal_tree.specs.Rules.{detail_ok, text_ok, span_ok};

use refal_ast::kinds::NodeKind;
use refal_ast::nodes::Node;
use refal_ast::tree::VariableKind;

// A function's and a sentence's detail is 0 or 1, a variable's its letter.
pub fn detail_ok(node: Node) -> bool
    ensures { result ≡ detail_ok (node_code node.kind) node.detail }
{
    match node.kind {
        NodeKind::Function | NodeKind::Sentence => node.detail <= 1,
        NodeKind::Char => true,
        NodeKind::Variable => VariableKind::try_from(node.detail).is_ok(),
        _ => node.detail == 0,
    }
}

pub fn text_ok(node: Node) -> bool
    ensures { result ≡ text_ok (node_code node.kind) node.start node.len }
{
    node.kind.has_text() || (node.start == 0 && node.len == 0)
}

pub fn span_ok(node: Node) -> bool
    ensures { result ≡ span_ok (node_code node.kind) node.from node.to }
{
    match node.kind {
        NodeKind::Name | NodeKind::Terms => node.from == 0 && node.to == 0,
        _ => true,
    }
}
