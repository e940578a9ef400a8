// What the kinds of rows are: terms, and levels of the depth.
ghost use Rattle.std.specs.Prelude.{◌≡◌};
ghost use Rattle.refal_ast.specs.KindCodes.{node_code};
ghost use Rattle.refal_tree.specs.States.{term_kind, counts as is_level, room};

use refal_ast::kinds::NodeKind;

// Whether rows of the kind are terms.
pub fn is_term(kind: NodeKind) -> bool
    ensures { result ≡ term_kind (node_code kind) }
{
    matches!(
        kind,
        NodeKind::Identifier
            | NodeKind::Number
            | NodeKind::Char
            | NodeKind::Variable
            | NodeKind::Bracket
            | NodeKind::Call
    )
}

// Whether rows of the kind count for the depth.
fn counts(kind: NodeKind) -> bool
    ensures { result ≡ is_level (node_code kind) }
{
    matches!(
        kind,
        NodeKind::EndingBlock | NodeKind::ConditionBlock | NodeKind::Bracket | NodeKind::Call
    )
}

// Whether a row of the kind may stand where so many levels are left.
pub fn has_room(kind: NodeKind, left: usize) -> bool
    ensures { result ≡ room (node_code kind) left }
{
    !counts(kind) || 1 <= left
}
