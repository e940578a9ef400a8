// What stands before a row's children, and after them, by the row's kind and the state in which it stands.
ghost use Rattle.std.specs.Prelude.{◌≡◌, ◌≤◌, ◌<◌};
ghost use Rattle.refal_ast.specs.KindCodes.{node_code};
ghost use Rattle.refal_ast.specs.Kinds.{node_variable};
ghost use Rattle.refal_spelling.specs.Spell.{text, text_at};
ghost use Rattle.refal_tree.specs.StateCodes.{state_code};
ghost use Rattle.refal_writer.specs.Puts.{Puts};
ghost use Rattle.refal_writer.specs.Words.{open_words, close_words};

use crate::bytes::{Put, Word};
use crate::token::{Mark, put_char};
use refal_ast::kinds::NodeKind;
use refal_ast::nodes::Node;
use refal_tree::states::State;

// Before the children of a row: a leaf whole, or what opens the others.
#[tactic(auto, using(crate::specs::TextPuts::opened, crate::specs::Token::name_is, crate::specs::Token::number_is, crate::specs::Token::variable_is))]
pub fn write_opening(node: Node, state: State, src: &[u8], out: &mut [u8]) -> usize
    requires { node_code node.kind ≡ node_variable → node.detail < 256 }
    ensures { Puts (text (open_words (state_code state) (node_code node.kind) node.detail (text_at src.now node.start node.len))) result out.old out.new × (result ≤ 4294967312) }
{
    let word = Word {
        text: refal_spelling::text_of(node, src),
    };
    let name = (word, b" ");
    match (node.kind, state) {
        (NodeKind::Declaration, _) => Mark::Extern.put(out),
        (NodeKind::Name, State::Names) => (Mark::Comma, name).put(out),
        (NodeKind::Function, _) if node.detail == 1 => {
            (Mark::Entry, (name, Mark::LBrace)).put(out)
        }
        (NodeKind::Function, _) => (name, Mark::LBrace).put(out),
        (NodeKind::Condition, _) => Mark::Comma.put(out),
        (NodeKind::Terms, State::Conditions) => Mark::Equals.put(out),
        (NodeKind::EndingBlock, _) => (Mark::Equals, Mark::Comma).put(out),
        (NodeKind::ConditionBlock, _) => Mark::LBrace.put(out),
        (NodeKind::Name | NodeKind::Identifier, _) => name.put(out),
        (NodeKind::Number, _) => name.put(out),
        (NodeKind::Char, _) => put_char(node.detail, out),
        (NodeKind::Variable, _) => (&[node.detail as u8, b'.'], name).put(out),
        (NodeKind::Bracket, _) => Mark::LParen.put(out),
        (NodeKind::Call, _) => (Mark::LAngle, name).put(out),
        (NodeKind::Sentence | NodeKind::Terms, _) => ().put(out),
    }
}

// After the children of a row; a sentence's `;` may be left off.
#[tactic(auto, using(crate::specs::TextPuts::opened))]
pub fn write_closing(node: Node, state: State, out: &mut [u8]) -> usize
    ensures { Puts (text (close_words (state_code state) (node_code node.kind) node.detail)) result out.old out.new × (result ≤ 16) }
{
    match (node.kind, state) {
        (NodeKind::Terms, State::Condition) => Mark::Colon.put(out),
        (NodeKind::Terms, State::Argument) => (Mark::Colon, Mark::LBrace).put(out),
        (NodeKind::Bracket, _) => Mark::RParen.put(out),
        (NodeKind::Call, _) => Mark::RAngle.put(out),
        (NodeKind::Sentence, _) if node.detail == 1 => ().put(out),
        (NodeKind::Sentence | NodeKind::Declaration, _) => Mark::Semicolon.put(out),
        (NodeKind::Function | NodeKind::EndingBlock | NodeKind::ConditionBlock, _) => {
            Mark::RBrace.put(out)
        }
        _ => ().put(out),
    }
}
