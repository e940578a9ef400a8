// Which rows may stand where. A state says what a node's children, from here on, may be.
ghost use Rattle.std.specs.Prelude.{◌≡◌};
ghost use Rattle.refal_ast.specs.KindCodes.{node_code};
ghost use Rattle.refal_tree.specs.States.{term_kind, state_next, state_inside, may_end, may_stand, room, opens, below};
ghost use Rattle.refal_tree.specs.StateCodes.{state_code, DecodesState, Follows};

use crate::kinds;
use refal_ast::kinds::NodeKind;

// A word that is the number of no state.
#[derive(Clone, Copy, Debug, PartialEq, Eq)]
pub struct UnknownState(pub u32);

// What a node's children, from here on, may be.
#[derive(Clone, Copy, Debug, PartialEq, Eq)]
pub enum State {
    // At the top: declarations and functions.
    Items = 1,
    // In a declaration, before its first name, and after a name.
    Name = 2,
    Names = 3,
    // In a function or a condition's block: sentences.
    Sentences = 4,
    // In a sentence, before its pattern, and after it: conditions, then terms or an ending block.
    Pattern = 5,
    Conditions = 6,
    // In a condition, before its first terms, and after them: terms or a block.
    Condition = 7,
    Colon = 8,
    // In terms, a bracket or a call: terms.
    Terms = 9,
    // In an ending block, before its argument, and after it: sentences.
    Argument = 10,
    Ending = 11,
    // No more rows.
    Closed = 12,
}

impl From<State> for u32 {
    ghost from_gives = { λ state word. word ≡ state_code state };

    fn from(state: State) -> u32 {
        state as u32
    }
}

impl TryFrom<u32> for State {
    type Error = UnknownState;

    ghost try_from_gives = { DecodesState };

    fn try_from(word: u32) -> Result<Self, UnknownState> {
        match word {
            1 => Ok(State::Items),
            2 => Ok(State::Name),
            3 => Ok(State::Names),
            4 => Ok(State::Sentences),
            5 => Ok(State::Pattern),
            6 => Ok(State::Conditions),
            7 => Ok(State::Condition),
            8 => Ok(State::Colon),
            9 => Ok(State::Terms),
            10 => Ok(State::Argument),
            11 => Ok(State::Ending),
            12 => Ok(State::Closed),
            _ => Err(UnknownState(word)),
        }
    }
}

impl State {
    // The state before the first child of a node of the kind.
    pub fn inside(kind: NodeKind) -> State
        ensures { state_code result ≡ state_inside (node_code kind) }
    {
        match kind {
            NodeKind::Declaration => State::Name,
            NodeKind::Function | NodeKind::ConditionBlock => State::Sentences,
            NodeKind::Sentence => State::Pattern,
            NodeKind::Condition => State::Condition,
            NodeKind::Terms | NodeKind::Bracket | NodeKind::Call => State::Terms,
            NodeKind::EndingBlock => State::Argument,
            _ => State::Closed,
        }
    }

    // The state after a row of the kind and the detail, None where no such row may stand. A sentence whose `;` is left off
    // is the last of its function or block.
    pub fn after(self, kind: NodeKind, detail: u32) -> Option<State>
        ensures { Follows (state_code self) (node_code kind) detail result }
    {
        match (self, kind) {
            (State::Items, NodeKind::Declaration | NodeKind::Function) => Some(State::Items),
            (State::Name | State::Names, NodeKind::Name) => Some(State::Names),
            (State::Sentences | State::Ending, NodeKind::Sentence) if detail == 1 => {
                Some(State::Closed)
            }
            (State::Sentences | State::Ending, NodeKind::Sentence) => Some(self),
            (State::Pattern, NodeKind::Terms) => Some(State::Conditions),
            (State::Conditions, NodeKind::Condition) => Some(State::Conditions),
            (State::Conditions, NodeKind::Terms | NodeKind::EndingBlock) => Some(State::Closed),
            (State::Condition, NodeKind::Terms) => Some(State::Colon),
            (State::Colon, NodeKind::Terms | NodeKind::ConditionBlock) => Some(State::Closed),
            (State::Terms, _) if kinds::is_term(kind) => Some(State::Terms),
            (State::Argument, NodeKind::Terms) => Some(State::Ending),
            _ => None,
        }
    }

    // Whether a node's children may end here.
    pub fn ends(self) -> bool
        ensures { result ≡ may_end (state_code self) }
    {
        matches!(
            self,
            State::Items
                | State::Names
                | State::Sentences
                | State::Terms
                | State::Ending
                | State::Closed
        )
    }

    // Whether the levels fall by one below a row of the kind. Those of an ending block fall at its sentences, since its
    // argument stands outside it.
    fn opens(self, kind: NodeKind) -> bool
        ensures { result ≡ opens (state_code self) (node_code kind) }
    {
        self == State::Ending
            || matches!(
                kind,
                NodeKind::ConditionBlock | NodeKind::Bracket | NodeKind::Call
            )
    }

    // The levels left below a row of the kind.
    pub fn below(self, kind: NodeKind, left: usize) -> usize
        ensures { result ≡ below (state_code self) (node_code kind) left }
    {
        if self.opens(kind) {
            left.saturating_sub(1)
        } else {
            left
        }
    }
}

// The same of numbers, whatever they are: nothing of a kind that is none stands anywhere, and nothing stands in a state that is none.

// Whether rows of the kind k are terms.
pub fn is_term(k: u32) -> bool
    ensures { result ≡ term_kind k }
{
    match NodeKind::try_from(k) {
        Ok(kind) => kinds::is_term(kind),
        Err(_) => false,
    }
}

// The state before the first child of a node of the kind k.
pub fn inside(k: u32) -> u32
    ensures { result ≡ state_inside k }
{
    match NodeKind::try_from(k) {
        Ok(kind) => u32::from(State::inside(kind)),
        Err(_) => u32::from(State::Closed),
    }
}

// Whether a node's children may end in the state st.
pub fn ends(st: u32) -> bool
    ensures { result ≡ may_end st }
{
    match State::try_from(st) {
        Ok(state) => state.ends(),
        Err(_) => false,
    }
}

// The state after a row of the kind k and the detail d in the state st, None where no such row may stand.
fn after(st: u32, k: u32, d: u32) -> Option<State>
    ensures { Follows st k d result }
{
    let Ok(state) = State::try_from(st) else {
        return None;
    };
    let Ok(kind) = NodeKind::try_from(k) else {
        return None;
    };
    state.after(kind, d)
}

// Whether a row of the kind k may stand in the state st.
pub fn stands(st: u32, k: u32) -> bool
    ensures { result ≡ may_stand st k }
{
    after(st, k, 0).is_some()
}

// The state after a row of the kind k and the detail d, 0 where no such row may stand. After a sentence whose `;` is left off it is `Closed`,
// whatever the state before.
pub fn after_row(st: u32, k: u32, d: u32) -> u32
    ensures { result ≡ state_next st k d }
{
    if k == u32::from(NodeKind::Sentence) && d == 1 {
        return u32::from(State::Closed);
    }
    match after(st, k, d) {
        Some(state) => u32::from(state),
        None => 0,
    }
}

// Whether a row of the kind k may stand where so many levels are left.
pub fn room(k: u32, left: usize) -> bool
    ensures { result ≡ room k left }
{
    match NodeKind::try_from(k) {
        Ok(kind) => kinds::has_room(kind, left),
        Err(_) => true,
    }
}

// The levels left below a row of the kind k in the state st. They fall neither in a state nor below a kind that is none.
pub fn below(st: u32, k: u32, left: usize) -> usize
    ensures { result ≡ below st k left }
{
    let state = State::try_from(st).unwrap_or(State::Closed);
    let kind = NodeKind::try_from(k).unwrap_or(NodeKind::Name);
    state.below(kind, left)
}
