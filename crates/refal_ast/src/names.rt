// Names: canonical forms and equality. Case folds; in names `-` and `_` are equivalent too.
ghost use Rattle.std.specs.Prelude.{◌≡◌, ℕ, map};
ghost use Rattle.refal_ast.specs.Names.{upper_byte, name_byte, canonical_name, canonical_index, same_list, names_equal, indices_equal, form_answer, form_bytes};
ghost use Rattle.refal_ast.specs.Told.{told};

use crate::answers::{Reason, Refusal};

// An executable program starts from the function named `Go`.
pub const PROGRAM_ENTRY_POINT: [u8; 2] = *b"Go";

// The canonical form of a byte of an index: letters fold.
pub fn index_byte(b: u8) -> u8
    ensures { result ≡ upper_byte b }
{
    b.to_ascii_uppercase()
}

// The canonical form of a byte of a name: `_` folds too.
pub fn name_byte(b: u8) -> u8
    ensures { result ≡ name_byte b }
{
    match b {
        b'_' => b'-',
        _ => index_byte(b),
    }
}

// The form f of each byte, where the output has room.
#[tactic(auto, using(crate::specs::NamesCode::map_turn))]
fn canonical<F: Fn(u8) -> u8>(name: &[u8], out: &mut [u8], form: F) -> Result<usize, Refusal>
    ghost f: { ℕ → ℕ }
    requires callable { F.IsAlwaysCallable form }
    requires forms { (x y : ℕ) → F.post form x y → y ≡ f x }
    ensures answer { told result ≡ form_answer (map f name.now) out.old }
    ensures left { out.new ≡ form_bytes (map f name.now) out.old }
{
    if out.len() < name.len() {
        out.fill(0);
        return Err(Refusal::from(Reason::OutputShort));
    }
    for (i, b) in name.iter().enumerate() {
        out[i] = form(*b);
    }
    Ok(name.len())
}

// The canonical form of an identifier or function name: a to z become A to Z, `_` becomes `-`.
#[tactic(auto, unfolding(crate::specs::Names::canonical_name))]
pub fn canonical_identifier(name: &[u8], out: &mut [u8]) -> Result<usize, Refusal>
    ensures answer { told result ≡ form_answer (canonical_name name.now) out.old }
    ensures left { out.new ≡ form_bytes (canonical_name name.now) out.old }
{
    canonical(name, out, name_byte)
}

// The canonical form of a variable's index: only letters fold.
#[tactic(auto, unfolding(crate::specs::Names::canonical_index))]
pub fn canonical_variable_index(index: &[u8], out: &mut [u8]) -> Result<usize, Refusal>
    ensures answer { told result ≡ form_answer (canonical_index index.now) out.old }
    ensures left { out.new ≡ form_bytes (canonical_index index.now) out.old }
{
    canonical(index, out, index_byte)
}

// Whether the forms of two texts are equal, in one pass and with no buffer.
fn equal<F: Fn(u8) -> u8>(left: &[u8], right: &[u8], form: F) -> bool
    ghost f: { ℕ → ℕ }
    requires callable { F.IsAlwaysCallable form }
    requires forms { (x y : ℕ) → F.post form x y → y ≡ f x }
    ensures { result ≡ same_list (map f left.now) (map f right.now) }
{
    left.len() == right.len() && left.iter().zip(right).all(|(l, r)| form(*l) == form(*r))
}

// Whether two names are equal.
#[tactic(auto, unfolding(crate::specs::Names::canonical_name))]
pub fn identifiers_equal(left: &[u8], right: &[u8]) -> bool
    ensures { result ≡ names_equal left.now right.now }
{
    equal(left, right, name_byte)
}

// Whether the indices of two variables are equal.
#[tactic(auto, unfolding(crate::specs::Names::canonical_index))]
pub fn indices_equal(left: &[u8], right: &[u8]) -> bool
    ensures { result ≡ indices_equal left.now right.now }
{
    equal(left, right, index_byte)
}
