// Where a run of bytes that pass a test ends. By its place in the bytes, as in number.rt.
ghost use Rattle.std.specs.Prelude.{◌≡◌, ℕ, Bool, ◌+◌, ◌≤◌, length, drop};
ghost use Rattle.refal_text.specs.Span.{span};
ghost use Rattle.refal_lexer.specs.Classes.{name_byte};

use crate::class::is_name;

pub fn run_end<F: Fn(u8) -> bool>(src: &[u8], at: usize, test: F) -> usize
    ghost passes: { ℕ → Bool }
    requires inside { at ≤ length src.now }
    requires callable { F.IsAlwaysCallable test }
    requires tests { (b : ℕ) (r : Bool) → F.post test b r → r ≡ passes b }
    ensures run { result ≡ at + span passes (drop at src.now) }
    ensures within { result ≤ length src.now }
{
    at + src[at..].iter().take_while(|b| test(**b)).count()
}

// Where the bytes of a name end.
pub fn name_end(src: &[u8], at: usize) -> usize
    requires { at ≤ length src.now }
    ensures run { result ≡ at + span name_byte (drop at src.now) }
    ensures within { result ≤ length src.now }
{
    run_end(src, at, is_name)
}
