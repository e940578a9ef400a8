// Characters in UTF-8, and white space.
#![tactic(auto)]

ghost use Rattle.std.specs.Prelude.{◌≡◌, ◌+◌, ◌≤◌, ◌<◌, IfSome, length, drop, get_or};
ghost use Rattle.refal_text.specs.Utf8.{leads, second, cont, well2, well3, well4, two, three, four, decode, well_to, ascii};
ghost use Rattle.refal_text.specs.Told.{char_told, place_told};
ghost use Rattle.refal_text.specs.White.{white_space};
ghost use Rattle.refal_text.specs.Span.{span};

// A character and how many bytes it has. No ghost field keeps that these are some: the definitions have a `Char` of no bytes for none.
#[derive(Clone, Copy, Debug, PartialEq, Eq)]
pub struct Char {
    pub code: u32,
    pub len: usize,
}

// The byte at i, and 0 past the end, as the definitions have it: no byte that a scan looks for is 0.
pub fn byte(src: &[u8], i: usize) -> u8
    ensures { result ≡ get_or src.now i 0 }
{
    src.get(i).copied().unwrap_or(0)
}

// How many one bits a lead byte begins with: 01 names the leading zeros of the complement.
pub fn lead(a: u8) -> u32
    ensures { result ≡ leads a }
{
    u8::leading_zeros(!a)
}

// Whether b continues a character.
fn is_continuation(b: u8) -> bool
    ensures { result ≡ cont b }
{
    matches!(b, 0x80..=0xBF)
}

// Whether table 3-7 has b as the second byte after the lead byte a.
fn is_second(a: u8, b: u8) -> bool
    ensures { result ≡ second a b }
{
    let (low, high) = match a {
        0xE0 => (0xA0, 0xBF),
        0xED => (0x80, 0x9F),
        0xF0 => (0x90, 0xBF),
        0xF4 => (0x80, 0x8F),
        _ => (0x80, 0xBF),
    };
    (low..=high).contains(&b)
}

// Two, three and four bytes stay apart, a function for each row of the table: one over any number of bytes would need a loop, with a bound
// for its sum, where these need no proof.

// Whether a and b are a sequence of two bytes.
#[inline(always)]
pub fn is_two(a: u8, b: u8) -> bool
    ensures { result ≡ well2 a b }
{
    a >= 0xC2 && is_continuation(b)
}

// Whether a, b and c are a sequence of three bytes, where a leads three.
#[inline(always)]
pub fn is_three(a: u8, b: u8, c: u8) -> bool
    ensures { result ≡ well3 a b c }
{
    is_second(a, b) && is_continuation(c)
}

// Whether a, b, c and d are a sequence of four bytes, where a leads four or none.
#[inline(always)]
pub fn is_four(a: u8, b: u8, c: u8, d: u8) -> bool
    ensures { result ≡ well4 a b c d }
{
    a <= 0xF4 && is_second(a, b) && is_continuation(c) && is_continuation(d)
}

// The character of two bytes, a and b.
#[inline(always)]
pub fn two(a: u8, b: u8) -> Option<Char>
    requires { 192 ≤ a }
    ensures told { char_told result ≡ two a b }
    ensures some { IfSome result (λ c. 1 ≤ c.len) }
{
    if !is_two(a, b) {
        return None;
    }
    Some(Char {
        code: (u32::from(a) - 0xC0) * 64 + (u32::from(b) - 0x80),
        len: 2,
    })
}

// Of three, where a leads three.
#[inline(always)]
fn three(a: u8, b: u8, c: u8) -> Option<Char>
    requires { 224 ≤ a }
    ensures told { char_told result ≡ three a b c }
    ensures some { IfSome result (λ c. 1 ≤ c.len) }
{
    if !is_three(a, b, c) {
        return None;
    }
    Some(Char {
        code: (u32::from(a) - 0xE0) * 4096 + (u32::from(b) - 0x80) * 64 + (u32::from(c) - 0x80),
        len: 3,
    })
}

// Of four, where a leads four or none.
#[inline(always)]
fn four(a: u8, b: u8, c: u8, d: u8) -> Option<Char>
    requires { 240 ≤ a }
    ensures told { char_told result ≡ four a b c d }
    ensures some { IfSome result (λ c. 1 ≤ c.len) }
{
    if !is_four(a, b, c, d) {
        return None;
    }
    Some(Char {
        code: (u32::from(a) - 0xF0) * 262144
            + (u32::from(b) - 0x80) * 4096
            + (u32::from(c) - 0x80) * 64
            + (u32::from(d) - 0x80),
        len: 4,
    })
}

// The character at `at`: none past the end. Inlined, so that whoever asks for its length alone pays for no more.
#[inline(always)]
pub fn decode(src: &[u8], at: usize) -> Option<Char>
    ensures told { char_told result ≡ decode (drop at src.now) }
    ensures within { IfSome result (λ c. (1 ≤ c.len) × (at + c.len ≤ length src.now)) }
{
    let a = *src.get(at)?;
    match lead(a) {
        0 => Some(Char {
            code: u32::from(a),
            len: 1,
        }),
        2 => two(a, byte(src, at + 1)),
        3 => three(a, byte(src, at + 1), byte(src, at + 2)),
        4 => four(a, byte(src, at + 1), byte(src, at + 2), byte(src, at + 3)),
        _ => None,
    }
}

// How many bytes below 128 stand at the front: 32 at a time where so many do.
fn ascii_run(src: &[u8]) -> usize
    ensures run { result ≡ span ascii src.now }
    ensures within { result ≤ length src.now }
{
    let (blocks, _) = src.as_chunks::<32>();
    let whole = blocks.iter().take_while(|block| block.is_ascii()).count();
    let at = 32 * whole;
    at + src[at..].iter().take_while(|b| b.is_ascii()).count()
}

// Where the first ill-formed sequence stands, if there is one. By `decode`, which scans go by too, so that the table stands once; std's `from_utf8` would
// be a second one. By index: the step is a run, or the bytes of a character.
#[tactic(auto, using(crate::specs::Utf8Laws::well_ascii_run, crate::specs::Utf8Laws::well_end, crate::specs::Utf8Laws::well_stop, crate::specs::Utf8Laws::well_step))]
pub fn ill_formed(src: &[u8]) -> Option<usize>
    ensures told { place_told (length src.now) result ≡ well_to 0 src.now }
    ensures within { IfSome result (λ at. at < length src.now) }
{
    let mut at = 0;
    while at < src.len() {
        if src[at].is_ascii() {
            at += ascii_run(&src[at..]);
        } else {
            let Some(c) = decode(src, at) else {
                return Some(at);
            };
            at += c.len;
        }
    }
    None
}

// Whether a code point has the property White_Space.
pub fn is_white(x: u32) -> bool
    ensures { result ≡ white_space x }
{
    char::from_u32(x).is_some_and(|c| c.is_whitespace())
}
