// White space and comments: each scan gets the flag, whether a star would start a comment. It is a fact about the bytes before, which the
// definitions carry as a Bool.
ghost use Rattle.std.specs.Prelude.{◌≡◌, IfOk, IfErr, IfSome, false, ◌+◌, ◌≤◌, ◌<◌, length, drop};
ghost use Rattle.refal_lexer.specs.Carried.{line_after};
ghost use Rattle.refal_lexer.specs.Blanks.{white_len, close_to, comment_at};
ghost use Rattle.refal_lexer.specs.Carried.{whites, blanks_from};
ghost use Rattle.refal_lexer.specs.SpaceLaws.{space_len, line_behind};
ghost use Rattle.refal_lexer.specs.Told.{close_told, comment_told, blank_told};
ghost use Rattle.refal_ast.specs.Told.{reason_code, refusal_told};
ghost use Rattle.refal_ast.specs.Answers.{refusal};

use crate::class::{Class, is_blank};
use crate::runs::run_end;
use crate::start::{Rest, Start};
use refal_ast::answers::{Reason, Refusal, Span};

// A place of the source, and whether a star would start a comment there.
#[derive(Clone, Copy, Debug, PartialEq, Eq)]
pub struct Place {
    pub at: usize,
    pub line: bool,
}

// A block comment without an end.
#[derive(Clone, Copy, Debug, PartialEq, Eq)]
pub struct Unclosed(pub Span);

impl From<Unclosed> for Refusal {
    ghost from_gives = { λ comment r. refusal_told r ≡ refusal 24 0 0 comment.0.start comment.0.end 0 };

    fn from(comment: Unclosed) -> Refusal {
        Refusal::at(Reason::CommentUnclosed, comment.0)
    }
}

// Whether a star would start a comment behind a white-space character at `at`, whose first byte is b.
fn line_after(b: u8, at: usize, line: bool) -> bool
    ensures { result ≡ line_after b at line }
{
    b == b'\n' || line && at != 0
}

// How many bytes the white-space character at the front has, 0 where there is none, as the definition has it: a length to add.
fn white_len(src: &[u8]) -> usize
    requires { 0 < length src.now }
    ensures { (result ≡ white_len src.now) × (result ≤ length src.now) }
{
    let b = src[0];
    if b.is_ascii() {
        return usize::from(is_blank(b));
    }
    refal_text::decode(src, 0)
        .filter(|c| refal_text::is_white(c.code))
        .map_or(0, |c| c.len)
}

// The end of the block comment at the front, if it has one.
fn close(src: &[u8]) -> Option<usize>
    requires { 2 ≤ length src.now }
    ensures told { close_told result ≡ close_to false 2 (drop 2 src.now) }
    ensures within { IfSome result (λ n. (1 ≤ n) × (n ≤ length src.now)) }
{
    src[2..]
        .windows(2)
        .position(|pair| matches!(pair, b"*/"))
        .map(|i| i + 4)
}

// One space, or none, at the front: how many bytes.
fn space_len(src: &[u8]) -> usize
    ensures { (result ≡ space_len src.now) × (result ≤ length src.now) }
{
    usize::from(src.starts_with(b" "))
}

// The flag behind n spaces, one or none, at `at`.
fn line_behind(n: usize, at: usize, line: bool) -> bool
    ensures { result ≡ line_behind n at line }
{
    line && (n == 0 || at != 0)
}

impl Start<'_> {
    // How many bytes the comment here has, if one is here; a star starts one if `line` says so.
    fn comment(self, line: bool) -> Result<Option<usize>, Unclosed>
        ensures told { comment_told result ≡ comment_at line self.entry.src.now }
        ensures within { IfOk result (λ found. IfSome found (λ n. (1 ≤ n) × (n ≤ length self.entry.src.now))) }
        ensures open { IfErr result (λ comment. (comment.0.start ≡ self.entry.at) × (comment.0.end ≡ self.entry.at + length self.entry.src.now)) }
    {
        let b = self.first();
        if b == b'*' && line {
            return Ok(Some(run_end(self.src, 1, |b| b != b'\n')));
        }
        if b == b'/' && refal_text::byte(self.src, 1) == b'*' {
            return close(self.src)
                .map(Some)
                .ok_or(Unclosed(self.span(self.src.len())));
        }
        Ok(None)
    }
}

impl Rest<'_> {
    // Past the white space.
    fn white(self, line: bool) -> Place
        ensures { (result ≡ whites 0 self.entry.at line self.entry.src.now) × (self.entry.at ≤ result.at) × (result.at ≤ self.entry.at + length self.entry.src.now) }
    {
        // By index, since a character has one byte to four.
        let mut i = 0;
        let mut line = line;
        while i < self.src.len() {
            let n = white_len(&self.src[i..]);
            if n == 0 {
                break;
            }
            line = line_after(self.src[i], self.at + i, line);
            i += n;
        }
        Place {
            at: self.at + i,
            line,
        }
    }

    // Repeat: white space, a star comment, a block comment.
    // Not inlined: rules then are read at a steadier speed, wherever the code comes to stand.
    #[inline(never)]
    fn repeat(self, line: bool) -> Result<Place, Unclosed>
        ensures { blank_told result ≡ blanks_from 0 self.entry.at line self.entry.src.now }
    {
        let mut place = self.white(line);
        while let Some(start) = self.from(place.at).start() {
            let Some(n) = start.comment(place.line)? else {
                break;
            };
            place = self.from(place.at + n).white(false);
        }
        Ok(place)
    }

    // White space and comments. Most tokens have one space before them, or none: that costs no branch, and then the class of a byte
    // tells that there are no more blanks.
    pub fn blanks(self, line: bool) -> Result<Place, Unclosed>
        ensures { blank_told result ≡ blanks_from 0 self.entry.at line self.entry.src.now }
    {
        let n = space_len(self.src);
        let place = Place {
            at: self.at + n,
            line: line_behind(n, self.at, line),
        };
        if !Class::of(refal_text::byte(self.src, n)).begins_blank() {
            return Ok(place);
        }
        self.from(place.at).repeat(place.line)
    }
}
