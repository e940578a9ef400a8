// Whether a word is a spelling that reading gives: an Identifier, a Number, a variable's index.
ghost use Rattle.std.specs.Prelude.{◌≡◌, ◌<◌, length};
ghost use Rattle.std.specs.List.{list_all};
ghost use Rattle.refal_ast.specs.Kinds.{tok_identifier, tok_number};
ghost use Rattle.refal_lexer.specs.Classes.{name_byte};
ghost use Rattle.refal_lexer.specs.Numbers.{number_scan};
ghost use Rattle.refal_spelling.specs.Spells.{token_to, spells, spells_index};

use refal_lexer::class::{is_name, is_sign};
use refal_lexer::number;

// Whether all bytes are bytes of names.
fn all_names(word: &[u8]) -> bool
    ensures { result ≡ list_all name_byte word.now }
{
    word.iter().all(|b| is_name(*b))
}

// An Identifier: A to Z, then bytes of names, 15 in all at most. So an index that A to Z begins.
pub fn is_identifier(word: &[u8]) -> bool
    ensures { result ≡ spells tok_identifier word.now }
{
    is_index(word) && refal_text::byte(word, 0).is_ascii_uppercase()
}

// An index: one to 15 bytes of names.
#[tactic(auto, using(crate::specs::WordLaws::index_in, crate::specs::WordLaws::index_out))]
pub fn is_index(word: &[u8]) -> bool
    ensures { result ≡ spells_index word.now }
{
    matches!(word.len(), 1..=15) && all_names(word)
}

// A number whose digits start at `from`: behind a sign where that is 1. Its parts are those that reading scans.
fn is_number_from(word: &[u8], from: usize) -> bool
    requires { from < length word.now }
    ensures { result ≡ token_to tok_number (length word.now) (number_scan 0 from word.now) }
{
    let whole = number::digits(word, from);
    let Ok(to) = number::fraction(word, whole.end) else {
        return false;
    };
    let Ok(end) = number::power(word, to) else {
        return false;
    };
    let real = end != whole.end;
    let macrodigit = from == 0 && whole.macrodigit().is_some();
    (real || macrodigit) && end == word.len()
}

// A Number: digits, or a sign before a digit, then a point's part and an E's part.
pub fn is_number(word: &[u8]) -> bool
    ensures { result ≡ spells tok_number word.now }
{
    let from = usize::from(is_sign(refal_text::byte(word, 0)));
    refal_text::byte(word, from).is_ascii_digit() && is_number_from(word, from)
}
