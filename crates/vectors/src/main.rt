// Replays a sample of the fixed lists (docs/VECTORS.md). Standard input holds records of 64 bytes: a letter for the call, the
// lengths of its input and of what is lent in two decimal digits each, the input, points up to 63 bytes, a newline. Behind a
// record of the letter t stand 320 bytes more, the tree to be written: the number of its words in two digits, the words of
// four bytes each, the highest first, points up to 319 bytes, a newline. For each record the seven words of the answer are
// written, then all that was lent for output, which held a5 in each byte before the call.
#![tactic(auto)]

ghost use Rattle.std.specs.Prelude.{◌≤◌};

use refal_ast::nodes::WIDTH as NODE_WIDTH;
use refal_ast::tokens::WIDTH as TOKEN_WIDTH;
use std::io;
use std::io::Read;

// The bytes of a record, and of a tree behind it.
const RECORD: usize = 64;

const TREE: usize = 320;

// How much is lent at most, and the bytes of an input at most: what two digits say, and what fits into a record.
const MOST_LENT: usize = 99;

const MOST_INPUT: usize = 58;

// A token for each byte, and Eof; two nodes for each token; the words of a tree that a block holds.
const TOKEN_WORDS: usize = (MOST_INPUT + 1) * TOKEN_WIDTH;

const NODE_WORDS: usize = 2 * (MOST_INPUT + 1) * NODE_WIDTH;

const TREE_WORDS: usize = 79;

// Two decimal digits; 0 for anything else.
fn two(digits: [u8; 2]) -> usize
    ensures { result ≤ 99 }
{
    match digits {
        [a @ b'0'..=b'9', b @ b'0'..=b'9'] => usize::from(a - b'0') * 10 + usize::from(b - b'0'),
        _ => 0,
    }
}

// The seven words of an answer.
fn put_answer(rt: &impl Print, answer: &[u64; 7]) -> io::Result<()> {
    for word in answer {
        print!(rt; "{word} ")?;
    }
    Ok(())
}

// What a call answers, and the bytes that it leaves, two digits each.
fn put_bytes<F: FnOnce(&mut [u8], &mut [u64; 7])>(
    rt: &impl Print,
    out: &mut [u8],
    call: F,
) -> io::Result<()>
    requires { F.IsAlwaysCallable call }
{
    let mut answer = [0; 7];
    call(out, &mut answer);
    put_answer(rt, &answer)?;
    for byte in out.iter() {
        print!(rt; "{byte:02x}")?;
    }
    println!(rt; "")
}

// What a call answers, and the words that it leaves, each and a space.
fn put_words<F: FnOnce(&mut [u32], &mut [u64; 7])>(
    rt: &impl Print,
    rows: &mut [u32],
    call: F,
) -> io::Result<()>
    requires { F.IsAlwaysCallable call }
{
    let mut answer = [0; 7];
    call(rows, &mut answer);
    put_answer(rt, &answer)?;
    for word in rows.iter() {
        print!(rt; "{word:x} ")?;
    }
    println!(rt; "")
}

// The rows that a call puts into the words, as many as it answers, of so many words each.
fn rows<F: FnOnce(&mut [u32], &mut [u64; 7])>(
    words: &mut [u32],
    width: usize,
    call: F,
) -> Option<&[u32]>
    requires { F.IsAlwaysCallable call }
{
    let mut answer = [0; 7];
    call(words, &mut answer);
    words.get(..(answer[1] as usize).checked_mul(width)?)
}

// The rows of the input's tokens, and those of their nodes, in words with room for all.
fn tokens<'a>(input: &[u8], words: &'a mut [u32]) -> Option<&'a [u32]> {
    rows(words, TOKEN_WIDTH, |words, answer| {
        refal5::refal5_read(input, words, answer)
    })
}

fn nodes<'a>(tokens: &[u32], words: &'a mut [u32]) -> Option<&'a [u32]> {
    rows(words, NODE_WIDTH, |words, answer| {
        refal5::refal5_parse(tokens, words, answer)
    })
}

// The words that stand in a block behind its two digits, as many as both have.
fn put_tree(block: &[u8; TREE], tree: &mut [u32]) {
    for (word, bytes) in tree.iter_mut().zip(block[2..].as_chunks::<4>().0) {
        *word = u32::from_be_bytes(*bytes);
    }
}

// The next block of the input; nothing where it is cut off.
fn next<const N: usize>(reader: &mut impl Read) -> io::Result<Option<[u8; N]>> {
    let mut block = [0u8; N];
    match reader.read_exact(&mut block) {
        Ok(()) => Ok(Some(block)),
        Err(error) if error.kind() == io::ErrorKind::UnexpectedEof => Ok(None),
        Err(error) => Err(error),
    }
}

// Writes the tree that stands behind a record; whether it was not cut off.
fn replay_tree(
    rt: &impl Print,
    reader: &mut impl Read,
    source: &[u8],
    out: &mut [u8],
) -> io::Result<bool> {
    let Some(block) = next::<TREE>(reader)? else {
        return Ok(false);
    };
    let mut tree = [0u32; TREE_WORDS];
    put_tree(&block, &mut tree);
    if let Some(tree) = tree.get(..two([block[0], block[1]])) {
        put_bytes(rt, out, |out, answer| {
            refal5::refal5_write(tree, source, out, answer)
        })?;
    }
    Ok(true)
}

// Replays a record; whether neither it nor a tree behind it was cut off. Each is answered before the next one is read, and no more is
// kept of the input than that, so that a caller may wait for each answer and the input may have any length.
fn replay(rt: &impl Print, reader: &mut impl Read) -> io::Result<bool> {
    let Some(record) = next::<RECORD>(reader)? else {
        return Ok(false);
    };
    let lent = two([record[3], record[4]]);
    let Some(input) = record[5..63].get(..two([record[1], record[2]])) else {
        return Ok(false);
    };
    let mut bytes = [0xa5u8; MOST_LENT];
    let out = &mut bytes[..lent];
    let mut words = [0xa5a5_a5a5u32; MOST_LENT];
    let rows = &mut words[..lent];
    let mut token_words = [0u32; TOKEN_WORDS];
    let mut node_words = [0u32; NODE_WORDS];
    match record[0] {
        b'n' => put_bytes(rt, out, |out, answer| {
            refal5::refal5_canonical_name(input, out, answer)
        })?,
        b'i' => put_bytes(rt, out, |out, answer| {
            refal5::refal5_canonical_index(input, out, answer)
        })?,
        b'e' => {
            if let Some((left, right)) = input.split_at_checked(lent) {
                println!(rt; "{}", u8::from(refal5::refal5_names_equal(left, right)))?;
            }
        }
        b'r' => put_words(rt, rows, |rows, answer| {
            refal5::refal5_read(input, rows, answer)
        })?,
        b'p' => {
            if let Some(tokens) = tokens(input, &mut token_words) {
                put_words(rt, rows, |rows, answer| {
                    refal5::refal5_parse(tokens, rows, answer)
                })?;
            }
        }
        b'w' => {
            if let Some(tokens) = tokens(input, &mut token_words) {
                if let Some(tree) = nodes(tokens, &mut node_words) {
                    put_bytes(rt, out, |out, answer| {
                        refal5::refal5_write(tree, input, out, answer)
                    })?;
                }
            }
        }
        b't' => return replay_tree(rt, reader, input, out),
        _ => {}
    }
    Ok(true)
}

fn main(rt: HostRuntime) -> io::Result<()> {
    let mut reader = rt.reader();
    for _ in 0..u64::MAX {
        if !replay(&rt, &mut reader)? {
            break;
        }
    }
    Ok(())
}
