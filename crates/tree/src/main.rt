// Reads a Refal-5 source from standard input, at most 2,048 bytes, and writes the rows of its syntax tree, a line each: row, kind,
// detail, span start, span end, next, parent (4294967295 at top rows). A refusal is written as `refused`, its number and its span.
#![tactic(auto)]

ghost use Rattle.std.specs.Prelude.{◌*◌, ◌≤◌, length, IfOk};
ghost use Rattle.refal_ast.specs.Nodes.{node_width};

use refal_ast::answers::{Reason, Refusal};
use refal_ast::nodes::WIDTH as NODE_WIDTH;
use refal_ast::tokens::WIDTH as TOKEN_WIDTH;
use std::io;
use std::io::Read;

const MOST_BYTES: usize = 2048;

// A token for each byte, and Eof; a node for each byte.
const TOKEN_WORDS: usize = (MOST_BYTES + 1) * TOKEN_WIDTH;

const NODE_WORDS: usize = MOST_BYTES * NODE_WIDTH;

// The bytes that there are, as many as fit, and how many they are. Nothing is allocated, so that the program can't run out of memory.
fn fill(reader: &mut impl Read, bytes: &mut [u8]) -> io::Result<usize>
    ensures { IfOk result (λ n. n ≤ length bytes.old) }
{
    let mut n = 0;
    while n < bytes.len() {
        match reader.read(&mut bytes[n..])? {
            0 => break,
            more => n += more,
        }
    }
    Ok(n)
}

// Puts the rows of the source's tree into `rows`, and answers how many they are.
fn tree(source: &[u8], rows: &mut [u32]) -> Result<usize, Refusal>
    ensures { IfOk result (λ n. node_width * n ≤ length rows.old) }
{
    if source.len() > MOST_BYTES {
        return Err(Refusal::from(Reason::SourceTooLong));
    }
    let mut words = [0u32; TOKEN_WORDS];
    let n = refal_lexer::read(source, &mut words)?;
    refal_parser::parse(&words[..TOKEN_WIDTH * n], rows)
}

// Each row: its number, and of its words all but the text.
fn put_rows(rt: &impl Print, rows: &[u32]) -> io::Result<()> {
    let (rows, _) = rows.as_chunks::<NODE_WIDTH>();
    for (i, [kind, detail, _, _, from, to, next, parent]) in rows.iter().enumerate() {
        println!(rt; "{i} {kind} {detail} {from} {to} {next} {parent}")?;
    }
    Ok(())
}

fn main(rt: HostRuntime) -> io::Result<()> {
    let mut bytes = [0u8; MOST_BYTES + 1];
    let n = fill(&mut rt.reader(), &mut bytes)?;
    let mut rows = [0u32; NODE_WORDS];
    match tree(&bytes[..n], &mut rows) {
        Ok(n) => put_rows(&rt, &rows[..NODE_WIDTH * n]),
        Err(refusal) => println!(&rt; "{refusal}"),
    }
}
