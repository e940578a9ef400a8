// What refal5_c exports to Rust and C programs. Each function lends its slices to a proved one and puts the answer into seven
// words: 0 refusal number (0: done), 1 count of rows or bytes put down, or of calls (0 on refusal), 2 expected, 3 found, 4 span
// start, 5 span end, 6 need.
#![tactic(auto)]

ghost use Rattle.std.specs.Prelude.{◌≡◌, length};
ghost use Rattle.refal_ast.specs.Names.{canonical_name, canonical_index, names_equal, form_answer, form_bytes};
ghost use Rattle.refal_lexer.specs.Read.{read_answer, read_rows};
ghost use Rattle.refal_parser.specs.Parse.{parse_answer, parse_rows};
ghost use Rattle.refal_writer.specs.Write.{write_answer, write_bytes};
ghost use Rattle.refal_link.specs.Link.{link_answer, link_words};
ghost use Rattle.refal_real.specs.Real.{real_answer, real_digits, real_form};
ghost use Rattle.refal_ast.specs.Told.{told};
ghost use Rattle.refal5.specs.Words.{answer_words};

use refal_ast::answers::Refusal;
use refal_link::{File, Files};

// An answer's seven words.
fn words(answer: Result<usize, Refusal>) -> [u64; 7]
    ensures { result ≡ answer_words (told answer) }
{
    match answer {
        Ok(n) => [0, n as u64, 0, 0, 0, 0, 0],
        Err(refusal) => [
            u64::from(u32::from(refusal.reason)),
            0,
            u64::from(refusal.expected_code()),
            u64::from(refusal.found_code()),
            refusal.span.start as u64,
            refusal.span.end as u64,
            refusal.need as u64,
        ],
    }
}

// The canonical form of a name.
pub fn refal5_canonical_name(name: &[u8], out: &mut [u8], answer: &mut [u64; 7])
    ensures told { answer.new ≡ answer_words (form_answer (canonical_name name.now) out.old) }
    ensures left { out.new ≡ form_bytes (canonical_name name.now) out.old }
{
    *answer = words(refal_ast::names::canonical_identifier(name, out));
}

// The canonical form of a variable's index.
pub fn refal5_canonical_index(name: &[u8], out: &mut [u8], answer: &mut [u64; 7])
    ensures told { answer.new ≡ answer_words (form_answer (canonical_index name.now) out.old) }
    ensures left { out.new ≡ form_bytes (canonical_index name.now) out.old }
{
    *answer = words(refal_ast::names::canonical_variable_index(name, out));
}

// Whether two names are equal.
pub fn refal5_names_equal(a: &[u8], b: &[u8]) -> bool
    ensures { result ≡ names_equal a.now b.now }
{
    refal_ast::names::identifiers_equal(a, b)
}

// Reading: the rows of the source's tokens.
pub fn refal5_read(src: &[u8], rows: &mut [u32], answer: &mut [u64; 7])
    ensures told { answer.new ≡ answer_words (read_answer src.now (length rows.old)) }
    ensures left { rows.new ≡ read_rows src.now rows.old }
{
    *answer = words(refal_lexer::read(src, rows));
}

// Parsing: the rows of the tokens' tree.
pub fn refal5_parse(tokens: &[u32], rows: &mut [u32], answer: &mut [u64; 7])
    ensures told { answer.new ≡ answer_words (parse_answer tokens.now rows.old) }
    ensures left { rows.new ≡ parse_rows tokens.now rows.old }
{
    *answer = words(refal_parser::parse(tokens, rows));
}

// Writing: the text of the tree's tokens, each as spelled in its source, then one space.
pub fn refal5_write(tree: &[u32], src: &[u8], out: &mut [u8], answer: &mut [u64; 7])
    ensures told { answer.new ≡ answer_words (write_answer tree.now src.now out.old) }
    ensures left { out.new ≡ write_bytes tree.now src.now out.old }
{
    *answer = words(refal_writer::write(tree, src, out));
}

// Linking: how many calls the two files have, each of which names a function or a declared name of either.
pub fn refal5_link<'a>(
    tree1: &[u32],
    src1: &'a [u8],
    tree2: &[u32],
    src2: &'a [u8],
    work: &mut [u32],
    answer: &mut [u64; 7],
)
    ensures told { answer.new ≡ answer_words (link_answer tree1.now src1.now tree2.now src2.now) }
    ensures left { work.new ≡ link_words work.old }
{
    let files = Files {
        one: File {
            tree: tree1,
            source: src1,
        },
        two: File {
            tree: tree2,
            source: src2,
        },
    };
    *answer = words(refal_link::link(&files, work));
}

// The normal form of a real's text: its digits, and in `form` its sign (0 plus, 1 minus), its power's sign (0 for zero or plus, 1
// minus) and magnitude.
pub fn refal5_real(text: &[u8], digits: &mut [u8], form: &mut [u64; 3], answer: &mut [u64; 7])
    ensures told { answer.new ≡ answer_words (real_answer text.now (length digits.old)) }
    ensures left { digits.new ≡ real_digits text.now digits.old }
    ensures formed { form.new ≡ real_form text.now (length digits.old) }
{
    *answer = words(refal_real::normal_form(text, digits, form));
}
