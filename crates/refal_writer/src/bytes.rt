// What can be put over a slice.
ghost use Rattle.std.specs.Prelude.{◌≡◌, ℕ, ◌+◌, ◌^◌, ◌≤◌, List, [], ◌++◌, length};
ghost use Rattle.refal_writer.specs.Puts.{Puts};

pub trait Put {
    ghost bytes: { Self → List ℕ };

    // No value of the type has more bytes.
    ghost most: { ℕ };

    // The bytes are put from the front on, as far as the slice goes. The answer is the count of them all in any case.
    fn put(self, out: &mut [u8]) -> usize
        requires { most ≤ 2 ^ 60 }
        ensures { Puts (bytes self) result out.old out.new × (result ≤ most) };
}

// A text of the source: a name, a number or an index.
#[derive(Clone, Copy, Debug, PartialEq, Eq)]
pub struct Word<'a> {
    pub text: &'a [u8],
    ghost short: { length text.now ≤ 4294967295 },
}

impl<'a> Put for Word<'a> {
    ghost bytes = { λ word. word.text.now };

    ghost most = { 4294967295 };

    fn put(self, out: &mut [u8]) -> usize {
        // Byte by byte, here and below: `copy_from_slice` would have the library for C need `memcpy` and `memmove`.
        let n = self.text.len().min(out.len());
        for i in 0..n {
            out[i] = self.text[i];
        }
        self.text.len()
    }
}

impl<'a, const N: usize> Put for &'a [u8; N] {
    ghost bytes = { λ b. b.now };

    ghost most = { N };

    fn put(self, out: &mut [u8]) -> usize {
        // Where all fit, their count is known, and the loop becomes stores.
        if N <= out.len() {
            for i in 0..N {
                out[i] = self[i];
            }
        } else {
            // A loop over the room alone would become a call of `memcpy` too.
            for i in 0..N {
                if i < out.len() {
                    out[i] = self[i];
                }
            }
        }
        N
    }
}

// The text of no tokens.
impl Put for () {
    ghost use Rattle.refal_spelling.specs.Spell.{text};

    ghost bytes = { λ nothing. text [] };

    ghost most = { 0 };

    fn put(self, _: &mut [u8]) -> usize {
        0
    }
}

// One thing and then another: the output from its middle is lent to the second.
impl<A: Put, B: Put> Put for (A, B) {
    ghost bytes = { λ p. A.bytes p.0 ++ B.bytes p.1 };

    ghost most = { A.most + B.most };

    fn put(self, out: &mut [u8]) -> usize {
        let (first, second) = self;
        let n = first.put(out);
        let middle = n.min(out.len());
        n + second.put(&mut out[middle..])
    }
}
