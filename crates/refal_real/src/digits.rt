// The digits of a real, before and behind its point.
ghost use Rattle.std.specs.Prelude.{◌≡◌, ◌++◌, ◌≤◌, eqb, length, drop};
ghost use Rattle.std.specs.Str.{bytes_eq};
ghost use Rattle.std.specs.Ordering.{on};
ghost use Rattle.std.specs.Cmp.{partial_equiv_from_equiv, on_per};
ghost use Rattle.std.specs.Cmp.Lexicographic.{nat_list_eq_equiv};
ghost use Rattle.refal_real.specs.Form.{less, trim};
ghost use Rattle.refal_real.specs.Told.{digits_told};

// Digits less the zeros that lead them.
pub fn trim_start(mut digits: &[u8]) -> &[u8]
    ensures { result.now ≡ less digits.entry.now }
{
    while let [b'0', rest @ ..] = digits {
        digits = rest;
    }
    digits
}

// Digits less the zeros that trail them. Apart from the zeros that lead, since a pattern says at which end it looks.
fn trim_end(mut digits: &[u8]) -> &[u8]
    ensures { result.now ≡ trim digits.entry.now }
{
    while let [rest @ .., b'0'] = digits {
        digits = rest;
    }
    digits
}

// Digits of a text, in two runs: those before the point and those behind it.
#[derive(Clone, Copy, Debug)]
pub struct Digits<'a> {
    pub whole: &'a [u8],
    pub fraction: &'a [u8],
}

impl<'a> Digits<'a> {
    // How many.
    pub fn len(self) -> usize
        ensures { result ≡ length (digits_told self.entry) }
    {
        self.whole.len() + self.fraction.len()
    }

    pub fn is_empty(self) -> bool
        ensures { result ≡ eqb (length (digits_told self.entry)) 0 }
    {
        self.len() == 0
    }

    // All but the zeros that lead.
    pub fn trim_start(self) -> Digits<'a>
        ensures { digits_told result ≡ less (digits_told self.entry) }
    {
        let whole = trim_start(self.whole);
        if whole.is_empty() {
            let fraction = trim_start(self.fraction);
            return Digits { whole, fraction };
        }
        Digits { whole, ..self }
    }

    // All but the zeros that trail.
    pub fn trim_end(self) -> Digits<'a>
        ensures { digits_told result ≡ trim (digits_told self.entry) }
    {
        let fraction = trim_end(self.fraction);
        if fraction.is_empty() {
            let whole = trim_end(self.whole);
            return Digits { whole, fraction };
        }
        Digits { fraction, ..self }
    }

    // All of them, to the front of out.
    pub fn put(self, out: &mut [u8])
        requires { length (digits_told self) ≤ length out.old }
        ensures { out.new ≡ digits_told self.entry ++ drop (length (digits_told self.entry)) out.old }
    {
        // Byte by byte: `copy_from_slice` would have the library for C need `memcpy` and `memmove`.
        let point = self.whole.len();
        for i in 0..point {
            out[i] = self.whole[i];
        }
        for k in 0..self.fraction.len() {
            out[point + k] = self.fraction[k];
        }
    }
}

// The same digits, wherever the points stand.
impl PartialEq for Digits<'_> {
    ghost eq = { on digits_told bytes_eq };

    ghost laws = { on_per digits_told (partial_equiv_from_equiv nat_list_eq_equiv) };

    fn eq(&self, other: &Self) -> bool {
        if self.len() != other.len() {
            return false;
        }
        self.whole
            .iter()
            .chain(self.fraction)
            .zip(other.whole.iter().chain(other.fraction))
            .all(|(x, y)| x == y)
    }
}
