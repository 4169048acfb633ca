// Text put into a lent slice: bytes, numbers in decimal and bytes in hexadecimal.
//
// A `Writer` holds the slice, and the place after what is written so far. Each of its methods puts one text there.
// What the slice has no room for is left out: texts that do not fit end where the slice does.
#![tactic(auto)]

pub mod place;

ghost use Rattle.std.specs.Prelude.{◌≡◌, [], ◌∷◌, ◌<◌};
ghost use Rattle.text.specs.Put.{Puts};
ghost use Rattle.text.specs.Numbers.{decimal_of, commas, three_of, digit_of, hex_of};

// No `impl fmt::Write`: a clause says what `write!` wrote only where it gives Ok, and none says that it does.
#[derive(Drop)]
pub struct Writer<'a> {
    pub out: &'a mut [u8],
    pub at: usize,
}

impl Writer<'_> {
    // One byte.
    pub fn byte(&mut self, b: u8)
        ensures { Puts self.old self.new (b ∷ []) }
    {
        if self.at < self.out.len() {
            self.out[self.at] = b;
            self.at += 1;
        }
    }

    // A text, as much of it as there is room for.
    pub fn put(&mut self, text: &[u8])
        ensures { Puts self.old self.new text.now }
    {
        let at = self.at;
        let out = &mut *self.out;
        if out.len() <= at {
            return;
        }
        let n = text.len().min(out.len() - at);
        let end = at + n;
        out[at..end].copy_from_slice(&text[..n]);
        self.at = end;
    }

    // A number in decimal.
    pub fn decimal(&mut self, n: u64)
        ensures { Puts self.old self.new (decimal_of n) }
    {
        if n >= 10 {
            self.decimal(n / 10);
        }
        self.byte(b'0' + (n % 10) as u8);
    }

    // A number in decimal, with a comma between groups of three digits.
    #[tactic(auto, using(crate::proofs::Numbers::no_comma))]
    pub fn number(&mut self, n: u64)
        ensures { Puts self.old self.new (commas n) }
    {
        if n < 1000 {
            self.decimal(n);
            return;
        }
        self.number(n / 1000);
        self.group(n % 1000);
    }

    // A comma, and a group of three digits.
    pub(crate) fn group(&mut self, n: u64)
        requires { n < 1000 }
        ensures { Puts self.old self.new (three_of n) }
    {
        self.put(&[
            b',',
            b'0' + (n / 100) as u8,
            b'0' + (n / 10 % 10) as u8,
            b'0' + (n % 10) as u8,
        ]);
    }

    // A byte in two upper-case hexadecimal digits.
    pub fn hex(&mut self, b: u8)
        ensures { Puts self.old self.new (hex_of b) }
    {
        self.put(&[digit(b / 16), digit(b % 16)]);
    }
}

pub(crate) fn digit(n: u8) -> u8
    requires { n < 16 }
    ensures { result ≡ digit_of n }
{
    if 10 <= n {
        return b'A' + (n - 10);
    }
    b'0' + n
}
