// Numbers in the order of the wire, highest byte first, and samples in two's complement.
ghost use Rattle.std.specs.Prelude.{◌≡◌, [], ◌∷◌, ◌^◌, ◌<◌, ◌≤◌, ◌+◌};
ghost use Rattle.wire.specs.Every.{all_fit};
ghost use Rattle.wire.specs.Numbers.{be, bytes_of, signed, unsigned, fits, signed_by, unsigned_by};

// The bytes of a number, the highest first.
pub type Bytes2 = [u8; 2];

pub type Bytes3 = [u8; 3];

pub type Bytes4 = [u8; 4];

// The bytes of a 24-bit sample, and whether the number that was given fits them.
#[derive(Clone, Copy)]
pub struct Written24 {
    pub fits: bool,
    pub bytes: Bytes3,
}

// `be16` and `be32`, and the two ways back, stand for the library's byte orders of their widths, each a method of its own
// type; here they say what document 01 says of the bytes, `be` and `bytes_of`, over any width.
pub fn be16(a: u8, b: u8) -> u16
    ensures { result ≡ be (a ∷ b ∷ []) }
{
    u16::from_be_bytes([a, b])
}

pub fn be32(a: u8, b: u8, c: u8, d: u8) -> u32
    ensures { result ≡ be (a ∷ b ∷ c ∷ d ∷ []) }
{
    u32::from_be_bytes([a, b, c, d])
}

pub fn bytes_of_u16(n: u16) -> Bytes2
    ensures { result ≡ bytes_of 2 n }
{
    n.to_be_bytes()
}

pub fn bytes_of_u32(n: u32) -> Bytes4
    ensures { result ≡ bytes_of 4 n }
{
    n.to_be_bytes()
}

// A microphone or audio sample, from its two bytes.
pub fn sample16(a: u8, b: u8) -> i16
    ensures { result ≡ signed 16 (be (a ∷ b ∷ [])) }
{
    centred(be16(a, b) as u32, 0x8000) as i16
}

// A receiver's sample, from its three bytes: the sign is the highest one's. It has a form of its own, and not that of `sample16`,
// since `signed_byte` has no branch.
pub fn sample24(a: u8, b: u8, c: u8) -> i32
    ensures { result ≡ signed 24 (be (a ∷ b ∷ c ∷ [])) }
{
    signed_byte(a) * 65536 + (be16(b, c) as i32)
}

pub fn bytes_of_sample16(x: i16) -> Bytes2
    ensures { result ≡ bytes_of 2 (unsigned 16 x) }
{
    bytes_of_u16(pattern(x as i32, 0x1_0000) as u16)
}

// The three bytes hold x where it fits, and its lowest 24 bits where it does not.
pub fn bytes_of_sample24(x: i32) -> Written24
    ensures { result ≡ record { fits = fits 24 x; bytes = bytes_of 3 (unsigned 24 x) } }
{
    let [_, high, mid, low] = pattern(x, 0x100_0000).to_be_bytes();
    Written24 {
        fits: fits24(x),
        bytes: [high, mid, low],
    }
}

// Whether x is in -8,388,608 to 8,388,607.
pub fn fits24(x: i32) -> bool
    ensures { result ≡ fits 24 x }
{
    (-8388608 <= x) & (x < 8388608)
}

// Whether every one of xs fits, as `fits24` has it. It has no early way out, so that many are taken at a
// time.
pub fn all_fit24(xs: &[i32]) -> bool
    ensures { result ≡ all_fit xs.now }
{
    let mut so_far = true;
    for x in xs {
        so_far = so_far & fits24(*x);
    }
    so_far
}

// The number that a byte stands for. The form has no branch, and compiles to a load with the sign.
pub(crate) fn signed_byte(a: u8) -> i32
    ensures { result ≡ signed 8 a }
{
    ((a as u32 + 128) % 256) as i32 - 128
}

// Two's complement once over the width, as document 01 wants it of 16 and 24 bits: the library has no number of 24.
// The number that n stands for, where the patterns from half on stand for n - 2 * half.
pub(crate) fn centred(n: u32, half: u32) -> i32
    requires { (n < half + half) × (half ≤ 2 ^ 24) }
    ensures { result ≡ signed_by half n }
{
    if n < half {
        n as i32
    } else {
        n as i32 - (half + half) as i32
    }
}

// The way back: the pattern that stands for x among whole of them.
pub(crate) fn pattern(x: i32, whole: u32) -> u32
    requires { 0 < whole }
    ensures { result ≡ unsigned_by whole x }
{
    if x < 0 {
        whole - 1 - (-1 - x) as u32 % whole
    } else {
        x as u32 % whole
    }
}
