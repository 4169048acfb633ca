// Fields of bits of a byte, by the bit numbers that the protocol's tables print.
ghost use Rattle.std.specs.Prelude.{◌≡◌, ◌≤◌};
ghost use Rattle.wire.specs.Fields.{bits, on, flag, eight_flags};

// Bits hi to lo of c. There are none where lo is above hi, or above 7.
pub fn field(c: u8, hi: u8, lo: u8) -> u8
    ensures { result ≡ bits c hi lo }
{
    if hi < lo {
        return 0;
    }
    if 7 < lo {
        return 0;
    }
    let low = c >> lo;
    let width = hi - lo;
    if 7 <= width {
        return low;
    }
    low % (2 << width)
}

// Whether bit k of c is 1.
pub fn is_on(c: u8, k: u8) -> bool
    ensures { result ≡ on c k }
{
    if 7 < k {
        return false;
    }
    (c >> k) % 2 == 1
}

// 1 for a bit that is on, and 0 for one that is off: the library's `u8::from`, with the bound that a sum of bits needs.
pub fn flag_of(b: bool) -> u8
    ensures { (result ≡ flag b) × (result ≤ 1) }
{
    u8::from(b)
}

// A byte of eight flags, bit 0 first. They are eight parameters, as each comes from a field of its own.
pub fn eight_flags(
    b0: bool,
    b1: bool,
    b2: bool,
    b3: bool,
    b4: bool,
    b5: bool,
    b6: bool,
    b7: bool,
) -> u8
    ensures { result ≡ eight_flags b0 b1 b2 b3 b4 b5 b6 b7 }
{
    flag_of(b0)
        + flag_of(b1) * 2
        + flag_of(b2) * 4
        + flag_of(b3) * 8
        + flag_of(b4) * 16
        + flag_of(b5) * 32
        + flag_of(b6) * 64
        + flag_of(b7) * 128
}
