// A number from a text.
ghost use Rattle.std.specs.Prelude.{◌≡◌};
ghost use Rattle.text.specs.Place.{place_of};

// Every greater number counts as this one.
pub const MOST: u64 = 1_000_000_000;

// The number that a text of decimal digits stands for, however many they are: None for an empty text, and for
// one with a byte that is no decimal digit.
pub fn place_of(text: &[u8]) -> Option<u64>
    ensures { result ≡ place_of text.now }
{
    if text.is_empty() {
        return None;
    }
    let mut n: u64 = 0;
    for b in text {
        if !b.is_ascii_digit() {
            return None;
        }
        n = (n * 10 + u64::from(*b - b'0')).min(MOST);
    }
    Some(n)
}
