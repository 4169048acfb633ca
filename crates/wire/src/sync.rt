// The three bytes 7F that a frame begins with, and the header that they open.
ghost use Rattle.std.specs.Prelude.{◌≡◌};
ghost use Rattle.wire.specs.Sync.{sync_at, no_sync, headed};

use crate::Refusal;
use crate::numbers::Bytes4;
use crate::places::first_other;

// Whether sync stands at a place of s; past its end there is none.
pub fn sync_at(s: &[u8], at: usize) -> bool
    ensures { result ≡ sync_at s.now at }
{
    if s.len() < 3 {
        return false;
    }
    if s.len() - 3 < at {
        return false;
    }
    if s[at] != 0x7f {
        return false;
    }
    if s[at + 1] != 0x7f {
        return false;
    }
    s[at + 2] == 0x7f
}

// The refusal of a frame without sync: the first of its bytes 0 to 2 that is not 7F.
pub fn no_sync(frame: &[u8]) -> Refusal
    ensures { result ≡ no_sync frame.now }
{
    if frame.len() < 3 {
        return Refusal::NoSync(first_other(frame, 0x7f) as u16);
    }
    Refusal::NoSync(first_other(&frame[..3], 0x7f) as u16)
}

// Sync and the control bytes, C0 and then C1 to C4, over the start of a frame. One with no room for
// them is left as it is. C0 goes beside the word: who writes has the address and the keys, and the word's four bytes apart.
#[tactic(auto, using(crate::proofs::Header::no_room))]
pub fn put_header(frame: &mut [u8], c0: u8, word: Bytes4)
    ensures { frame.new ≡ headed c0 word frame.old }
{
    if frame.len() < 8 {
        return;
    }
    frame[0] = 0x7f;
    frame[1] = 0x7f;
    frame[2] = 0x7f;
    frame[3] = c0;
    frame[4] = word[0];
    frame[5] = word[1];
    frame[6] = word[2];
    frame[7] = word[3];
}
