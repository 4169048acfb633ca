// The text of the frames that a stream hands out: one line of 1,024 lower-case hexadecimal digits for
// each, as a listing reads it.
//
// A caller hands each piece of its input to a `stream::Stream`, and the frames that `feed` put at the
// start of its output to `lines`.
#![tactic(auto)]

ghost use Rattle.std.specs.Prelude.{◌≡◌, ◌<◌, length};
ghost use Rattle.text.specs.Put.{gave};
ghost use Rattle.framed.specs.Hexadecimal.{digit_of, line_of};
ghost use Rattle.framed.specs.Texts.{lines_written};

// The most frames that come from one call of `feed`.
const MOST: usize = 8;

// The digits of a frame's 512 bytes, and a newline.
const LINE: usize = 1025;

// Writes the lines of the first frames of a slice at the start of out and answers how many bytes
// those are. For more than 8 frames, for more than the slice has, and where out is shorter than the
// lines, out stays as it is and the answer is 0.
pub fn lines(frames: &[u8], count: usize, out: &mut [u8]) -> usize
    ensures { gave result out.new ≡ lines_written frames.now count out.old }
{
    if MOST < count {
        return 0;
    }
    if frames.len() < count * 512 {
        return 0;
    }
    if out.len() < count * LINE {
        return 0;
    }
    // By place, and not by `chunks_exact_mut`: once its pieces are back nothing is known of the slice but its length.
    for t in 0..count {
        let from = t * 512;
        let start = t * LINE;
        line(&frames[from..from + 512], &mut out[start..start + LINE]);
    }
    count * LINE
}

// One frame's line. The loop has no branch, so that many bytes are taken at a time.
pub(crate) fn line(frame: &[u8], out: &mut [u8])
    requires { (length frame.now ≡ 512) × (length out.old ≡ 1025) }
    ensures { out.new ≡ line_of frame.now }
{
    for (k, b) in frame.iter().enumerate() {
        out[k * 2] = digit(*b / 16);
        out[k * 2 + 1] = digit(*b % 16);
    }
    out[1024] = b'\n';
}

// From 10 on, n + 6 is 16 or more, and `a` stands 39 places after what would follow `9`.
pub(crate) fn digit(n: u8) -> u8
    requires { n < 16 }
    ensures { result ≡ digit_of n }
{
    b'0' + n + (n + 6) / 16 * 39
}
