// Text of lower-case hexadecimal, one frame a line: what stands between the bytes of a recording and
// its frames, and the row that a listing prints for a line.
//
// A `Reader` is a value. `take` hands it the next bytes of the text, however many there are, and
// stops after the first end of a line among them; the caller goes on with the bytes that are left,
// and then with the next chunk. `end` says that the text is over. A line of any length is read in
// this fixed space, and how the text is cut into chunks makes no difference to its lines.
#![tactic(auto)]

mod digit;
pub mod print;

ghost use Rattle.std.specs.Prelude.{◌≡◌};
ghost use Rattle.hexline.specs.Reader.{fresh_reader, take_of, frame_on, count_on, end_of, line_end};

const NEWLINE: u8 = 0x0a;

// The digits of a frame's 512 bytes.
const FRAME: usize = 1024;

// The count of a line that is no frame, however it goes on. A number, and no kind of its own: `Reader` and its definitions promise
// what a call does with every count, and one above 1,024 is no frame whoever gave it.
const NO_FRAME: usize = 1025;

#[derive(Clone, Copy)]
pub struct Reader {
    // the bytes of the present line's digits so far; after `Line::Frame`, the frame, in fixed memory: the digits are fewer until then
    pub frame: [u8; 512],
    // how many digits the present line has so far, or above 1,024: it is no frame
    pub count: usize,
    // how many lines have ended, and so the number, from 1, of the last of them
    pub number: u64,
}

// Three kinds by name. An Option of an answer would say of a frame only that it is accepted, and it is not read yet.
#[derive(Clone, Copy)]
pub enum Line {
    // no line ended
    Unfinished,
    // the line is a frame
    Frame,
    // the line is answered LENGTH
    Length,
}

#[derive(Clone, Copy)]
pub struct Taken {
    pub reader: Reader,
    // how many bytes of the chunk were read: all of them, or those up to the line's end
    pub used: usize,
    pub line: Line,
}

impl Reader {
    // Before the first byte of a text.
    pub fn fresh() -> Reader
        ensures { result ≡ fresh_reader }
    {
        Reader {
            frame: [0u8; 512],
            count: 0,
            number: 0,
        }
    }

    // Reads the chunk up to the first end of a line, or to its own end. Its loop has the frame and the count apart: in one value
    // the count was stored and loaded again for each digit.
    pub fn take(self, chunk: &[u8]) -> Taken
        ensures { result ≡ take_of self chunk.now }
    {
        let number = self.number;
        let mut frame = self.frame;
        let mut count = self.count;
        for (at, b) in chunk.iter().enumerate() {
            if *b == NEWLINE {
                let reader = Reader {
                    frame,
                    count,
                    number,
                };
                return reader.line_end(at + 1);
            }
            count = byte(&mut frame, count, *b);
        }
        Taken {
            reader: Reader {
                frame,
                count,
                number,
            },
            used: chunk.len(),
            line: Line::Unfinished,
        }
    }

    // The end of the text: a last line without a newline counts if it is not empty.
    pub fn end(self) -> Taken
        ensures { result ≡ end_of self }
    {
        if self.count == 0 {
            return Taken {
                reader: self,
                used: 0,
                line: Line::Unfinished,
            };
        }
        self.line_end(0)
    }

    // The present line ends here. The number of a line stays at the greatest that there is.
    pub(crate) fn line_end(self, used: usize) -> Taken
        ensures { result ≡ line_end used self }
    {
        let line = if self.count == FRAME {
            Line::Frame
        } else {
            Line::Length
        };
        let frame = self.frame;
        let reader = Reader {
            frame,
            count: 0,
            number: self.number.saturating_add(1),
        };
        Taken { reader, used, line }
    }
}

// One byte more of a line of so many digits, which stand in the frame: how many there are then.
pub(crate) fn byte(frame: &mut [u8; 512], count: usize, b: u8) -> usize
    ensures digits { frame.new ≡ frame_on frame.old count b }
    ensures counted { result ≡ count_on count b }
{
    if count < FRAME {
        if let Some(value) = digit::value(b) {
            let place = count / 2;
            frame[place] = (frame[place] << 4) + value;
            return count + 1;
        }
    }
    NO_FRAME
}
