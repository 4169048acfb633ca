// The bytes around a place.
ghost use Rattle.std.specs.Prelude.{◌≡◌, ◌+◌, ◌≤◌, false};
ghost use Rattle.text.specs.Put.{Puts};
ghost use Rattle.sentences.specs.Sentence.{no_reason};
ghost use Rattle.explained.specs.Window.{tested_of, marked_of, cell_of, cells_of, row_of, window_of, frame_windows, windows_of};

use sentences::parts::{byte_after, labelled};
use text::Writer;
use why::Reason;

// The bytes that a test looked at: `near` of them from a place on, and `far` from 512 later on.
#[derive(Clone, Copy)]
pub struct Tested {
    pub from: usize,
    pub near: usize,
    pub far: usize,
}

impl Tested {
    // What the test at a place looked at, by the reason that it found.
    pub(crate) fn of(place: usize, reason: Reason) -> Tested
        ensures { result ≡ tested_of place reason }
    {
        match reason {
            Reason::Inside(q) => Tested {
                from: q,
                near: 3,
                far: 3,
            },
            Reason::Near(k) => Tested {
                from: place,
                near: usize::from(k) + 1,
                far: 0,
            },
            Reason::Far(k) => Tested {
                from: place,
                near: 3,
                far: usize::from(k) + 1,
            },
            Reason::NotGiven | Reason::Held => Tested {
                from: place,
                near: 0,
                far: 0,
            },
        }
    }

    // Whether it looked at a byte.
    pub(crate) fn marks(self, p: usize) -> bool
        ensures { result ≡ marked_of self p }
    {
        match p.checked_sub(self.from) {
            Some(ahead) => ahead < self.near || (512 <= ahead && ahead - 512 < self.far),
            None => false,
        }
    }
}

// An input, and the bytes of it that a test looked at.
#[derive(Clone, Copy)]
pub(crate) struct View<'a> {
    pub input: &'a [u8],
    pub looked: Tested,
}

pub(crate) fn windows(writer: &mut Writer, input: &[u8], place: usize, reason: Reason)
    requires { (place ≤ 65536) × (no_reason place reason ≡ false) }
    ensures { Puts writer.old writer.new (windows_of input.now place reason) }
{
    let looked = Tested::of(place, reason);
    let view = View { input, looked };
    view.window(writer, place);
    match reason {
        Reason::Inside(q) => view.of_frame(writer, place, q),
        Reason::Far(_) => view.window(writer, place + 512),
        Reason::NotGiven | Reason::Near(_) | Reason::Held => {}
    }
}

impl View<'_> {
    // The other windows for a frame that begins at q.
    pub(crate) fn of_frame(self, writer: &mut Writer, place: usize, q: usize)
        requires { q ≤ 65536 }
        ensures { Puts writer.old writer.new (frame_windows self.entry.input.now self.entry.looked place q) }
    {
        if q != place {
            self.window(writer, q);
        }
        self.window(writer, q + 512);
    }

    pub(crate) fn window(self, writer: &mut Writer, centre: usize)
        requires { centre ≤ 66048 }
        ensures { Puts writer.old writer.new (window_of self.entry.input.now self.entry.looked centre) }
    {
        let from = centre.saturating_sub(6);
        let past = self.input.len().min(centre + 10);
        self.row(writer, from, past.saturating_sub(from));
    }

    pub(crate) fn row(self, writer: &mut Writer, from: usize, n: usize)
        requires { from + n ≤ 200000 }
        ensures { Puts writer.old writer.new (row_of self.entry.input.now self.entry.looked from n) }
    {
        labelled(writer, b"from byte ", from);
        writer.byte(b':');
        self.cells(writer, from, n);
        writer.byte(b'\n');
    }

    pub(crate) fn cells(self, writer: &mut Writer, from: usize, n: usize)
        requires { from + n ≤ 200000 }
        ensures { Puts writer.old writer.new (cells_of self.entry.input.now self.entry.looked from n) }
    {
        for i in 0..n {
            let marked = self.looked.marks(from + i);
            cell(writer, marked, byte_after(self.input, from, i));
        }
    }
}

pub(crate) fn cell(writer: &mut Writer, marked: bool, value: u8)
    ensures { Puts writer.old writer.new (cell_of marked value) }
{
    let (left, right) = if marked { (b'[', b']') } else { (b' ', b' ') };
    writer.byte(left);
    writer.hex(value);
    writer.byte(right);
}
