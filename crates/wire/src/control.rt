// The control bytes of a frame.
ghost use Rattle.std.specs.Prelude.{◌≡◌, get_or};
ghost use Rattle.wire.specs.Control.{control_of};

// C0 to C4, as they stand in a frame.
#[derive(Clone, Copy)]
pub struct Control {
    pub c0: u8,
    pub c1: u8,
    pub c2: u8,
    pub c3: u8,
    pub c4: u8,
}

impl Control {
    // Those of a frame. A byte that it does not have is 0.
    pub fn of(frame: &[u8]) -> Control
        ensures { result ≡ control_of frame.now }
    {
        Control {
            c0: byte(frame, 3),
            c1: byte(frame, 4),
            c2: byte(frame, 5),
            c3: byte(frame, 6),
            c4: byte(frame, 7),
        }
    }
}

pub(crate) fn byte(frame: &[u8], place: usize) -> u8
    ensures { result ≡ get_or frame.now place 0 }
{
    frame.get(place).copied().unwrap_or(0)
}
