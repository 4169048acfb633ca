// What goes from one read to the next.
ghost use Rattle.std.specs.Prelude.{◌≡◌, ◌≤◌, true};
ghost use Rattle.stream.specs.Record.{sound_of};

use stream::Stream;

// The stream's record after a read, and how many bytes of the text wait to be written.
#[derive(Clone, Copy)]
pub(crate) struct Passed {
    pub(crate) stream: Stream,
    pub(crate) waiting: usize,
    pub(crate) ghost sound: { sound_of stream ≡ true },
    pub(crate) ghost inside: { waiting ≤ 8200 },
}

// The frames that come of a read, and the text of their lines: eight, the most that can come.
#[derive(Drop)]
pub(crate) struct Buffers {
    pub(crate) frames: [u8; 4096],
    pub(crate) text: [u8; 8200],
}
