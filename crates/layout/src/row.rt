// A row of the table: how the samples of a number of receivers fill a payload. Whoever holds one knows that its numbers
// are those of its receivers.
ghost use Rattle.std.specs.Prelude.{◌≡◌, ◌-◌, ◌||◌, ltb};
ghost use Rattle.layout.specs.Slots.{FollowsRule, values, slots as slots_for, padding as padding_for};

// Receivers, a slot's bytes, the slots of a payload, and the bytes of padding after them.
#[derive(Clone, Copy)]
pub struct Row {
    pub receivers: usize,
    pub slot: usize,
    pub slots: usize,
    pub padding: usize,
    pub ghost rule: { FollowsRule receivers slot slots padding },
}

impl Row {
    // The I and Q values of a frame.
    pub fn values(self) -> usize
        ensures { result ≡ values self.receivers }
    {
        2 * (self.receivers * self.slots)
    }

    // Whether a slice of so many I and Q values, or one of so many microphone values, is too short for a frame.
    pub fn is_short(self, iq: usize, mic: usize) -> bool
        ensures { result ≡ (ltb iq (values self.receivers) || ltb mic (slots_for self.receivers)) }
    {
        iq < self.values() || mic < self.slots
    }

    // The byte of a frame where its padding begins.
    pub fn padding_start(self) -> usize
        ensures { result ≡ 512 - padding_for self.receivers }
    {
        512 - self.padding
    }
}
