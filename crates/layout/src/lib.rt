// How the samples of one to eight receivers fill a radio frame's payload: the table of document 01,
// carried as data, and a row of it by the number of receivers.
//
// `row_of` takes any number and refuses those that the table does not have. That each row follows the
// rule of the protocol (as many whole slots as fit, the rest padding) is proved once, over the table.
#![tactic(auto)]

mod row;

ghost use Rattle.std.specs.Prelude.{◌≡◌};
ghost use Rattle.layout.specs.Table.{lookup};

pub use row::Row;
use wire::Refusal;

// A row as the table has it. Its numbers are small, and so is the table, which the compiler lays on the stack
// wherever a row is looked up.
#[derive(Clone, Copy)]
struct Entry {
    slot: u8,
    slots: u8,
    padding: u8,
}

const ROWS: [Entry; 8] = [
    Entry {
        slot: 8,
        slots: 63,
        padding: 0,
    },
    Entry {
        slot: 14,
        slots: 36,
        padding: 0,
    },
    Entry {
        slot: 20,
        slots: 25,
        padding: 4,
    },
    Entry {
        slot: 26,
        slots: 19,
        padding: 10,
    },
    Entry {
        slot: 32,
        slots: 15,
        padding: 24,
    },
    Entry {
        slot: 38,
        slots: 13,
        padding: 10,
    },
    Entry {
        slot: 44,
        slots: 11,
        padding: 20,
    },
    Entry {
        slot: 50,
        slots: 10,
        padding: 4,
    },
];

// The row of a number of receivers, or that there is none: the number is not 1 to 8.
pub fn row_of(receivers: usize) -> Result<Row, Refusal>
    ensures { result ≡ lookup receivers }
{
    if receivers < 1 {
        return Err(Refusal::BadCount);
    }
    if 8 < receivers {
        return Err(Refusal::BadCount);
    }
    // no `From`: an entry alone does not know its receivers
    let entry = ROWS[receivers - 1];
    Ok(Row {
        receivers,
        slot: entry.slot as usize,
        slots: entry.slots as usize,
        padding: entry.padding as usize,
    })
}
