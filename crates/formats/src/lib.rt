// The formats of 01's texts: records of fields in columns, read and written. What an event, an entry and a list say stands in specs/;
// here is the code for an event's role, and for leaves in fields of one width: an event's, read, and a number for each, written.
#![tactic(auto)]

ghost use Rattle.std.specs.Prelude.{◌≡◌, ◌+◌, ◌*◌, ◌<◌, length, replicate};
ghost use Rattle.word.specs.Options.{in_code};
ghost use Rattle.decimal.specs.Field.{reads_at};
ghost use Rattle.tophat.specs.Syntax.{max_leaves};
ghost use Rattle.formats.specs.Records.{fields_at, each, put_items, items_of, leaf_read, leaves_read};
ghost use Rattle.formats.specs.Touches.{event_role, leaf_said};

use decimal::field;
use decimal::field::{ACTION_COLUMNS, ROW_COLUMNS, Reading, WORD_COLUMNS};
use decimal::path::PATH_COLUMNS;
use rows::is_role;
use tophat::MAX_LEAVES;

// 01: "lines of 45 bytes": row number, kind, three operands, byte 10.
pub const LINE_BYTES: usize = 2 * ROW_COLUMNS + 3 * WORD_COLUMNS + 1;

// CR 6: "a role in 2 columns in front".
pub const ROLE_COLUMNS: usize = 2;

// Where the path and the action of an event stand, and where its leaves begin. CR 6: events "are 117 bytes"; byte 10 is the last.
pub const EVENT_PATH_AT: usize = ROLE_COLUMNS;

pub const EVENT_ACTION_AT: usize = EVENT_PATH_AT + PATH_COLUMNS;

pub const EVENT_LEAVES_AT: usize = EVENT_ACTION_AT + ACTION_COLUMNS;

pub const EVENT_BYTES: usize = EVENT_LEAVES_AT + MAX_LEAVES * WORD_COLUMNS + 1;

// Where the action of an entry stands, and where its leaf kinds begin. CR 4: "entries 35"; byte 10 is the last.
pub const ENTRY_ACTION_AT: usize = PATH_COLUMNS;

pub const ENTRY_KINDS_AT: usize = ENTRY_ACTION_AT + ACTION_COLUMNS;

pub const ENTRY_BYTES: usize = ENTRY_KINDS_AT + MAX_LEAVES * ACTION_COLUMNS + 1;

// A head line is the answer, strides, two flags, a number for each leaf and the entry count; CR 4: "112 and byte 10".
pub const HEAD_LEAVES_AT: usize = 2 * ROW_COLUMNS + 2 * ACTION_COLUMNS;

pub const HEAD_ENTRIES_AT: usize = HEAD_LEAVES_AT + MAX_LEAVES * WORD_COLUMNS;

pub const HEAD_BYTES: usize = HEAD_ENTRIES_AT + ROW_COLUMNS + 1;

// The role that an event's first columns say, if they say one of 1 to 8 (CR 6). The rest of the event is not read.
pub fn read_role(s: &[u8]) -> Option<u32>
    ensures { result ≡ in_code (event_role s.now) }
{
    let bits = match field::read(s, 0, ROLE_COLUMNS) {
        Reading::Number(bits) => bits,
        Reading::Blank => return None,
        Reading::Unreadable => return None,
    };
    is_role(bits).then_some(bits)
}

// The leaf in the field of `width` columns from `at` on, where the field can be read: a number's bits, or blank.
fn read_leaf(s: &[u8], at: usize, width: usize) -> Option<Option<u32>>
    ensures { result ≡ leaf_read (leaf_said (reads_at s.now at width)) }
{
    match field::read(s, at, width) {
        Reading::Number(bits) => Some(Some(bits)),
        Reading::Blank => Some(None),
        Reading::Unreadable => None,
    }
}

// The leaves in fields of `width` columns, one after another from `at` on, where each can be read.
pub fn read_leaves(s: &[u8], at: usize, width: usize) -> Option<[Option<u32>; MAX_LEAVES]>
    requires { at + max_leaves * width < 4294967296 }
    ensures { result ≡ leaves_read (each leaf_said (fields_at s.now at (replicate max_leaves width))) }
{
    let mut leaves = [None; MAX_LEAVES];
    for k in 0..MAX_LEAVES {
        leaves[k] = read_leaf(s, at + k * width, width)?;
    }
    Some(leaves)
}

// The numbers into fields of `width` columns, one after another from `at` on. Where the slice does not have a field, or a number
// does not fit it, its bytes stay. How many numbers there are, which only a function that is lent an array learns, is told.
pub fn write_numbers(s: &mut [u8], at: usize, width: usize, numbers: [u32; MAX_LEAVES])
    requires { at + max_leaves * width < 4294967296 }
    ensures s_after { s.new ≡ put_items s.old at (items_of width numbers) }
    ensures numbers_len { length numbers ≡ max_leaves }
{
    for i in 0..MAX_LEAVES {
        field::write(s, at + i * width, width, numbers[i]);
    }
}
