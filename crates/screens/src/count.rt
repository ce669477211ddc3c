// The row count of a session: 4 columns and byte 10 (01, "A session in full").
ghost use Rattle.std.specs.Prelude.{◌≡◌, ◌≤◌};
ghost use Rattle.std.specs.Int.{w32};
ghost use Rattle.std.proofs.Common.{to_z};
ghost use Rattle.decimal.specs.Field.{number};
ghost use Rattle.rows.specs.Rows.{max_rows};
ghost use Rattle.screens.specs.Counts.{count_said, count_in};

use decimal::field;
use decimal::field::{NEWLINE, ROW_COLUMNS, Reading};
use rows::MAX_ROWS;

// A row count with its byte 10.
pub const COUNT_BYTES: usize = ROW_COLUMNS + 1;

// The number of rows that the bits say, 0 where they are not 1 to 256.
fn few(bits: u32) -> usize
    ensures { result ≡ count_said (number (to_z w32 bits)) }
{
    let n = bits as usize;
    if MAX_ROWS < n {
        return 0;
    }
    n
}

// The row count that the bytes say: 1 to 256, and 0 where they say none.
pub fn read(s: &[u8]) -> usize
    ensures value { result ≡ count_in s.now }
    ensures upper_bound { result ≤ max_rows }
{
    if s.len() != COUNT_BYTES {
        return 0;
    }
    if s[ROW_COLUMNS] != NEWLINE {
        return 0;
    }
    let reading = field::read(s, 0, ROW_COLUMNS);
    match reading {
        Reading::Number(bits) => few(bits),
        Reading::Blank => 0,
        Reading::Unreadable => 0,
    }
}
