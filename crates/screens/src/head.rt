// The head line of a screen (01, "A session in full"): answer, strides, failing, value flag, a number for each leaf, entry count, byte 10.
ghost use Rattle.std.specs.Prelude.{◌≡◌, set};
ghost use Rattle.decimal.specs.Field.{newline};
ghost use Rattle.formats.specs.Records.{total};
ghost use Rattle.formats.specs.Heads.{head_columns};
ghost use Rattle.screens.specs.Heads.{head_over};

use decimal::field;
use decimal::field::{ACTION_COLUMNS, NEWLINE, ROW_COLUMNS, WORD_COLUMNS};
use formats::{HEAD_BYTES, HEAD_ENTRIES_AT, HEAD_LEAVES_AT, write_numbers};
use tophat::MAX_LEAVES;

// What a head line says: numbers below 2^31, and the bits of the leaves.
#[derive(Clone, Copy)]
pub struct Head {
    pub answer: u32,
    pub strides: u32,
    pub fails: u32,
    pub valued: u32,
    pub leaves: [u32; MAX_LEAVES],
    pub entries: u32,
}

// Where byte 10 stands.
const END_AT: usize = HEAD_BYTES - 1;

// Byte 10 at the line's end, where there is room for it.
fn write_end(s: &mut [u8])
    ensures { s.new ≡ set s.old (total head_columns) newline }
{
    if END_AT < s.len() {
        s[END_AT] = NEWLINE;
    }
}

// Writes a head line over the front of the bytes.
pub fn write(s: &mut [u8], h: Head)
    ensures { s.new ≡ head_over s.old h }
{
    field::write(s, 0, ROW_COLUMNS, h.answer);
    field::write(s, ROW_COLUMNS, ROW_COLUMNS, h.strides);
    field::write(s, 2 * ROW_COLUMNS, ACTION_COLUMNS, h.fails);
    field::write(
        s,
        2 * ROW_COLUMNS + ACTION_COLUMNS,
        ACTION_COLUMNS,
        h.valued,
    );
    let leaves = h.leaves;
    write_numbers(s, HEAD_LEAVES_AT, WORD_COLUMNS, leaves);
    field::write(s, HEAD_ENTRIES_AT, ROW_COLUMNS, h.entries);
    write_end(s);
}
