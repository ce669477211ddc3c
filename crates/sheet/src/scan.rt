// The scan of a sheet's lines and fields, left at the first that cannot be read (01, ground 2).
ghost use Rattle.std.specs.Prelude.{◌≡◌, suc, ◌+◌, ◌*◌, ◌<◌, ◌≤◌, length, get_or, replicate};
ghost use Rattle.formats.specs.Records.{place_of, number_said};
ghost use Rattle.formats.specs.Lines.{line_columns, line_bytes, lines_say};
ghost use Rattle.rows.specs.Rows.{max_rows, row_words};
ghost use Rattle.rows.specs.Lent.{rows_size};
ghost use Rattle.sheet.specs.Scan.{is_line, word_at, word_read, LinesRead};

use decimal::field;
use decimal::field::{NEWLINE, ROW_COLUMNS, Reading, WORD_COLUMNS};
use formats::LINE_BYTES;
use grounds::operands::unused;
use rows::ground::Ground;
use rows::{ROW_WORDS, ROWS_WORDS};

// How wide the field of word k of a row is.
fn columns_of(k: usize) -> usize
    requires { k < row_words }
    ensures { result ≡ get_or line_columns (suc k) 0 }
{
    if k == 0 { ROW_COLUMNS } else { WORD_COLUMNS }
}

// Where it stands in its line.
fn place_of(k: usize) -> usize
    requires { k < row_words }
    ensures { result ≡ place_of line_columns (suc k) }
{
    if k == 0 {
        ROW_COLUMNS
    } else {
        2 * ROW_COLUMNS + (k - 1) * WORD_COLUMNS
    }
}

// Whether line i ends in byte 10 and begins with the number i.
fn is_line(sheet: &[u8], i: usize) -> bool
    requires { (i < max_rows) × (i * line_bytes + line_bytes ≤ length sheet.now) }
    ensures { result ≡ is_line sheet.now i }
{
    let at = i * LINE_BYTES;
    if sheet[at + (LINE_BYTES - 1)] != NEWLINE {
        return false;
    }
    match field::read(sheet, at, ROW_COLUMNS) {
        Reading::Number(n) => n as usize == i,
        Reading::Blank => false,
        Reading::Unreadable => false,
    }
}

// What word k of row i says, where the row's kind has this number: a blank is 0 where the operand is unused, and unreadable elsewhere.
fn read_word(sheet: &[u8], i: usize, k: usize, kind: u32) -> Option<u32>
    requires { (i < max_rows) × (k < row_words) }
    ensures { result ≡ word_read (number_said (word_at sheet.now kind i k)) }
{
    match field::read(sheet, i * LINE_BYTES + place_of(k), columns_of(k)) {
        Reading::Number(bits) => Some(bits),
        Reading::Blank => unused(kind, k).then_some(0),
        Reading::Unreadable => None,
    }
}

// Reads the first n lines into `own`, lent with zeros. The scan is left at the first field that cannot be read.
pub fn read_lines(sheet: &[u8], n: usize, own: &mut [u32; ROWS_WORDS]) -> Result<(), Ground>
    requires n_le_max_rows { (n ≤ max_rows) × (n * line_bytes ≤ length sheet.now) }
    requires own_value { own.old ≡ replicate rows_size 0 }
    ensures { LinesRead (lines_say sheet.now n) own.new result }
{
    'lines: {
        for i in 0..n {
            if !is_line(sheet, i) {
                break 'lines Err(Ground::NotRead);
            }
            for k in 0..ROW_WORDS {
                let kind = own[i * ROW_WORDS];
                let Some(word) = read_word(sheet, i, k, kind) else {
                    break 'lines Err(Ground::NotRead);
                };
                own[i * ROW_WORDS + k] = word;
            }
        }
        Ok(())
    }
}
