// Sheets: lines of text read into rows, and the call `load` (01, "The sheet", "Four calls"). What it answers and leaves stands in
// specs/Sheet.antt.

#![tactic(auto)]

ghost use Rattle.std.specs.Prelude.{◌≡◌, replicate, IsSome};
ghost use Rattle.std.specs.Int.{w32};
ghost use Rattle.std.proofs.Common.{of_z};
ghost use Rattle.word.specs.Word.{AllWords};
ghost use Rattle.word.specs.Laid.{laid};
ghost use Rattle.rows.specs.GroundNumbers.{answer_number};
ghost use Rattle.rows.specs.Lent.{rows_size, own_rows};
ghost use Rattle.sheet.specs.Sheet.{sized, loaded};
ghost use Rattle.sheet.specs.Accepted.{accepted_count};

use formats::LINE_BYTES;
use grounds;
use match_laws;
use rows::ground::Ground;
use rows::{MAX_ROWS, ROW_WORDS, ROWS_WORDS};
use tophat;
use typing;
use word;

mod scan; // ground 2: the lines and fields of a text

// Whether a text of `len` bytes is 1 to 256 whole lines.
#[tactic(auto, unfolding(crate::specs::Sheet::sized))]
fn is_sized(len: usize) -> bool
    ensures { result ≡ sized len }
{
    len % LINE_BYTES == 0 && 1 <= len / LINE_BYTES && len / LINE_BYTES <= MAX_ROWS
}

// Loads a sheet into lent rows, four words a line. It is refused for the first ground of 1, 21 and 2 to 7 that holds; then no
// word of `rows` changes.
pub fn load(sheet: &[u8], rows: &mut [i32]) -> Result<(), Ground>
    ensures value { answer_number result ≡ (loaded sheet.now rows.old).0 }
    ensures rows_after { rows.new ≡ (loaded sheet.now rows.old).1 }
{
    if !is_sized(sheet.len()) {
        return Err(Ground::NotSized);
    }
    let n = sheet.len() / LINE_BYTES;
    if rows.len() != n * ROW_WORDS {
        return Err(Ground::WrongMemory);
    }
    let mut own = [0u32; ROWS_WORDS];
    scan::read_lines(sheet, n, &mut own)?;
    grounds::ground_of_rows(&own, n)?;
    word::copy_out(&own, rows);
    Ok(())
}

// How many rows of an accepted flow `rows` holds, with their bits in `own`, which is lent with zeros; none where no accepted sheet
// loads to them (01, ground 20).
pub fn accepted_rows(rows: &[i32], own: &mut [u32; ROWS_WORDS]) -> Option<usize>
    requires { own.old ≡ replicate rows_size 0 }
    ensures value { result ≡ accepted_count rows.now }
    ensures own_after { IsSome result → own.new ≡ own_rows rows.now }
    ensures all_words { IsSome result → AllWords rows.now }
    ensures own_after_2 { own.new ≡ laid (of_z w32) rows.now own.old }
{
    word::copy_in(rows, own);
    grounds::accepted_rows(own, rows.len()).then_some(rows.len() / ROW_WORDS)
}
