// Rows of words: how a word of a row is read, and the numbers that 01 gives to rows, each under one name: sizes here, kinds in
// `kinds`, grounds in `ground`.
#![tactic(auto)]

ghost use Rattle.std.specs.Prelude.{◌≡◌, ◌*◌, ◌<◌, length};
ghost use Rattle.tophat.specs.Roles.{is_role};
ghost use Rattle.rows.specs.Rows.{max_rows, row_words, word};

use decimal::path::PATH_COLUMNS;
use tophat::MAX_ROLE;

pub mod ground;
pub mod kinds;

// 01: "1 to 256 lines", "4 words a row"
pub const MAX_ROWS: usize = 256;

pub const ROW_WORDS: usize = 4;

pub const ROWS_WORDS: usize = MAX_ROWS * ROW_WORDS;

// 01: "At most 16 binders, and at most 16 rows of kind 46 or 47, enclose a row". A path has a column for each mark.
pub const MAX_BINDERS: usize = 16;

pub const MAX_MARKS: usize = PATH_COLUMNS;

// Word k of a row: its kind and operands A, B, C.
pub fn get(rows: &[u32; ROWS_WORDS], row: usize, k: usize) -> u32
    requires { (row < max_rows) × (k < row_words) }
    ensures { result ≡ word rows.now row k }
{
    rows[row * ROW_WORDS + k]
}

fn wide(x: u32) -> usize
    ensures { result ≡ x }
{
    x as usize
}

// An operand that names a row, a binder or a cell.
pub fn operand(rows: &[u32; ROWS_WORDS], row: usize, k: usize) -> usize
    requires { (row < max_rows) × (k < row_words) }
    ensures { result ≡ word rows.now row k }
{
    wide(rows[row * ROW_WORDS + k])
}

// CR 6: a role is 1 to 8.
pub fn is_role(w: u32) -> bool
    ensures { result ≡ is_role w }
{
    if w == 0 {
        return false;
    }
    w <= MAX_ROLE
}

// The kind of a row; past the last row 0, which is no kind.
pub fn kind(rows: &[u32], row: usize) -> u32
    requires { length rows.now ≡ max_rows * row_words }
    ensures { result ≡ word rows.now row 0 }
{
    if row < MAX_ROWS {
        return rows[row * ROW_WORDS];
    }
    0
}
