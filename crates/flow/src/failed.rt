// A last row that failed as a whole (CR 3): its words, and whether words are those of a flow whose start fails so.
ghost use Rattle.std.specs.Prelude.{◌≡◌, ◌-◌, ◌≤◌, replicate};
ghost use Rattle.state.specs.Ensured.{Fine};
ghost use Rattle.state.specs.Lent.{state_size};
ghost use Rattle.state_check.specs.States.{ToWrite};
ghost use Rattle.flow.specs.Failed.{WriteFailedOk, IsFailedOk};

use super::firsts::first_cells;
use rows::ROWS_WORDS;
use running::evaluate;
use state::tag::Tag;
use state::{ENV_WORDS, STATE_SIZE, STATE_WORDS, clear_row, put_tag};
use state_check::alike;

// The first contents of the cells, and the tag of the last row of n, in words of zeros.
pub fn write_failed(rows: &[u32; ROWS_WORDS], n: usize, words: &mut [u32; STATE_SIZE])
    requires le_n { (1 ≤ n) × Fine rows.now (n - 1) 0 }
    requires words_value { words.old ≡ replicate state_size 0 }
    ensures { WriteFailedOk rows.now n words.new }
{
    first_cells(rows, n, words);
    put_tag(words, n - 1, Tag::Whole);
}

// Are these the words, and does the last row leave the words when it is evaluated? `work` is zeros, and is not kept.
pub fn is_failed(
    rows: &[u32; ROWS_WORDS],
    n: usize,
    words: &[u32; STATE_SIZE],
    work: &mut [u32; STATE_SIZE],
) -> bool
    requires le_n { (1 ≤ n) × Fine rows.now (n - 1) 0 }
    requires to_write { ToWrite n words.now work.old }
    ensures { IsFailedOk rows.now n words.now result }
{
    write_failed(rows, n, work);
    if !alike(words, work, n * STATE_WORDS) {
        return false;
    }
    clear_row(work, n - 1);
    let none = [0u32; ENV_WORDS];
    evaluate(rows, work, n - 1, &none, 0)
}
