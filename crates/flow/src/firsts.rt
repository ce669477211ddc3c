// The cells' first contents, written into words of zeros (01, "The sheet").
ghost use Rattle.std.specs.Prelude.{◌≡◌, ◌<◌, ◌≤◌};
ghost use Rattle.rows.specs.Rows.{max_rows};
ghost use Rattle.value.specs.Values.{as_value};
ghost use Rattle.flow.specs.Firsts.{content_at, CellFirst, CellsFirst};

use rows::kinds::Kind;
use rows::{ROWS_WORDS, get};
use shape::TRUTH;
use state::tag::Tag;
use state::{STATE_SIZE, put_value};
use typing::cell_shape;
use value::{Value, number, truth};

// The first content of a cell.
fn content(rows: &[u32; ROWS_WORDS], row: usize) -> Value
    requires { row < max_rows }
    ensures { result ≡ as_value (content_at rows.now row) }
{
    let w = get(rows, row, 2);
    if cell_shape(rows, row) == TRUTH {
        return truth(w == 1);
    }
    number(w)
}

// The row's first content, if it is a cell.
fn first_cell(rows: &[u32; ROWS_WORDS], row: usize, work: &mut [u32; STATE_SIZE])
    requires { row < max_rows }
    ensures { CellFirst rows.now work.old work.new row }
{
    if get(rows, row, 0) == Kind::Cell as u32 {
        let v = content(rows, row);
        put_value(work, row, Tag::Own, v);
        return;
    }
}

// The cells among the first n rows.
pub fn first_cells(rows: &[u32; ROWS_WORDS], n: usize, work: &mut [u32; STATE_SIZE])
    requires { n ≤ max_rows }
    ensures { CellsFirst rows.now work.old work.new n }
{
    for i in 0..n {
        first_cell(rows, i, work);
    }
}
