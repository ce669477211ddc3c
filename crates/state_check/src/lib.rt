// Are the words of a state the writing of a well-typed task and store of the rows? The cells and the task of the last row are
// read from the words, each content by its row's type, and written again into words of zeros: these must be the same words.

#![tactic(auto)]

ghost use Rattle.std.specs.Prelude.{◌≡◌, true, false, ◌*◌, ◌-◌, ◌<◌, ◌≤◌, length, replicate};
ghost use Rattle.std.proofs.Math.Option.{some};
ghost use Rattle.word.specs.Decides.{Decides};
ghost use Rattle.rows.specs.Rows.{max_rows};
ghost use Rattle.state.specs.Layout.{state_words};
ghost use Rattle.state.specs.Ensured.{Fine};
ghost use Rattle.rows.specs.KindsInCode.{in_table};
ghost use Rattle.state.specs.Tags.{tag_word};
ghost use Rattle.state_check.specs.Parts.{tagged_part, part_by, part_of, Lower};
ghost use Rattle.state_check.specs.Copies.{CopyOk, ValueOk, TouchesOk, CellOk, CellsOk};
ghost use Rattle.state_check.specs.States.{Alike, ToWrite, HeldOk};

use rows::kinds::{Kind, kind_at};
use rows::{MAX_ROWS, ROW_WORDS, ROWS_WORDS, operand};
use state::tag::{Tag, tag_at};
use state::{
    STATE_SIZE, STATE_WORDS, put_tag, put_touches, put_value, read, read_touches, read_value,
};
use tophat::NUMBER;
use typing::{Binders, cell_shape, row_type};
use value::fits;

// What reading does with a state row, and the rows that it then reads.
#[derive(Clone, Copy)]
pub enum Part {
    Alone,
    Filled(usize),
    Below(usize),
    Bound(usize, usize),
    Two(usize, usize),
    Gate(usize, usize),
}

// One of three, by the tag.
fn by_tag(tag: Tag, own: Option<Part>, one: Option<Part>, other: Option<Part>) -> Option<Part>
    ensures { result ≡ tagged_part (tag_word tag) own one other }
{
    match tag {
        Tag::Own => own,
        Tag::One => one,
        Tag::Other => other,
        Tag::Whole => None,
    }
}

// Of a row of a kind, with operands a, b, c and a tag; none, where no task has such a row.
fn part_from(kind: Kind, tag: Tag, a: usize, b: usize, c: usize) -> Option<Part>
    ensures { result ≡ part_by (some (in_table kind)) (tag_word tag) a b c }
{
    match kind {
        Kind::If => by_tag(tag, None, Some(Part::Below(b)), Some(Part::Below(c))),
        Kind::Let => by_tag(tag, None, Some(Part::Bound(a, b)), None),
        Kind::Edit | Kind::View => by_tag(tag, Some(Part::Filled(a)), None, None),
        Kind::Enter => by_tag(tag, Some(Part::Alone), Some(Part::Filled(a)), None),
        Kind::Update | Kind::Fail => by_tag(tag, Some(Part::Alone), None, None),
        Kind::Then | Kind::Next => by_tag(tag, Some(Part::Below(a)), Some(Part::Bound(a, b)), None),
        Kind::And => by_tag(tag, Some(Part::Two(a, b)), None, None),
        Kind::Or => by_tag(
            tag,
            Some(Part::Two(a, b)),
            Some(Part::Below(a)),
            Some(Part::Below(b)),
        ),
        Kind::Xor => by_tag(
            tag,
            Some(Part::Alone),
            Some(Part::Below(a)),
            Some(Part::Below(b)),
        ),
        Kind::Gate => by_tag(tag, Some(Part::Gate(b, c)), None, None),
        _ => None,
    }
}

fn part_at(rows: &[u32; ROWS_WORDS], row: usize, tag: Tag) -> Option<Part>
    requires { Fine rows.now row 0 }
    ensures { (result ≡ part_of rows.now row (tag_word tag)) × Lower result row }
{
    let kind = kind_at(rows, row)?;
    let a = operand(rows, row, 1);
    let b = operand(rows, row, 2);
    let c = operand(rows, row, 3);
    part_from(kind, tag, a, b, c)
}

// The row's value, if it is of the type with that shape.
fn copy_value(
    state: &[u32; STATE_SIZE],
    work: &mut [u32; STATE_SIZE],
    row: usize,
    tag: Tag,
    shape: u32,
) -> bool
    requires { row < max_rows }
    ensures { ValueOk state.now work.old work.new row (tag_word tag) shape result }
{
    let v = read_value(state, row);
    if fits(v, shape) {
        put_value(work, row, tag, v);
        return true;
    }
    false
}

// The row's touches left, if they are a number of at most so many (CR 6).
fn copy_touches(
    state: &[u32; STATE_SIZE],
    work: &mut [u32; STATE_SIZE],
    row: usize,
    most: usize,
) -> bool
    requires { row < max_rows }
    ensures { TouchesOk state.now work.old work.new row most result }
{
    if read(state, row, 1) != NUMBER {
        return false;
    }
    let touches = read_touches(state, row);
    if most < touches as usize {
        return false;
    }
    put_touches(work, row, touches);
    true
}

// The task of the row, under the binders.
fn copy_task(
    rows: &[u32; ROWS_WORDS],
    state: &[u32; STATE_SIZE],
    work: &mut [u32; STATE_SIZE],
    row: usize,
    binders: &Binders,
) -> bool
    requires { Fine rows.now row binders.now.count }
    ensures { CopyOk rows.now state.now work.old work.new row binders.now.shapes binders.now.count result }
{
    let Some(tag) = tag_at(state, row) else {
        return false;
    };
    let Some(part) = part_at(rows, row, tag) else {
        return false;
    };
    match part {
        Part::Alone => {
            put_tag(work, row, tag);
            true
        }
        Part::Filled(a) => match row_type(rows, a, binders) {
            Some(t) => copy_value(state, work, row, tag, t),
            None => false,
        },
        Part::Below(k) => {
            put_tag(work, row, tag);
            copy_task(rows, state, work, k, binders)
        }
        Part::Bound(a, b) => match row_type(rows, a, binders) {
            Some(t) => {
                copy_value(state, work, row, tag, t)
                    && !binders.is_full()
                    && copy_task(rows, state, work, b, &binders.with(t))
            }
            None => false,
        },
        Part::Two(a, b) => {
            put_tag(work, row, tag);
            copy_task(rows, state, work, a, binders) && copy_task(rows, state, work, b, binders)
        }
        Part::Gate(b, most) => {
            copy_touches(state, work, row, most) && copy_task(rows, state, work, b, binders)
        }
    }
}

// The row's content, if it is a cell.
fn copy_cell(
    rows: &[u32; ROWS_WORDS],
    row: usize,
    state: &[u32; STATE_SIZE],
    work: &mut [u32; STATE_SIZE],
) -> bool
    requires { row < max_rows }
    ensures { CellOk rows.now state.now work.old work.new row result }
{
    let Some(kind) = kind_at(rows, row) else {
        return true;
    };
    match kind {
        Kind::Cell => copy_value(state, work, row, Tag::Own, cell_shape(rows, row)),
        _ => true,
    }
}

// The cells among the first n rows.
fn copy_cells(
    rows: &[u32; ROWS_WORDS],
    n: usize,
    state: &[u32; STATE_SIZE],
    work: &mut [u32; STATE_SIZE],
) -> bool
    requires { n ≤ max_rows }
    ensures { CellsOk rows.now state.now work.old work.new n result }
{
    for i in 0..n {
        if !copy_cell(rows, i, state, work) {
            return false;
        }
    }
    true
}

// Are the first m words the same?
pub fn alike(x: &[u32], y: &[u32], m: usize) -> bool
    requires { (m ≤ length x.now) × (m ≤ length y.now) }
    ensures { Decides result (Alike x.now y.now m) }
{
    x[..m] == y[..m]
}

// Reads the state and writes it into `work`: is it so written?
fn written(
    rows: &[u32; ROWS_WORDS],
    n: usize,
    state: &[u32; STATE_SIZE],
    work: &mut [u32; STATE_SIZE],
) -> bool
    requires le_n { (1 ≤ n) × Fine rows.now (n - 1) 0 }
    requires to_write { ToWrite n state.now work.old }
    ensures { HeldOk rows.now n state.now work.new result }
{
    copy_cells(rows, n, state, work)
        && copy_task(rows, state, work, n - 1, &Binders::new())
        && alike(state, work, n * STATE_WORDS)
}

// Is the state the writing of a well-typed task and store of the n rows? Where it is, `work` holds the same words at exit, else
// zeros, as at entry.
pub fn held(
    rows: &[u32; ROWS_WORDS],
    n: usize,
    state: &[u32; STATE_SIZE],
    work: &mut [u32; STATE_SIZE],
) -> bool
    requires le_n { (1 ≤ n) × Fine rows.now (n - 1) 0 }
    requires to_write { ToWrite n state.now work.old }
    ensures held_ok { HeldOk rows.now n state.now work.new result }
    ensures work_after { result ≡ false → work.new ≡ replicate (max_rows * state_words) 0 }
{
    if written(rows, n, state, work) {
        return true;
    }
    *work = [0u32; STATE_SIZE];
    false
}
