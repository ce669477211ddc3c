// What the rows of a state say of tasks: which row a row hands on to, the value of a task, and the evaluation of a code to its
// task. Rests on crate eval for expressions, on crate state for the words and for what these functions ensure.
#![tactic(auto)]

ghost use Rattle.std.specs.Prelude.{◌≡◌, ◌<◌, ◌≤◌};
ghost use Rattle.rows.specs.Rows.{max_rows, word};
ghost use Rattle.rows.specs.Enclosing.{max_binders};
ghost use Rattle.state.specs.Layout.{at};
ghost use Rattle.state.specs.Ensured.{Fine, ValueOk, EvaluateOk};
ghost use Rattle.running.specs.Hands.{taken, Handed, Bound, Under};
ghost use Rattle.value.specs.Found.{both_found};

use eval::eval;
use rows::kinds::{Kind, kind_at};
use rows::{MAX_BINDERS, ROWS_WORDS, get, operand};
use state::tag::{Tag, tag_at};
use state::{ENV_WORDS, STATE_SIZE, push, put_tag, put_touches, put_value, read_value};
use value::{Value, is_true, pair};

// One of two operands, by the tag, or 0.
fn taken(tag: Option<Tag>, one: usize, other: usize) -> usize
    ensures { result ≡ taken tag one other }
{
    let Some(tag) = tag else {
        return 0;
    };
    match tag {
        Tag::One => one,
        Tag::Other => other,
        _ => 0,
    }
}

// The operand that names the row which the row hands on to, or 0.
pub fn handed_on(rows: &[u32; ROWS_WORDS], state: &[u32; STATE_SIZE], row: usize) -> usize
    requires { row < max_rows }
    ensures { Handed (word rows.now row 0) (at state.now row 0) result }
{
    let Some(kind) = kind_at(rows, row) else {
        return 0;
    };
    let tag = tag_at(state, row);
    match kind {
        Kind::If => taken(tag, 2, 3),
        Kind::Let | Kind::Then | Kind::Next => taken(tag, 2, 0),
        Kind::Or | Kind::Xor => taken(tag, 1, 2),
        Kind::Gate => 2,
        _ => 0,
    }
}

// One more binder, whose value the row holds; the depth after it.
fn bind(state: &[u32; STATE_SIZE], row: usize, env: &mut [u32; ENV_WORDS], depth: usize) -> usize
    requires { (row < max_rows) × (depth ≤ max_binders) }
    ensures { Bound state.now row env.old env.new depth result }
{
    if MAX_BINDERS <= depth {
        return depth;
    }
    push(env, depth, read_value(state, row));
    depth + 1
}

// The binders' values around the row which the row hands on to; the depth there.
pub fn enclose(
    rows: &[u32; ROWS_WORDS],
    state: &[u32; STATE_SIZE],
    row: usize,
    env: &mut [u32; ENV_WORDS],
    depth: usize,
) -> usize
    requires { (row < max_rows) × (depth ≤ max_binders) }
    ensures { Under state.now row (word rows.now row 0) env.old env.new depth result }
{
    let kind = get(rows, row, 0);
    match kind {
        31 => bind(state, row, env, depth),
        43..=44 => bind(state, row, env, depth),
        _ => depth,
    }
}

// The pair of two values, where both are there.
fn both(x: Option<Value>, y: Option<Value>) -> Option<Value>
    ensures { result ≡ both_found x y }
{
    Some(pair(x?, y?))
}

// The value of the task at the row.
pub fn value(rows: &[u32; ROWS_WORDS], state: &[u32; STATE_SIZE], row: usize) -> Option<Value>
    requires { Fine rows.now row 0 }
    ensures { ValueOk rows.now state.now row result }
{
    let k = handed_on(rows, state, row);
    if k != 0 {
        return value(rows, state, operand(rows, row, k));
    }
    let kind = get(rows, row, 0);
    match kind {
        40 | 49 => Some(read_value(state, row)),
        41 => match tag_at(state, row)? {
            Tag::One => Some(read_value(state, row)),
            _ => None,
        },
        42 => {
            let cell = operand(rows, row, 1);
            Some(read_value(state, cell))
        }
        46 => {
            let x = value(rows, state, operand(rows, row, 1));
            let y = value(rows, state, operand(rows, row, 2));
            both(x, y)
        }
        47 => {
            let left = value(rows, state, operand(rows, row, 1));
            if left.is_some() {
                return left;
            }
            value(rows, state, operand(rows, row, 2))
        }
        _ => None,
    }
}

// Evaluation of the code at the row, none of whose rows is live, to its task; whether a result left the words on the way, so that it evaluates
// as fail (CR 3). A cell that an expression assigns is written: a caller that may be told so hands over words that it can drop.
pub fn evaluate(
    rows: &[u32; ROWS_WORDS],
    state: &mut [u32; STATE_SIZE],
    row: usize,
    env: &[u32; ENV_WORDS],
    depth: usize,
) -> bool
    requires { Fine rows.now row depth }
    ensures { EvaluateOk rows.now state.old state.new row env.now depth result }
{
    let kind = get(rows, row, 0);
    match kind {
        25 => {
            let x = eval(rows, state, operand(rows, row, 1), env, depth);
            if is_true(x.value) {
                let over = evaluate(rows, state, operand(rows, row, 2), env, depth);
                put_tag(state, row, Tag::One);
                return x.over | over;
            }
            let over = evaluate(rows, state, operand(rows, row, 3), env, depth);
            put_tag(state, row, Tag::Other);
            x.over | over
        }
        31 => {
            let x = eval(rows, state, operand(rows, row, 1), env, depth);
            put_value(state, row, Tag::One, x.value);
            let mut inner = *env;
            let deeper = bind(state, row, &mut inner, depth);
            let over = evaluate(rows, state, operand(rows, row, 2), &inner, deeper);
            x.over | over
        }
        40 | 49 => {
            let x = eval(rows, state, operand(rows, row, 1), env, depth);
            put_value(state, row, Tag::Own, x.value);
            x.over
        }
        43..=44 => {
            let over = evaluate(rows, state, operand(rows, row, 1), env, depth);
            put_tag(state, row, Tag::Own);
            over
        }
        46..=47 => {
            let a = operand(rows, row, 1);
            let b = operand(rows, row, 2);
            let left = evaluate(rows, state, a, env, depth);
            let right = evaluate(rows, state, b, env, depth);
            put_tag(state, row, Tag::Own);
            left | right
        }
        50 => {
            put_touches(state, row, get(rows, row, 3));
            evaluate(rows, state, operand(rows, row, 2), env, depth)
        }
        _ => {
            put_tag(state, row, Tag::Own);
            false
        }
    }
}
