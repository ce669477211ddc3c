// Failing, normalising and striding: a cycle in which the row falls (01: "failing calls normalise on branches, normalise calls stride,
// stride calls failing"). Between them stand `settle` and `tried`, `attempt` and `choose`; `tried` and `attempt` alone hold a copy of the
// state, so that frames stay small. Rests on crate running for values, evaluation and rows that hand on, and on crate state's contracts.
#![tactic(auto)]

ghost use Rattle.rows.specs.Kinds.{either_k, if_k, task_k, or_k, view_k};
ghost use Rattle.rows.specs.Rows.{OfKind, FromKind, UpToKind};
ghost use Rattle.state.specs.Ensured.{Fine, FailingOk, StrideOk, NormaliseOk};
ghost use Rattle.running.specs.Hands.{Unhanded};
ghost use Rattle.normalising.specs.Trying.{SettleOk, TriedOk, AttemptOk};

use rows::{MAX_BINDERS, MAX_ROWS, ROWS_WORDS, get, operand};
use running::{enclose, evaluate, handed_on, value};
use state::tag::Tag;
use state::{ENV_WORDS, STATE_SIZE, clear, pushed, put_tag, put_value};
use value::Value;

// One more than there can be rows: the most strides that a call can count.
const MAX_STRIDES: u32 = MAX_ROWS as u32 + 1;

// Whether the task at the row fails.
#[cycle(normalising)]
pub fn failing(
    rows: &[u32; ROWS_WORDS],
    state: &[u32; STATE_SIZE],
    row: usize,
    env: &[u32; ENV_WORDS],
    depth: usize,
) -> bool
    requires { Fine rows.now row depth }
    ensures { FailingOk rows.now state.now row env.now depth result }
{
    let part = handed_on(rows, state, row);
    if part != 0 {
        let mut inner = *env;
        let under = enclose(rows, state, row, &mut inner, depth);
        return failing(rows, state, operand(rows, row, part), &inner, under);
    }
    let kind = get(rows, row, 0);
    match kind {
        43..=44 => failing(rows, state, operand(rows, row, 1), env, depth),
        45 => true,
        46..=47 => {
            failing(rows, state, operand(rows, row, 1), env, depth)
                && failing(rows, state, operand(rows, row, 2), env, depth)
        }
        48 => {
            tried(rows, state, operand(rows, row, 1), env, depth)
                && tried(rows, state, operand(rows, row, 2), env, depth)
        }
        _ => false,
    }
}

// Whether the branch at the row, settled, would fail. The copy that it is settled in stands in this frame alone.
#[cycle(normalising)]
pub fn tried(
    rows: &[u32; ROWS_WORDS],
    state: &[u32; STATE_SIZE],
    row: usize,
    env: &[u32; ENV_WORDS],
    depth: usize,
) -> bool
    requires { Fine rows.now row depth }
    ensures { TriedOk rows.now state.now row env.now depth result }
{
    let mut work = *state;
    settle(rows, &mut work, row, env, depth)
}

// The branch at the row, evaluated and normalised; whether it fails: then its words are to be dropped. One whose evaluation leaves the words
// does. What has strided more than once does not, so failing is asked of a normal form that took one stride alone, and nested branches are
// not settled twice.
#[cycle(normalising)]
pub fn settle(
    rows: &[u32; ROWS_WORDS],
    state: &mut [u32; STATE_SIZE],
    row: usize,
    env: &[u32; ENV_WORDS],
    depth: usize,
) -> bool
    requires { Fine rows.now row depth }
    ensures { SettleOk rows.now state.old row env.now depth state.new result }
{
    if evaluate(rows, state, row, env, depth) {
        return true;
    }
    let strides = normalise(rows, state, row, env, depth);
    if 1 < strides {
        return false;
    }
    failing(rows, state, row, env, depth)
}

// Strides until one does not move; their number, the last included.
#[cycle(normalising)]
pub fn normalise(
    rows: &[u32; ROWS_WORDS],
    state: &mut [u32; STATE_SIZE],
    row: usize,
    env: &[u32; ENV_WORDS],
    depth: usize,
) -> u32
    requires { Fine rows.now row depth }
    ensures { NormaliseOk rows.now state.old state.new row env.now depth result }
{
    let mut strides: u32 = 0;
    while strides < MAX_STRIDES {
        let moved = stride(rows, state, row, env, depth);
        strides += 1;
        if !moved {
            return strides;
        }
    }
    strides
}

// One stride of the task at the row; whether it moved, that is, changed the task or the store.
#[cycle(normalising)]
pub fn stride(
    rows: &[u32; ROWS_WORDS],
    state: &mut [u32; STATE_SIZE],
    row: usize,
    env: &[u32; ENV_WORDS],
    depth: usize,
) -> bool
    requires { Fine rows.now row depth }
    ensures { StrideOk rows.now state.old state.new row env.now depth result }
{
    let part = handed_on(rows, state, row);
    if part != 0 {
        let mut inner = *env;
        let under = enclose(rows, state, row, &mut inner, depth);
        return stride(rows, state, operand(rows, row, part), &inner, under);
    }
    let kind = get(rows, row, 0);
    match kind {
        43 => {
            let a = operand(rows, row, 1);
            let moved = stride(rows, state, a, env, depth);
            let Some(v) = value(rows, state, a) else {
                return moved;
            };
            attempt(rows, state, row, env, depth, v) || moved
        }
        44 => stride(rows, state, operand(rows, row, 1), env, depth),
        46 => {
            let left = stride(rows, state, operand(rows, row, 1), env, depth);
            let right = stride(rows, state, operand(rows, row, 2), env, depth);
            left || right
        }
        47 => choose(rows, state, row, env, depth),
        _ => false,
    }
}

// A choice of kind 47 not yet made, strided: the first part with a value replaces it.
#[cycle(normalising)]
fn choose(
    rows: &[u32; ROWS_WORDS],
    state: &mut [u32; STATE_SIZE],
    row: usize,
    env: &[u32; ENV_WORDS],
    depth: usize,
) -> bool
    requires { Fine rows.now row depth × OfKind rows.now row (task_k or_k) × Unhanded rows.now state.old row }
    ensures { StrideOk rows.now state.old state.new row env.now depth result }
{
    let a = operand(rows, row, 1);
    let b = operand(rows, row, 2);
    let left = stride(rows, state, a, env, depth);
    if value(rows, state, a).is_some() {
        clear(rows, state, b);
        put_tag(state, row, Tag::One);
        return true;
    }
    let right = stride(rows, state, b, env, depth);
    if value(rows, state, b).is_some() {
        clear(rows, state, a);
        put_tag(state, row, Tag::Other);
        return true;
    }
    left || right
}

// The right side of the step at the row, evaluated under the value in a copy of the state: unless it leaves the words or fails there, it
// replaces the step.
#[cycle(normalising)]
pub fn attempt(
    rows: &[u32; ROWS_WORDS],
    state: &mut [u32; STATE_SIZE],
    row: usize,
    env: &[u32; ENV_WORDS],
    depth: usize,
    v: Value,
) -> bool
    requires { Fine rows.now row depth × FromKind rows.now row (either_k if_k) × UpToKind rows.now row (task_k view_k) }
    ensures { AttemptOk rows.now state.old state.new row env.now depth v result }
{
    if MAX_BINDERS <= depth {
        return false;
    }
    let inner = pushed(env, depth, v);
    let b = operand(rows, row, 2);
    let mut work = *state;
    if evaluate(rows, &mut work, b, &inner, depth + 1) {
        return false;
    }
    if failing(rows, &work, b, &inner, depth + 1) {
        return false;
    }
    clear(rows, &mut work, operand(rows, row, 1));
    put_value(&mut work, row, Tag::One, v);
    *state = work;
    true
}
