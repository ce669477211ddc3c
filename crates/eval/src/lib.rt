// Evaluation of plain expressions, rows of kind 20 to 31, which gives a value and may write cells. Rests on crate value for
// values and operators, on crate state for the words, and on specs/Ensured of that crate for what evaluation ensures.
#![tactic(auto)]

ghost use Rattle.std.specs.Prelude.{◌≡◌, List, ℕ, ◌<◌, ◌≤◌};
ghost use Rattle.rows.specs.Kinds.{plain_k, eunit_k, ebinder_k, efst_k, esnd_k, number_of};
ghost use Rattle.rows.specs.Rows.{max_rows, word};
ghost use Rattle.rows.specs.Enclosing.{max_binders};
ghost use Rattle.value.specs.Values.{first_value, second_value};
ghost use Rattle.value.specs.Evaluations.{sure_of};
ghost use Rattle.state.specs.Ensured.{Fine, EvalOk};

use rows::kinds::Kind;
use rows::{MAX_BINDERS, ROWS_WORDS, get, operand};
use state::tag::Tag;
use state::{ENV_WORDS, STATE_SIZE, env_get, pushed, put_value, read_value};
use value::{
    Evaluation, Value, after, apply, first, is_true, number, pair, second, sure, truth, unit,
};

// A constant, or a binder's value: what needs no other row and no state.
fn constant(
    rows: &[u32; ROWS_WORDS],
    row: usize,
    env: &[u32; ENV_WORDS],
    depth: usize,
    kind: u32,
) -> Value
    requires { (row < max_rows) × (depth ≤ max_binders) × (kind ≡ word rows.now row 0) × (number_of (plain_k eunit_k) ≤ kind) × (kind ≤ number_of (plain_k ebinder_k)) }
    ensures { (ws : List ℕ) → EvalOk rows.now ws ws row env.now depth (sure_of result) }
{
    match kind {
        20 => unit(),
        21 => truth(get(rows, row, 1) == 1),
        22 => number(get(rows, row, 1)),
        _ => env_get(env, depth, operand(rows, row, 1)),
    }
}

// A part of a pair: the first for kind 27, the second for 28.
fn part(a: Value, kind: u32) -> Value
    ensures { (kind ≡ number_of (plain_k efst_k) → result ≡ first_value a) × (kind ≡ number_of (plain_k esnd_k) → result ≡ second_value a) }
{
    if kind == Kind::First as u32 {
        return first(a);
    }
    second(a)
}

// The expression at the row: its value, and whether a result left the words on the way. Evaluation goes on after that, in words that the
// caller then drops.
pub fn eval(
    rows: &[u32; ROWS_WORDS],
    state: &mut [u32; STATE_SIZE],
    row: usize,
    env: &[u32; ENV_WORDS],
    depth: usize,
) -> Evaluation
    requires { Fine rows.now row depth }
    ensures { EvalOk rows.now state.old state.new row env.now depth result }
{
    let kind = get(rows, row, 0);
    match kind {
        20..=23 => sure(constant(rows, row, env, depth, kind)),
        24 => {
            let x = eval(rows, state, operand(rows, row, 2), env, depth);
            let y = eval(rows, state, operand(rows, row, 3), env, depth);
            let z = apply(get(rows, row, 1), x.value, y.value);
            after(x.over, after(y.over, z))
        }
        25 => {
            let test = eval(rows, state, operand(rows, row, 1), env, depth);
            if is_true(test.value) {
                let taken = eval(rows, state, operand(rows, row, 2), env, depth);
                return after(test.over, taken);
            }
            let other = eval(rows, state, operand(rows, row, 3), env, depth);
            after(test.over, other)
        }
        26 => {
            let a = eval(rows, state, operand(rows, row, 1), env, depth);
            let b = eval(rows, state, operand(rows, row, 2), env, depth);
            let both = pair(a.value, b.value);
            after(a.over, after(b.over, sure(both)))
        }
        27..=28 => {
            let whole = eval(rows, state, operand(rows, row, 1), env, depth);
            after(whole.over, sure(part(whole.value, kind)))
        }
        29 => sure(read_value(state, operand(rows, row, 1))),
        30 => {
            let content = eval(rows, state, operand(rows, row, 2), env, depth);
            put_value(state, operand(rows, row, 1), Tag::Own, content.value);
            after(content.over, sure(unit()))
        }
        31 => {
            let bound = eval(rows, state, operand(rows, row, 1), env, depth);
            if MAX_BINDERS <= depth {
                return sure(unit());
            }
            let inner = pushed(env, depth, bound.value);
            let body = eval(rows, state, operand(rows, row, 2), &inner, depth + 1);
            after(bound.over, body)
        }
        _ => sure(unit()),
    }
}
