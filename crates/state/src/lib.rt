// The words of a state and of binders' values, read and written: the one place that computes indices. Of a state, `read` and `put` alone
// know where a word stands. A state row is its tag, a value's shape and its leaves, and zeros.
#![tactic(auto)]

pub mod lent; // a state in and out of lent memory
pub mod tag;

ghost use Rattle.std.specs.Prelude.{◌≡◌, [], ◌∷◌, ◌+◌, ◌<◌, ◌≤◌, length, get_or, set};
ghost use Rattle.rows.specs.Rows.{max_rows, word};
ghost use Rattle.rows.specs.Enclosing.{max_binders};
ghost use Rattle.state.specs.Layout.{state_words, place, at, own, touch_words};
ghost use Rattle.state.specs.Tags.{tag_word};
ghost use Rattle.state.specs.Holds.{value_length};
ghost use Rattle.state.specs.Words.{words_of, Laid, LaidFrom, value_by, value_at, binder_at, Pushed};
ghost use Rattle.state.specs.Ensured.{Fine, ClearOk};

use rows::kinds::{Kind, kind_at};
use rows::{MAX_BINDERS, MAX_ROWS, ROW_WORDS, ROWS_WORDS, operand};
use tag::Tag;
use tophat::{MAX_LEAVES, NUMBER};
use value::{NO_VALUE, Value};

// 01: "A state is 16 words a row". How many words the engine's own state has.
pub const STATE_WORDS: usize = 16;

pub const STATE_SIZE: usize = MAX_ROWS * STATE_WORDS;

// Which word of a row is which: the leaves stand last.
const TAG: usize = 0;

const SHAPE: usize = 1;

const LEAVES: usize = 2;

// A value is its shape and its leaves. How many words an environment has.
pub const VALUE_WORDS: usize = 1 + MAX_LEAVES;

pub const ENV_WORDS: usize = MAX_BINDERS * VALUE_WORDS;

// Word m of a state row.
pub fn read(state: &[u32; STATE_SIZE], row: usize, m: usize) -> u32
    requires { (row < max_rows) × (m < state_words) }
    ensures { result ≡ at state.now row m }
{
    state[row * STATE_WORDS + m]
}

// Word m of a state row becomes x.
fn put(state: &mut [u32; STATE_SIZE], row: usize, m: usize, x: u32)
    requires { (row < max_rows) × (m < state_words) }
    ensures state_after { state.new ≡ set state.old (place row m) x }
    ensures m_after { at state.new row m ≡ x }
{
    state[row * STATE_WORDS + m] = x;
}

// The row is no longer live.
pub fn clear_row(state: &mut [u32; STATE_SIZE], row: usize)
    requires { row < max_rows }
    ensures { Laid state.old state.new row [] }
{
    for m in 0..STATE_WORDS {
        put(state, row, m, 0);
    }
}

// The row is live, with its tag and nothing else.
pub fn put_tag(state: &mut [u32; STATE_SIZE], row: usize, tag: Tag)
    requires { row < max_rows }
    ensures { Laid state.old state.new row (tag_word tag ∷ []) }
{
    clear_row(state, row);
    put(state, row, TAG, u32::from(tag));
}

// The row is live, and holds a value.
pub fn put_value(state: &mut [u32; STATE_SIZE], row: usize, tag: Tag, v: Value)
    requires { row < max_rows }
    ensures { Laid state.old state.new row (tag_word tag ∷ words_of v) }
{
    put_tag(state, row, tag);
    put(state, row, SHAPE, v.shape);
    for k in 0..MAX_LEAVES {
        put(state, row, LEAVES + k, v.leaves[k]);
    }
}

// The row is live, and holds the touches that a row of kind 50 has left (CR 6).
pub fn put_touches(state: &mut [u32; STATE_SIZE], row: usize, touches: u32)
    requires { row < max_rows }
    ensures { Laid state.old state.new row (own ∷ touch_words touches) }
{
    put_tag(state, row, Tag::Own);
    put(state, row, SHAPE, NUMBER);
    put(state, row, LEAVES, touches);
}

// Those touches.
pub fn read_touches(state: &[u32; STATE_SIZE], row: usize) -> u32
    requires { row < max_rows }
    ensures { result ≡ at state.now row 2 }
{
    read(state, row, LEAVES)
}

// The value that the row holds.
pub fn read_value(state: &[u32; STATE_SIZE], row: usize) -> Value
    requires { row < max_rows }
    ensures { result ≡ value_at state.now row }
{
    let shape = read(state, row, SHAPE);
    let mut leaves = [0u32; MAX_LEAVES];
    for (i, leaf) in leaves.iter_mut().enumerate() {
        *leaf = read(state, row, LEAVES + i);
    }
    Value {
        shape: shape,
        leaves: leaves,
    }
}

// The value whose words stand from that place on: its shape, and its leaves.
fn value_in(words: &[u32], place: usize) -> Value
    requires { place + value_length ≤ length words.now }
    ensures { result ≡ value_by (λ m. get_or words.now (place + m) 0) }
{
    let mut leaves = [0u32; MAX_LEAVES];
    leaves.copy_from_slice(&words[place + 1..place + VALUE_WORDS]);
    Value {
        shape: words[place],
        leaves: leaves,
    }
}

// The words of a value, laid from that place on.
fn lay(words: &mut [u32], place: usize, v: Value)
    requires { place + value_length ≤ length words.old }
    ensures { LaidFrom words.old words.new place v }
{
    words[place] = v.shape;
    words[place + 1..place + VALUE_WORDS].copy_from_slice(&v.leaves);
}

// The value of binder k, counted outward; none beyond the outermost. Slot 0 is the outermost's.
pub fn env_get(env: &[u32; ENV_WORDS], depth: usize, k: usize) -> Value
    requires { depth ≤ max_binders }
    ensures { result ≡ binder_at env.now depth k }
{
    if depth <= k {
        return NO_VALUE;
    }
    let inward = depth - 1 - k;
    value_in(env, inward * VALUE_WORDS)
}

// One binder more, at that depth.
pub fn push(env: &mut [u32; ENV_WORDS], depth: usize, v: Value)
    requires { depth < max_binders }
    ensures { Pushed env.old env.new depth v }
{
    lay(env, depth * VALUE_WORDS, v);
}

// The values of the binders around, and one more, where those around are still wanted.
pub fn pushed(env: &[u32; ENV_WORDS], depth: usize, v: Value) -> [u32; ENV_WORDS]
    requires { depth < max_binders }
    ensures { Pushed env.now result depth v }
{
    let mut more = *env;
    push(&mut more, depth, v);
    more
}

// No row of the task at that row is live any more.
pub fn clear(rows: &[u32; ROWS_WORDS], state: &mut [u32; STATE_SIZE], row: usize)
    requires { Fine rows.now row 0 }
    ensures { ClearOk rows.now state.old state.new row }
{
    let Some(kind) = kind_at(rows, row) else {
        clear_row(state, row);
        return;
    };
    match kind {
        Kind::If => {
            clear(rows, state, operand(rows, row, 2));
            clear(rows, state, operand(rows, row, 3));
        }
        Kind::Let | Kind::Gate => clear(rows, state, operand(rows, row, 2)),
        Kind::Then | Kind::Next | Kind::And | Kind::Or | Kind::Xor => {
            clear(rows, state, operand(rows, row, 1));
            clear(rows, state, operand(rows, row, 2));
        }
        _ => {}
    }
    clear_row(state, row);
}
