// The entries that a task shows, written as bytes one after another into the list that is lent (01, "Touches and what is shown"); lent a
// list of no bytes they are counted. Rests on crate decimal for fields, on crate normalising for what a button would do, and on crate
// running for rows that hand on.
#![tactic(auto)]

ghost use Rattle.std.specs.Prelude.{cond, List, [], ℕ, ◌<◌, ◌≤◌, length};
ghost use Rattle.decimal.specs.Path.{max_marks, path_of};
ghost use Rattle.rows.specs.Kinds.{either_k, if_k, task_k, edit_k, update_k, xor_k, view_k};
ghost use Rattle.tophat.specs.Actions.{number_of_action};
ghost use Rattle.tophat.specs.Roles.{Who};
ghost use Rattle.rows.specs.Rows.{max_rows, OfKind, FromKind, UpToKind};
ghost use Rattle.state.specs.Ensured.{Fine};
ghost use Rattle.running.specs.Hands.{Unhanded};
ghost use Rattle.formats.specs.Lists.{no_kinds, numbers_entry};
ghost use Rattle.entries.specs.Listing.{list_bytes, Least, Wrote, AtPath, OneDigit, ContentOk, GoesOnOk, who_of, ShutOk, EntriesOk};

use decimal::field::{ACTION_COLUMNS, NEWLINE};
use decimal::path::PATH_COLUMNS;
use decimal::{field, path};
use formats::{ENTRY_ACTION_AT, ENTRY_BYTES, ENTRY_KINDS_AT, write_numbers};
use normalising::{failing, tried};
use rows::kinds::Kind;
use rows::{MAX_BINDERS, MAX_MARKS, MAX_ROWS, ROWS_WORDS, get, operand};
use running::{enclose, evaluate, handed_on, value};
use shape::leaf_kinds;
use state::{ENV_WORDS, STATE_SIZE, pushed, read, read_touches};
use tophat::{Action, MAX_LEAVES};
use typing::{Binders, row_type};

// How many bytes of entries a task shows at most.
pub const LIST_BYTES: usize = MAX_ROWS * ENTRY_BYTES;

// Where byte 10 of an entry stands.
const LAST: usize = ENTRY_BYTES - 1;

// What one mark more would add to a path of 16 marks.
const MOST_UNIT: u32 = 1 << MAX_MARKS;

// The smaller of two numbers.
fn least(a: usize, b: usize) -> usize
    ensures { Least a b result }
{
    if a < b {
        return a;
    }
    b
}

// An entry at the front of the list, where there is room for it; how many bytes it has.
fn write_entry(list: &mut [u8], marks: u32, action: Action, kinds: [u32; MAX_LEAVES]) -> usize
    requires { (length (path_of marks) ≤ max_marks) × OneDigit kinds }
    ensures { Wrote list.old list.new result (numbers_entry (path_of marks) (number_of_action action) kinds) }
{
    if list.len() < ENTRY_BYTES {
        return ENTRY_BYTES;
    }
    path::write(list, 0, marks);
    field::write(list, ENTRY_ACTION_AT, ACTION_COLUMNS, u32::from(action));
    write_numbers(list, ENTRY_KINDS_AT, ACTION_COLUMNS, kinds);
    list[LAST] = NEWLINE;
    ENTRY_BYTES
}

// The entry of a button, where it can be pressed; how many bytes it has.
fn button(list: &mut [u8], marks: u32, action: Action, enabled: bool) -> usize
    requires { length (path_of marks) ≤ max_marks }
    ensures { Wrote list.old list.new result (cond enabled (numbers_entry (path_of marks) (number_of_action action) no_kinds) []) }
{
    if !enabled {
        return 0;
    }
    write_entry(list, marks, action, [0; MAX_LEAVES])
}

// The shape of what the editor at the row offers: of its content, of its type row, or of its cell's content.
fn content(rows: &[u32; ROWS_WORDS], state: &[u32; STATE_SIZE], row: usize) -> u32
    requires { Fine rows.now row 0 × FromKind rows.now row (task_k edit_k) × UpToKind rows.now row (task_k update_k) }
    ensures { ContentOk rows.now state.now row result }
{
    let kind = get(rows, row, 0);
    let a = operand(rows, row, 1);
    match kind {
        40 => read(state, row, 1),
        41 => row_type(rows, a, &Binders::new()).unwrap_or(0),
        _ => read(state, a, 1),
    }
}

// The entry of the editor at the row.
fn offer(
    rows: &[u32; ROWS_WORDS],
    state: &[u32; STATE_SIZE],
    row: usize,
    marks: u32,
    list: &mut [u8],
) -> usize
    requires { Fine rows.now row 0 × FromKind rows.now row (task_k edit_k) × UpToKind rows.now row (task_k update_k) × (length (path_of marks) ≤ max_marks) }
    ensures { (result ≤ list_bytes) × ((env : List ℕ) (d : ℕ) → (v : Who) → EntriesOk v rows.now state.now row env d (path_of marks) list.old list.new result) }
{
    let shape = content(rows, state, row);
    write_entry(list, marks, Action::Value, leaf_kinds(shape))
}

// Whether the step at the row shows Continue: A has a value, and B, evaluated under it in a copy of the state, neither leaves the words nor
// fails. It is asked here, in one copy: `attempt`, which keeps what it comes to, would make two more.
fn goes_on(
    rows: &[u32; ROWS_WORDS],
    state: &[u32; STATE_SIZE],
    row: usize,
    env: &[u32; ENV_WORDS],
    depth: usize,
) -> bool
    requires { Fine rows.now row depth × FromKind rows.now row (either_k if_k) × UpToKind rows.now row (task_k view_k) }
    ensures { GoesOnOk rows.now state.now row env.now depth result }
{
    let Some(v) = value(rows, state, operand(rows, row, 1)) else {
        return false;
    };
    if MAX_BINDERS <= depth {
        return false;
    }
    let inner = pushed(env, depth, v);
    let b = operand(rows, row, 2);
    let mut work = *state;
    if evaluate(rows, &mut work, b, &inner, depth + 1) {
        return false;
    }
    !failing(rows, &work, b, &inner, depth + 1)
}

// A choice of kind 48 not yet made: Left and Right, each where that branch, settled in a copy of the state, does not fail.
fn choice(
    rows: &[u32; ROWS_WORDS],
    state: &[u32; STATE_SIZE],
    row: usize,
    env: &[u32; ENV_WORDS],
    depth: usize,
    marks: u32,
    list: &mut [u8],
) -> usize
    requires { Fine rows.now row depth × OfKind rows.now row (task_k xor_k) × Unhanded rows.now state.now row × (length (path_of marks) ≤ max_marks) }
    ensures { (result ≤ list_bytes) × ((v : Who) → EntriesOk v rows.now state.now row env.now depth (path_of marks) list.old list.new result) }
{
    let left = tried(rows, state, operand(rows, row, 1), env, depth);
    let right = tried(rows, state, operand(rows, row, 2), env, depth);
    let n = button(list, marks, Action::Left, !left);
    let at = least(n, list.len());
    n + button(&mut list[at..], marks, Action::Right, !right)
}

// Whether the row is of kind 50 and shows them nothing: its role is another's, or it has no touch left (CR 6). 0 is anyone.
fn shut(rows: &[u32; ROWS_WORDS], state: &[u32; STATE_SIZE], row: usize, who: u32) -> bool
    requires { row < max_rows }
    ensures { ShutOk rows.now state.now row who result }
{
    if get(rows, row, 0) != Kind::Gate as u32 {
        return false;
    }
    if who == 0 {
        return false;
    }
    if get(rows, row, 1) != who {
        return true;
    }
    read_touches(state, row) == 0
}

// The entries that the task at the row shows a role, or anyone (0), each with the path of these marks in front, from the front of the
// list on, where it has room for them; how many bytes they are, room or not. What one mark more adds to the path is `unit`.
pub fn entries(
    rows: &[u32; ROWS_WORDS],
    state: &[u32; STATE_SIZE],
    row: usize,
    env: &[u32; ENV_WORDS],
    depth: usize,
    who: u32,
    marks: u32,
    unit: u32,
    list: &mut [u8],
) -> usize
    requires { Fine rows.now row depth × AtPath marks unit }
    ensures { (result ≤ list_bytes) × EntriesOk (who_of who) rows.now state.now row env.now depth (path_of marks) list.old list.new result }
{
    let part = handed_on(rows, state, row);
    if part != 0 {
        if shut(rows, state, row, who) {
            return 0;
        }
        let mut inner = *env;
        let under = enclose(rows, state, row, &mut inner, depth);
        let a = operand(rows, row, part);
        return entries(rows, state, a, &inner, under, who, marks, unit, list);
    }
    let kind = get(rows, row, 0);
    let a = operand(rows, row, 1);
    let b = operand(rows, row, 2);
    match kind {
        40..=42 => offer(rows, state, row, marks, list),
        43 => entries(rows, state, a, env, depth, who, marks, unit, list),
        44 => {
            let n = entries(rows, state, a, env, depth, who, marks, unit, list);
            let enabled = goes_on(rows, state, row, env, depth);
            let at = least(n, list.len());
            let m = button(&mut list[at..], marks, Action::Continue, enabled);
            least(n + m, LIST_BYTES)
        }
        46..=47 => {
            if unit == MOST_UNIT {
                return 0;
            }
            let two = 2 * unit;
            let n = entries(rows, state, a, env, depth, who, marks + unit, two, list);
            let at = least(n, list.len());
            let m = entries(
                rows,
                state,
                b,
                env,
                depth,
                who,
                marks + two,
                two,
                &mut list[at..],
            );
            least(n + m, LIST_BYTES)
        }
        48 => choice(rows, state, row, env, depth, marks, list),
        _ => 0,
    }
}
