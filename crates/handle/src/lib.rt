// Handling an event: the task at a row takes it, and the words say what the task is then, or refuses it, and every word is as it
// was. What the rows of kind 50 that it passes say of its role and touches is answered, and their touches are used whatever they
// say (CR 6): the caller drops the words where they refuse. Work that may be given up is done in a copy of the state, in `side`
// here and in `attempt` of crate normalising. Rests on the crates below for values, evaluation, normalising and rows that hand on;
// specs/Events says what an event is.
#![tactic(auto)]

ghost use Rattle.std.specs.Prelude.{◌≡◌, List, map, ℕ, ◌-◌, ◌<◌, ◌≤◌, take, is_some};
ghost use Rattle.std.specs.List.{list_all};
ghost use Rattle.tophat.specs.Syntax.{max_leaves};
ghost use Rattle.rows.specs.Kinds.{task_k, edit_k, update_k, xor_k};
ghost use Rattle.rows.specs.GroundNumbers.{answer_number};
ghost use Rattle.rows.specs.Rows.{max_rows, OfKind, FromKind, UpToKind};
ghost use Rattle.state.specs.Tags.{tag_word};
ghost use Rattle.state.specs.Ensured.{Fine, HandleOk};
ghost use Rattle.running.specs.Hands.{Unhanded};
ghost use Rattle.handle.specs.Events.{bits_of, event_path, event_action, Ends, passed};
ghost use Rattle.handle.specs.Taking.{FillOk, GoingOk, PickOk, answer_of, gate_verdict, PassOk};

use decimal::path::{Front, front_mark};
use normalising::{attempt, settle};
use rows::ground::Ground;
use rows::kinds::Kind;
use rows::{ROWS_WORDS, get, operand};
use running::{enclose, handed_on, value};
use shape::leaves_of;
use state::tag::Tag;
use state::{ENV_WORDS, STATE_SIZE, put_tag, put_touches, put_value, read, read_touches};
use tophat::{Action, MAX_LEAVES};
use typing::{Binders, row_type};
use value::{Value, fits};

// An event: a role (CR 6), a path as one number (crate decimal), an action, and leaves: a number's bits, or blank (CR 2).
#[derive(Clone, Copy)]
pub struct Event {
    pub role: u32,
    pub path: u32,
    pub action: Action,
    pub leaves: [Option<u32>; MAX_LEAVES],
}

// Whether the event is this action at the path's end.
fn ends(e: Event, action: Action) -> bool
    ensures { Ends e action result }
{
    e.path == 0 && e.action == action
}

// Whether none of the first n leaves is blank.
fn none_blank(leaves: &[Option<u32>; MAX_LEAVES], n: usize) -> bool
    requires { n ≤ max_leaves }
    ensures { result ≡ list_all (λ l. is_some l) (take n leaves.now) }
{
    leaves[..n].iter().all(|l| l.is_some())
}

// Their bits, a blank's 0.
fn bits(leaves: [Option<u32>; MAX_LEAVES]) -> [u32; MAX_LEAVES]
    ensures { result ≡ map bits_of leaves }
{
    leaves.map(|l| l.unwrap_or(0))
}

// The value that an event gives an editor of the shape, laid at the row. A blank where the type has a leaf gives none.
fn fill(state: &mut [u32; STATE_SIZE], row: usize, tag: Tag, shape: u32, e: Event) -> bool
    requires { row < max_rows }
    ensures { FillOk state.old state.new row (tag_word tag) shape e result }
{
    if !ends(e, Action::Value) {
        return false;
    }
    if !none_blank(&e.leaves, leaves_of(shape)) {
        return false;
    }
    let v = Value {
        shape: shape,
        leaves: bits(e.leaves),
    };
    if fits(v, shape) {
        put_value(state, row, tag, v);
        return true;
    }
    false
}

// An editor: its content's type is that of its row's value, of its type row, or of its cell.
fn edit(rows: &[u32; ROWS_WORDS], state: &mut [u32; STATE_SIZE], row: usize, e: Event) -> bool
    requires { Fine rows.now row 0 × FromKind rows.now row (task_k edit_k) × UpToKind rows.now row (task_k update_k) }
    ensures { (env : List ℕ) (d : ℕ) → HandleOk rows.now state.old state.new row env d e.role (event_path e) (event_action e) (answer_of result) }
{
    let kind = get(rows, row, 0);
    let a = operand(rows, row, 1);
    match kind {
        40 => {
            let shape = read(state, row, 1);
            return fill(state, row, Tag::Own, shape, e);
        }
        41 => match row_type(rows, a, &Binders::new()) {
            Some(shape) => fill(state, row, Tag::One, shape, e),
            None => false,
        },
        _ => {
            let shape = read(state, a, 1);
            return fill(state, a, Tag::Own, shape, e);
        }
    }
}

// The value of the task at the row, if the event is Continue at the path's end.
fn going_on(
    rows: &[u32; ROWS_WORDS],
    state: &[u32; STATE_SIZE],
    row: usize,
    e: Event,
) -> Option<Value>
    requires { Fine rows.now row 0 }
    ensures { GoingOk rows.now state.now row e result }
{
    if !ends(e, Action::Continue) {
        return None;
    }
    value(rows, state, row)
}

// The side at row a of the choice at the row, settled in a copy of the state: unless it fails there, it is picked.
fn side(
    rows: &[u32; ROWS_WORDS],
    state: &mut [u32; STATE_SIZE],
    row: usize,
    a: usize,
    tag: Tag,
    env: &[u32; ENV_WORDS],
    depth: usize,
) -> bool
    requires { (row < max_rows) × Fine rows.now a depth }
    ensures { PickOk rows.now state.old state.new row a (tag_word tag) env.now depth result }
{
    let mut work = *state;
    if settle(rows, &mut work, a, env, depth) {
        return false;
    }
    put_tag(&mut work, row, tag);
    *state = work;
    true
}

// A choice of kind 48 not yet made.
fn pick(
    rows: &[u32; ROWS_WORDS],
    state: &mut [u32; STATE_SIZE],
    row: usize,
    env: &[u32; ENV_WORDS],
    depth: usize,
    e: Event,
) -> bool
    requires { Fine rows.now row depth × OfKind rows.now row (task_k xor_k) × Unhanded rows.now state.old row }
    ensures { HandleOk rows.now state.old state.new row env.now depth e.role (event_path e) (event_action e) (answer_of result) }
{
    if ends(e, Action::Left) {
        return side(
            rows,
            state,
            row,
            operand(rows, row, 1),
            Tag::One,
            env,
            depth,
        );
    }
    if ends(e, Action::Right) {
        return side(
            rows,
            state,
            row,
            operand(rows, row, 2),
            Tag::Other,
            env,
            depth,
        );
    }
    false
}

// The event past a mark.
fn inside(e: Event, path: u32) -> Event
    ensures { result ≡ passed e path }
{
    Event { path, ..e }
}

// An answer that passes no row of kind 50.
fn answer(taken: bool) -> Result<(), Ground>
    ensures { answer_number result ≡ answer_of taken }
{
    if taken {
        return Ok(());
    }
    Err(Ground::NotHandled)
}

// What a row of kind 50, of a role and with so many touches left, makes of its part's verdict. CR 6: 30 before 31.
fn gate_verdict(
    role: u32,
    own: u32,
    touches: u32,
    verdict: Result<(), Ground>,
) -> Result<(), Ground>
    ensures { answer_number result ≡ gate_verdict role own touches (answer_number verdict) }
{
    if role != own {
        return Err(Ground::OtherRole);
    }
    if verdict == Err(Ground::OtherRole) {
        return verdict;
    }
    if touches == 0 {
        return Err(Ground::NoTouch);
    }
    verdict
}

// What a row that hands on makes of its part's answer: where the part took the event, a row of kind 50 says its own verdict and uses a touch.
fn pass(
    rows: &[u32; ROWS_WORDS],
    state: &mut [u32; STATE_SIZE],
    row: usize,
    role: u32,
    answer: Result<(), Ground>,
) -> Result<(), Ground>
    requires { row < max_rows }
    ensures { PassOk rows.now state.old state.new row role (answer_number answer) (answer_number result) }
{
    if get(rows, row, 0) != Kind::Gate as u32 {
        return answer;
    }
    if answer == Err(Ground::NotHandled) {
        return answer;
    }
    let touches = read_touches(state, row);
    put_touches(state, row, touches.saturating_sub(1));
    gate_verdict(role, get(rows, row, 1), touches, answer)
}

// What the task at the row answers to the event: 9, or what the rows of kind 50 passed say.
pub fn handle(
    rows: &[u32; ROWS_WORDS],
    state: &mut [u32; STATE_SIZE],
    row: usize,
    env: &[u32; ENV_WORDS],
    depth: usize,
    e: Event,
) -> Result<(), Ground>
    requires { Fine rows.now row depth }
    ensures { HandleOk rows.now state.old state.new row env.now depth e.role (event_path e) (event_action e) (answer_number result) }
{
    let part = handed_on(rows, state, row);
    if part != 0 {
        let mut inner = *env;
        let under = enclose(rows, state, row, &mut inner, depth);
        let told = handle(rows, state, operand(rows, row, part), &inner, under, e);
        return pass(rows, state, row, e.role, told);
    }
    let kind = get(rows, row, 0);
    let a = operand(rows, row, 1);
    match kind {
        40..=42 => answer(edit(rows, state, row, e)),
        43 => handle(rows, state, a, env, depth, e),
        44 => {
            if let Some(v) = going_on(rows, state, a, e) {
                return answer(attempt(rows, state, row, env, depth, v));
            }
            handle(rows, state, a, env, depth, e)
        }
        46..=47 => {
            let b = operand(rows, row, 2);
            let front = front_mark(e.path);
            match front {
                Front::Empty => Err(Ground::NotHandled),
                Front::First(rest) => handle(rows, state, a, env, depth, inside(e, rest)),
                Front::Second(rest) => handle(rows, state, b, env, depth, inside(e, rest)),
            }
        }
        48 => answer(pick(rows, state, row, env, depth, e)),
        _ => Err(Ground::NotHandled),
    }
}
