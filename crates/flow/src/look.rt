// The call look (01, "Four calls"): what a rest shows, in lent memory. Rests on `open`, and on crates running, normalising and entries.
ghost use Rattle.std.specs.Prelude.{◌≡◌, ◌-◌, ◌≤◌, length};
ghost use Rattle.std.specs.Int.{w32};
ghost use Rattle.std.proofs.Common.{to_z};
ghost use Rattle.word.specs.Laid.{laid};
ghost use Rattle.tophat.specs.Syntax.{max_leaves};
ghost use Rattle.state.specs.Ensured.{Fine};
ghost use Rattle.call_definitions.specs.Calls.{look_call};
ghost use Rattle.flow.specs.Looks.{Filled, FailsOk, RoomOk, ShowOk, ShowFailedOk, LookOk};

use super::answer;
use super::open::{Rest, open};
use entries::entries;
use formats::ENTRY_BYTES;
use normalising::failing;
use rows::ground::Ground;
use rows::{ROWS_WORDS, is_role};
use state::{ENV_WORDS, STATE_SIZE};
use tophat::MAX_LEAVES;
use value::{NO_VALUE, Value};
use word::copy_out;

// What a rest shows: whether it has a value, whether it fails, and how many bytes the part has. By default nothing, as where it is refused.
#[derive(Clone, Copy, Default)]
pub struct Looked {
    pub valued: bool,
    pub fails: bool,
    pub bytes: usize,
}

// The leaves' numbers, over the front of the lent words.
fn value_out(v: Value, lent: &mut [i32])
    ensures lent_after { lent.new ≡ laid (to_z w32) v.leaves lent.old }
    ensures leaves_len { length v.leaves ≡ max_leaves }
{
    let leaves = v.leaves;
    copy_out(&leaves, lent);
}

// Whether the rest at the row, which shows so many bytes, fails. A task that fails shows none.
fn fails(own: &[u32; ROWS_WORDS], words: &[u32; STATE_SIZE], row: usize, bytes: usize) -> bool
    requires { Fine own.now row 0 }
    ensures { FailsOk own.now words.now row bytes result }
{
    if bytes != 0 {
        return false;
    }
    let none = [0u32; ENV_WORDS];
    failing(own, words, row, &none, 0)
}

// Whether so many bytes are room for what the rest shows the role. An entry a row is enough; else the entries are counted, lent no list.
fn has_room(
    own: &[u32; ROWS_WORDS],
    words: &[u32; STATE_SIZE],
    n: usize,
    role: u32,
    room: usize,
) -> bool
    requires { (1 ≤ n) × Fine own.now (n - 1) 0 }
    ensures { RoomOk own.now words.now n role room result }
{
    if n * ENTRY_BYTES <= room {
        return true;
    }
    let none = [0u32; ENV_WORDS];
    let mut nothing = [0u8; 0];
    entries(own, words, n - 1, &none, 0, role, 0, 1, &mut nothing) <= room
}

// What the rest shows to the role, where the list has room for it: the entries are written into the list itself.
fn show(
    own: &[u32; ROWS_WORDS],
    words: &[u32; STATE_SIZE],
    n: usize,
    role: u32,
    value: &mut [i32],
    list: &mut [u8],
) -> Result<Looked, Ground>
    requires { (1 ≤ n) × Fine own.now (n - 1) 0 }
    ensures { ShowOk own.now words.now n role value.old list.old result value.new list.new }
{
    if !has_room(own, words, n, role, list.len()) {
        return Err(Ground::ListTooShort);
    }
    let none = [0u32; ENV_WORDS];
    let bytes = entries(own, words, n - 1, &none, 0, role, 0, 1, list);
    let found = running::value(own, words, n - 1);
    let failed = fails(own, words, n - 1, bytes);
    let valued = found.is_some();
    value_out(found.unwrap_or(NO_VALUE), value);
    Ok(Looked {
        valued: valued,
        fails: failed,
        bytes: bytes,
    })
}

// What a last row that failed as a whole shows: no value, failing, and no entry (CR 3).
fn show_failed(value: &mut [i32]) -> Looked
    ensures { ShowFailedOk value.old result value.new }
{
    value_out(NO_VALUE, value);
    Looked {
        valued: false,
        fails: true,
        bytes: 0,
    }
}

// Looks in a role, and states all of the list at exit. A role outside 1 to 8 is 8 (CR 6).
pub fn fill(
    rows: &[i32],
    state: &[i32],
    role: u32,
    value: &mut [i32],
    list: &mut [u8],
) -> Result<Looked, Ground>
    ensures { Filled (look_call rows.now state.now role value.old list.old) result value.new list.new }
{
    let mut own = [0u32; ROWS_WORDS];
    let mut words = [0u32; STATE_SIZE];
    let fits = value.len() == MAX_LEAVES;
    let rest = open(rows, state, fits, &mut own, &mut words)?;
    if !is_role(role) {
        return Err(Ground::EventNotRead);
    }
    match rest {
        Rest::Task(n) => show(&own, &words, n, role, value, list),
        Rest::Failed => Ok(show_failed(value)),
    }
}

// Looks in a role, and hands back the part of the list that was written. The part is a new borrow, and the list's own is spent with it: no
// clause can speak of the bytes behind the part, nor of the list on a refusal. `fill` states the whole list.
pub fn look<'a>(
    rows: &[i32],
    state: &[i32],
    role: u32,
    value: &mut [i32],
    number: &mut u32,
    valued: &mut u32,
    fails: &mut u32,
    list: &'a mut [u8],
) -> &'a mut [u8]
    ensures { LookOk (look_call rows.now state.now role value.old list.old) result.now number.new valued.new fails.new value.new }
{
    let seen = fill(rows, state, role, value, list);
    *number = answer::number(&seen);
    let shown = seen.unwrap_or_default();
    *valued = u32::from(shown.valued);
    *fails = u32::from(shown.fails);
    &mut list[..shown.bytes]
}
