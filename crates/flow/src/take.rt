// An event that is read, taken by a flow in lent memory (01, "Four calls": handle after its event's bytes are read).
ghost use Rattle.flow.specs.Takes.{TakeOk};

use super::open::{Rest, open};
use handle::{Event, handle};
use normalising::normalise;
use rows::ROWS_WORDS;
use rows::ground::Ground;
use state::lent::state_out;
use state::{ENV_WORDS, STATE_SIZE};

// The flow's answer to an event, and the state at exit. A last row that failed as a whole answers 9, as 45 does (CR 3).
pub fn take(rows: &[i32], state: &mut [i32], e: Option<Event>) -> Result<u32, Ground>
    ensures { TakeOk rows.now state.old e result state.new }
{
    let mut own = [0u32; ROWS_WORDS];
    let mut words = [0u32; STATE_SIZE];
    let rest = open(rows, state, true, &mut own, &mut words)?;
    let Some(e) = e else {
        return Err(Ground::EventNotRead);
    };
    let Rest::Task(n) = rest else {
        return Err(Ground::NotHandled);
    };
    let none = [0u32; ENV_WORDS];
    let last = n - 1;
    handle(&own, &mut words, last, &none, 0, e)?;
    let strides = normalise(&own, &mut words, last, &none, 0);
    state_out(&words, n, state);
    Ok(strides)
}
