// The call handle (01, "Four calls"): an event's bytes read, and taken by the flow.
ghost use Rattle.call_definitions.specs.Calls.{handle_call};
ghost use Rattle.call_definitions.specs.Touches.{Bounded};
ghost use Rattle.flow.specs.Starts.{strides_of, Answered};

use super::event::read_event;
use super::take::take;
use rows::ground::Ground;

// Handles an event: the strides, and the state at exit.
pub fn handle(rows: &[i32], state: &mut [i32], event: &[u8]) -> Result<u32, Ground>
    ensures answered { Answered (handle_call rows.now state.old event.now) result state.new }
    ensures bounded { Bounded rows.now (strides_of result) }
{
    let e = read_event(event);
    take(rows, state, e)
}
