// An event's bytes, read (01, "Touches and what is shown"; CR 6; ground 8).
ghost use Rattle.std.specs.Prelude.{◌≡◌, ◌==◌, unwrap_or};
ghost use Rattle.std.specs.List.{list_all};
ghost use Rattle.tophat.specs.Actions.{act_of};
ghost use Rattle.formats.specs.Touches.{allowed, event_of};
ghost use Rattle.handle.specs.Events.{leaves_by};
ghost use Rattle.flow.specs.Reads.{event_said, fields_say};

use decimal::field::{ACTION_COLUMNS, NEWLINE, Reading, WORD_COLUMNS};
use decimal::{field, path};
use formats::{
    EVENT_ACTION_AT, EVENT_BYTES, EVENT_LEAVES_AT, EVENT_PATH_AT, read_leaves, read_role,
};
use handle::Event;
use tophat::{Action, MAX_LEAVES};

// Whether every leaf is 0 or blank.
fn all_zero(leaves: &[Option<u32>; MAX_LEAVES]) -> bool
    ensures { result ≡ list_all (λ l. unwrap_or l 0 == 0) leaves.now }
{
    leaves.iter().all(|l| l.unwrap_or(0) == 0)
}

// Whether the action can have these leaves: but for a value every one is 0 or blank.
fn allowed(action: Action, leaves: &[Option<u32>; MAX_LEAVES]) -> bool
    ensures { result ≡ allowed (act_of action) (leaves_by leaves.now) }
{
    match action {
        Action::Value => true,
        Action::Continue | Action::Left | Action::Right => all_zero(leaves),
    }
}

// What the fields of an event say.
fn read_fields(s: &[u8]) -> Option<Event>
    ensures { event_said result ≡ fields_say s.now }
{
    let role = read_role(s)?;
    let path = path::read(s, EVENT_PATH_AT)?;
    let number = match field::read(s, EVENT_ACTION_AT, ACTION_COLUMNS) {
        Reading::Number(number) => number,
        Reading::Blank => return None,
        Reading::Unreadable => return None,
    };
    let leaves = read_leaves(s, EVENT_LEAVES_AT, WORD_COLUMNS)?;
    let Ok(action) = Action::try_from(number) else {
        return None;
    };
    if !allowed(action, &leaves) {
        return None;
    }
    Some(Event {
        role,
        path,
        action,
        leaves,
    })
}

// What an event's bytes say.
pub fn read_event(s: &[u8]) -> Option<Event>
    ensures { event_said result ≡ event_of s.now }
{
    if s.len() != EVENT_BYTES || s[EVENT_BYTES - 1] != NEWLINE {
        return None;
    }
    read_fields(s)
}
