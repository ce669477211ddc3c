// The screens of a sheet and of an event (01, "A session in full"). Rests on the calls of crates sheet and flow.
ghost use Rattle.std.specs.Prelude.{◌≡◌, false, ◌<◌, length};
ghost use Rattle.rows.specs.GroundNumbers.{answer_number};
ghost use Rattle.flow.specs.Starts.{strides_of};
ghost use Rattle.screens.specs.Heads.{four_digits};
ghost use Rattle.screens.specs.Screens.{screen_bytes, Drawn, Beginning, refused_screen, role_of, loaded_counted, shown_after, begins, touched};

use super::head;
use super::head::Head;
use entries::LIST_BYTES;
use flow::answer::number;
use flow::look::fill;
use flow::start::start;
use flow::touch::handle;
use formats::{ENTRY_BYTES, EVENT_BYTES, HEAD_BYTES, LINE_BYTES, read_role};
use rows::ground::Ground;
use sheet::load;
use tophat::MAX_LEAVES;
use word::copy_in;

// A head line, and as many entries as a task can show.
pub const SCREEN_BYTES: usize = HEAD_BYTES + LIST_BYTES;

// The role that is looked in at the start, and after an event that is short or has no role (CR 6).
const START_ROLE: u32 = 1;

// Whether the flow was started, and how many bytes its first screen is.
#[derive(Clone, Copy)]
pub struct Begun {
    pub started: bool,
    pub bytes: usize,
}

// The role that is looked in after an event.
fn role_of(event: &[u8]) -> u32
    ensures { result ≡ role_of event.now }
{
    if event.len() != EVENT_BYTES {
        return START_ROLE;
    }
    read_role(event).unwrap_or(START_ROLE)
}

// The screen after an answer, in a role: its head line, and the entries after it.
fn show(
    rows: &[i32],
    state: &[i32],
    role: u32,
    answer: Result<u32, Ground>,
    out: &mut [u8],
) -> usize
    requires { (length out.old ≡ screen_bytes) × (answer_number answer < four_digits) × (strides_of answer < four_digits) }
    ensures { Drawn (shown_after rows.now state.now role (answer_number answer) (strides_of answer) out.old) result out.new }
{
    let mut value = [0i32; MAX_LEAVES];
    let seen = fill(rows, state, role, &mut value, &mut out[HEAD_BYTES..]);
    let mut leaves = [0u32; MAX_LEAVES];
    copy_in(&value, &mut leaves);
    let shown = seen.unwrap_or_default();
    let bytes = shown.bytes;
    let h = Head {
        answer: number(&answer),
        strides: answer.unwrap_or(0),
        fails: u32::from(shown.fails),
        valued: u32::from(shown.valued),
        leaves: leaves,
        entries: (bytes / ENTRY_BYTES) as u32,
    };
    head::write(out, h);
    HEAD_BYTES + bytes
}

// The one line of a sheet that is refused.
fn refuse(number: u32, out: &mut [u8; SCREEN_BYTES]) -> Begun
    requires { number < four_digits }
    ensures { (result.started ≡ false) × Drawn (refused_screen number out.old) result.bytes out.new }
{
    let h = Head {
        answer: number,
        strides: 0,
        fails: 0,
        valued: 0,
        leaves: [0u32; MAX_LEAVES],
        entries: 0,
    };
    head::write(out, h);
    Begun {
        started: false,
        bytes: HEAD_BYTES,
    }
}

// Loads a sheet of n counted lines; a count that is not met is ground 1.
fn load_counted(n: usize, text: &[u8], rows: &mut [i32]) -> Result<(), Ground>
    ensures value { answer_number result ≡ (loaded_counted n text.now rows.old).0 }
    ensures rows_after { rows.new ≡ (loaded_counted n text.now rows.old).1 }
{
    if text.len() % LINE_BYTES != 0 {
        return Err(Ground::NotSized);
    }
    if text.len() / LINE_BYTES != n {
        return Err(Ground::NotSized);
    }
    load(text, rows)
}

// Loads a sheet of n counted lines, starts it, and puts the first screen over the front of `out`.
pub fn begin(
    n: usize,
    text: &[u8],
    rows: &mut [i32],
    state: &mut [i32],
    out: &mut [u8; SCREEN_BYTES],
) -> Begun
    ensures { Beginning (begins n text.now rows.old state.old out.old) result rows.new state.new out.new }
{
    if let Err(ground) = load_counted(n, text, rows) {
        return refuse(ground.into(), out);
    }
    match start(rows, state) {
        Ok(strides) => {
            let bytes = show(rows, state, START_ROLE, Ok(strides), out);
            Begun {
                started: true,
                bytes: bytes,
            }
        }
        Err(ground) => refuse(u32::from(ground), out),
    }
}

// Hands an event to the flow and puts the next screen, in the event's role, over the front of `out`; how many bytes it is.
pub fn touch(rows: &[i32], state: &mut [i32], event: &[u8], out: &mut [u8; SCREEN_BYTES]) -> usize
    ensures state_after { state.new ≡ (touched rows.now state.old event.now out.old).0 }
    ensures drawn { Drawn (touched rows.now state.old event.now out.old).1 result out.new }
{
    let answer = handle(rows, state, event);
    let role = role_of(event);
    show(rows, state, role, answer, out)
}
