// Replays a stream of sessions: each a length in 8 columns, byte 10, and that many bytes, which are one session's input. The
// screens of each session are printed, and after them a line of four minus signs.
#![tactic(auto)]

use console::{read, session, skip};
use decimal::field;
use decimal::field::Reading;
use std::io::Read;

const LENGTH_COLUMNS: usize = 8;

// A length with its byte 10.
const LENGTH_BYTES: usize = LENGTH_COLUMNS + 1;

// No stream has more sessions.
const SESSIONS: usize = usize::MAX;

// Replays the next session, if its length can be read and the output is not lost.
fn replayed(rt: &(impl Print + Eprint), from: &mut impl Read) -> Option<()> {
    let mut text = [0u8; LENGTH_BYTES];
    read(rt, from, &mut text, LENGTH_BYTES);
    let n = match field::read(&text, 0, LENGTH_COLUMNS) {
        Reading::Number(n) => n,
        Reading::Blank => return None,
        Reading::Unreadable => return None,
    };
    let rest = session(rt, from, n as usize);
    skip(rt, from, rest);
    rt.write_all(b"----\n").ok()
}

fn main(rt: HostRuntime) {
    let mut from = rt.stdin();
    for _ in 0..SESSIONS {
        if replayed(&rt, &mut from).is_none() {
            return;
        }
    }
}
