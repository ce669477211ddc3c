// The program of 01, "A session in full": a row count, a sheet and events on standard input, a screen after start and after each
// event on standard output.
#![tactic(auto)]

use console::session;

// No input is longer than this many bytes.
const BYTES: usize = usize::MAX;

fn main(rt: HostRuntime) {
    session(&rt, &mut rt.stdin(), BYTES);
}
