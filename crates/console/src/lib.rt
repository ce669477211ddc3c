// A session over standard input and standard output (01, "A session in full"). Reads, calls crate screens, prints. The memory is
// of a fixed size, and the input of any length. Output that is lost, and input that cannot be read, are told on standard error; the
// exit status is 0 all the same.
#![tactic(auto)]

ghost use Rattle.std.specs.Prelude.{◌≡◌, ◌+◌, ◌≤◌};
ghost use Rattle.std.specs.Counts.{IsPrefixLen};
ghost use Rattle.std.specs.Io.Take.{take_limit};

use formats::{EVENT_BYTES, LINE_BYTES};
use rows::{MAX_ROWS, ROW_WORDS, ROWS_WORDS};
use screens::count;
use screens::count::COUNT_BYTES;
use screens::turn::{SCREEN_BYTES, begin, touch};
use state::{STATE_SIZE, STATE_WORDS};
use std::io;
use std::io::{Read, Take};

// Reads once. Where the input cannot be read, says so on standard error. How many bytes it put at the front of `to`.
fn read_some(rt: &impl Eprint, from: &mut Take<impl Read>, to: &mut [u8]) -> usize
    ensures front { IsPrefixLen result to.new }
    ensures left { take_limit from.new + result ≡ take_limit from.old }
{
    match from.read(to) {
        Ok(got) => got,
        Err(_) => {
            let _ = eprintln!(rt; "nannyjiffy: input lost");
            0
        }
    }
}

// Reads until `to` is full, or the input ends or cannot be read. How many bytes it put at the front of `to`.
fn read_full(rt: &impl Eprint, from: &mut Take<impl Read>, to: &mut [u8]) -> usize
    ensures front { IsPrefixLen result to.new }
    ensures left { take_limit from.new + result ≡ take_limit from.old }
{
    let mut done = 0;
    while done < to.len() {
        let more = read_some(rt, from, &mut to[done..]);
        if more == 0 {
            return done;
        }
        done += more;
    }
    done
}

// Reads until `to` is full, `left` bytes are read, or the input ends or cannot be read. How many bytes it put at the front of `to`.
pub fn read(rt: &impl Eprint, from: &mut impl Read, to: &mut [u8], left: usize) -> usize
    ensures { (result ≤ left) × IsPrefixLen result to.new }
{
    read_full(rt, &mut from.take(left as u64), to)
}

// Prints bytes. Where the output takes no more, says so on standard error.
fn print(rt: &(impl Print + Eprint), bytes: &[u8]) -> io::Result<()> {
    rt.write_all(bytes).inspect_err(|_| {
        let _ = eprintln!(rt; "nannyjiffy: output lost");
    })
}

// Hands events to a flow and prints their screens, until the input ends or the output is lost.
fn events(
    rt: &(impl Print + Eprint),
    from: &mut Take<impl Read>,
    rows: &[i32],
    state: &mut [i32],
) -> io::Result<()>
    ensures { take_limit from.new ≤ take_limit from.old }
{
    let mut event = [0u8; EVENT_BYTES];
    let mut out = [0u8; SCREEN_BYTES];
    loop {
        let got = read_full(rt, from, &mut event);
        if got == 0 {
            return Ok(());
        }
        let bytes = touch(rows, state, &event[..got], &mut out);
        print(rt, &out[..bytes])?;
    }
}

// A sheet of n lines and its events, in memory for n rows, until the input ends or the output is lost.
fn run(
    rt: &(impl Print + Eprint),
    from: &mut Take<impl Read>,
    n: usize,
    sheet: &mut [u8],
    rows: &mut [i32],
    state: &mut [i32],
) -> io::Result<()>
    ensures { take_limit from.new ≤ take_limit from.old }
{
    let got = read_full(rt, from, sheet);
    let mut out = [0u8; SCREEN_BYTES];
    let begun = begin(n, &sheet[..got], rows, state, &mut out);
    print(rt, &out[..begun.bytes])?;
    if !begun.started {
        return Ok(());
    }
    events(rt, from, rows, state)
}

// A session of at most `left` bytes. How many of them are left.
pub fn session(rt: &(impl Print + Eprint), from: &mut impl Read, left: usize) -> usize
    ensures { result ≤ left }
{
    let mut from = from.take(left as u64);
    let mut text = [0u8; COUNT_BYTES];
    let got = read_full(rt, &mut from, &mut text);
    let n = count::read(&text[..got]);
    let mut sheet = [0u8; MAX_ROWS * LINE_BYTES];
    let mut rows = [0i32; ROWS_WORDS];
    let mut state = [0i32; STATE_SIZE];
    // Output that is lost is told, and ends the session.
    let _ = run(
        rt,
        &mut from,
        n,
        &mut sheet[..n * LINE_BYTES],
        &mut rows[..n * ROW_WORDS],
        &mut state[..n * STATE_WORDS],
    );
    from.limit() as usize
}

// Reads `left` bytes, fewer only where the input ends, and drops them.
pub fn skip(rt: &impl Eprint, from: &mut impl Read, left: usize) {
    let mut from = from.take(left as u64);
    let mut dropped = [0u8; 4096];
    while read_full(rt, &mut from, &mut dropped) != 0 {}
}
