// Numbers in fields, read and written (01, "The sheet"). What a field says stands in specs/Field.antt.
ghost use Rattle.std.specs.Prelude.{◌≡◌, ◌+◌, ◌-◌, ◌<◌, ◌≤◌, length};
ghost use Rattle.std.proofs.Math.Seq.{slice};
ghost use Rattle.std.proofs.lemmas.List.Edits.{sets};
ghost use Rattle.std.specs.Int.{w32};
ghost use Rattle.std.proofs.Common.{to_z};
ghost use Rattle.word.specs.Word.{words};
ghost use Rattle.decimal.specs.Field.{decimal, text, written, counted, numeral, reads_at, reading, bits_said, put_at};

use super::part::{MINUS, NINE, NOUGHT, has, past_spaces, put_spaces};

// How wide the fields of 01 are: row numbers and kinds; operands and leaves; actions and leaf kinds.
pub const ROW_COLUMNS: usize = 4;

pub const WORD_COLUMNS: usize = 12;

pub const ACTION_COLUMNS: usize = 2;

// The byte that ends a line, an event and an entry.
pub const NEWLINE: u8 = 10;

// The largest word, and the bits of the least one.
const MOST: u32 = 2147483647;

const HALF: u32 = 2147483648;

// What one field says: the bits of a number in two's complement, that it is blank, or that it is unreadable.
#[derive(Clone, Copy)]
pub enum Reading {
    Number(u32),
    Blank,
    Unreadable,
}

impl Reading {
    // The bits of the number that the field says, if it says one.
    pub fn number(self) -> Option<u32>
        ensures { result ≡ bits_said self }
    {
        match self {
            Reading::Number(bits) => Some(bits),
            Reading::Blank => None,
            Reading::Unreadable => None,
        }
    }
}

// The bits of - n, where n is not 0.
fn negated(n: u32) -> u32
    requires { 0 < n }
    ensures { result ≡ words - n }
{
    4294967295 - (n - 1)
}

// The number from 1 to `most` that the digits from `at` on say, or 0.
fn count(s: &[u8], at: usize, end: usize, most: u32) -> u32
    requires { (at ≤ end) × (end ≤ length s.now) }
    ensures { result ≡ counted most 0 (slice at end s.now) }
{
    let mut n: u32 = 0;
    let mut i = at;
    while i < end {
        let b = s[i];
        if b < NOUGHT {
            return 0;
        }
        if NINE < b {
            return 0;
        }
        let m = n as u64 * 10 + (b - NOUGHT) as u64;
        if m < 1 {
            return 0;
        }
        if (most as u64) < m {
            return 0;
        }
        n = m as u32;
        i += 1;
    }
    n
}

// What the bytes from `at` on say, where the spaces are past.
fn read_text(s: &[u8], at: usize, end: usize) -> Reading
    requires { (at ≤ end) × (end ≤ length s.now) }
    ensures { result ≡ reading (numeral (slice at end s.now)) }
{
    if at == end {
        return Reading::Blank;
    }
    if s[at] == MINUS {
        let m = count(s, at + 1, end, HALF);
        if m == 0 {
            return Reading::Unreadable; // "-0" among them
        }
        return Reading::Number(negated(m));
    }
    if s[at] == NOUGHT {
        if at + 1 == end {
            return Reading::Number(0);
        }
        return Reading::Unreadable; // a leading zero
    }
    let n = count(s, at, end, MOST);
    if n == 0 {
        return Reading::Unreadable;
    }
    Reading::Number(n)
}

// What the field of `width` columns from `at` on says.
pub fn read(s: &[u8], at: usize, width: usize) -> Reading
    ensures { result ≡ reading (reads_at s.now at width) }
{
    if !has(s.len(), at, width) {
        return Reading::Unreadable;
    }
    let end = at + width;
    let i = past_spaces(s, at, end);
    read_text(s, i, end)
}

// How many digits n has; 0 has none.
fn digits_of(n: u32) -> usize
    ensures { (result ≡ length (decimal n)) × (result ≤ n) }
{
    let mut m = n;
    let mut k: usize = 0;
    while 0 < m {
        m = m / 10;
        k += 1;
    }
    k
}

// How many columns the number of the bits n takes.
fn columns(n: u32) -> usize
    ensures { result ≡ length (text (to_z w32 n)) }
{
    if n == 0 {
        return 1;
    }
    if n < HALF {
        return digits_of(n);
    }
    digits_of(negated(n)) + 1
}

// The digits of n from `at` on, up to `end`: the last one first.
fn put_digits(s: &mut [u8], at: usize, end: usize, n: u32)
    requires { (end ≡ at + length (decimal n)) × (end ≤ length s.old) }
    ensures { s.new ≡ sets s.old at (decimal n) }
{
    let mut m = n;
    let mut i = end;
    while 0 < m {
        i -= 1;
        s[i] = NOUGHT + (m % 10) as u8;
        m = m / 10;
    }
}

// The text of the number of the bits n from `at` on, up to `end`.
fn put_text(s: &mut [u8], at: usize, end: usize, n: u32)
    requires { (end ≡ at + length (text (to_z w32 n))) × (end ≤ length s.old) }
    ensures { s.new ≡ sets s.old at (text (to_z w32 n)) }
{
    if n == 0 {
        s[at] = NOUGHT;
        return;
    }
    if n < HALF {
        put_digits(s, at, end, n);
        return;
    }
    let m = negated(n);
    s[at] = MINUS;
    put_digits(s, at + 1, end, m);
}

// Writes the number of the bits n into the field of `width` columns from `at` on. Where the slice does not have the field,
// or the number does not fit it, the answer is false and no byte changes.
pub fn write(s: &mut [u8], at: usize, width: usize, n: u32) -> bool
    ensures value { result ≡ (put_at s.old at width (written width (to_z w32 n))).0 }
    ensures s_after { s.new ≡ (put_at s.old at width (written width (to_z w32 n))).1 }
{
    if !has(s.len(), at, width) {
        return false;
    }
    let k = columns(n);
    if width < k {
        return false;
    }
    let from = at + (width - k);
    put_spaces(s, at, width - k);
    put_text(s, from, at + width, n);
    true
}
