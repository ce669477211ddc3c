// What all fields share: whether a slice has one, and the spaces in front of its text. Rests on specs/Field.antt.
ghost use Rattle.std.specs.Prelude.{◌≡◌, ◌+◌, ◌≤◌, leb, length, replicate};
ghost use Rattle.std.proofs.Math.Seq.{slice};
ghost use Rattle.std.proofs.lemmas.List.Edits.{sets};
ghost use Rattle.decimal.specs.Field.{space, trimmed};

// The bytes that fields are written with; the digit d is NOUGHT + d.
pub const SPACE: u8 = 32;

pub const MINUS: u8 = 45;

pub const NOUGHT: u8 = 48;

pub const NINE: u8 = 57;

// Whether `len` bytes have the field of `width` columns from `at` on.
pub fn has(len: usize, at: usize, width: usize) -> bool
    ensures { result ≡ leb (at + width) len }
{
    if len < at {
        return false;
    }
    width <= len - at
}

// Where the spaces from `at` on end.
pub fn past_spaces(s: &[u8], at: usize, end: usize) -> usize
    requires { (at ≤ end) × (end ≤ length s.now) }
    ensures { (at ≤ result) × (result ≤ end) × (trimmed (slice at end s.now) ≡ slice result end s.now) }
{
    let mut i = at;
    while i < end {
        if s[i] != SPACE {
            return i;
        }
        i += 1;
    }
    i
}

// n spaces from `at` on.
pub fn put_spaces(s: &mut [u8], at: usize, n: usize)
    requires { at + n ≤ length s.old }
    ensures { s.new ≡ sets s.old at (replicate n space) }
{
    let mut i: usize = 0;
    while i < n {
        s[at + i] = SPACE;
        i += 1;
    }
}
