// Paths in fields, read and written, and taken apart (01, "Touches and what is shown"). A path is one number:
// bijective base 2, the outermost mark least (specs/Path.antt).
ghost use Rattle.std.specs.Prelude.{◌≡◌, ◌+◌, ◌≤◌, length};
ghost use Rattle.std.proofs.Math.Seq.{slice};
ghost use Rattle.std.proofs.lemmas.List.Edits.{sets};
ghost use Rattle.decimal.specs.Field.{put_at};
ghost use Rattle.decimal.specs.Path.{path_columns, marks, path_in, marks_text, path_text, path_of, written_path, reads_path_at, path_reading, front};

use super::part::{NOUGHT, has, past_spaces, put_spaces};

// How wide a path is written.
pub const PATH_COLUMNS: usize = 16;

// A path's outermost mark and the path after it.
#[derive(Clone, Copy)]
pub enum Front {
    Empty,
    First(u32),
    Second(u32),
}

// Takes the outermost mark off.
pub fn front_mark(path: u32) -> Front
    ensures { result ≡ front (path_of path) }
{
    if path == 0 {
        return Front::Empty;
    }
    if path % 2 == 1 {
        return Front::First((path - 1) / 2);
    }
    Front::Second((path - 1) / 2)
}

// The marks whose digits stand from `at` on, the innermost read first.
fn read_marks(s: &[u8], at: usize, end: usize) -> Option<u32>
    requires { (at ≤ end) × (end ≤ length s.now) × (end ≤ at + path_columns) }
    ensures { result ≡ path_reading (marks (slice at end s.now)) }
{
    let mut path: u32 = 0;
    let mut i = end;
    while at < i {
        let b = s[i - 1];
        if b < NOUGHT + 1 {
            return None;
        }
        if NOUGHT + 2 < b {
            return None;
        }
        path = path * 2 + (b - NOUGHT) as u32;
        i -= 1;
    }
    Some(path)
}

// What the bytes from `at` on say, where the spaces are past.
fn read_text(s: &[u8], at: usize, end: usize) -> Option<u32>
    requires { (at ≤ end) × (end ≤ length s.now) × (end ≤ at + path_columns) }
    ensures { result ≡ path_reading (path_in (slice at end s.now)) }
{
    if at == end {
        return Some(0); // a blank field is the empty path
    }
    if s[at] == NOUGHT {
        if at + 1 == end {
            return Some(0);
        }
        return None; // "00", "01", "02"
    }
    read_marks(s, at, end)
}

// The number of the path that the field from `at` on says, if it says one.
pub fn read(s: &[u8], at: usize) -> Option<u32>
    ensures { result ≡ path_reading (reads_path_at s.now at) }
{
    if !has(s.len(), at, PATH_COLUMNS) {
        return None;
    }
    let end = at + PATH_COLUMNS;
    let i = past_spaces(s, at, end);
    read_text(s, i, end)
}

// How many marks a path has.
pub fn marks_of(path: u32) -> usize
    ensures { result ≡ length (path_of path) }
{
    let mut p = path;
    let mut k: usize = 0;
    while 0 < p {
        p = (p - 1) / 2;
        k += 1;
    }
    k
}

// How many columns a path takes.
fn columns(path: u32) -> usize
    ensures { result ≡ length (path_text (path_of path)) }
{
    if path == 0 {
        return 1;
    }
    marks_of(path)
}

// The digits of a path's marks from `at` on.
fn put_marks(s: &mut [u8], at: usize, path: u32)
    requires { at + length (path_of path) ≤ length s.old }
    ensures { s.new ≡ sets s.old at (marks_text (path_of path)) }
{
    let mut p = path;
    let mut i = at;
    while 0 < p {
        s[i] = NOUGHT + 2 - (p % 2) as u8;
        p = (p - 1) / 2;
        i += 1;
    }
}

// The text of a path from `at` on.
fn put_text(s: &mut [u8], at: usize, path: u32)
    requires { at + length (path_text (path_of path)) ≤ length s.old }
    ensures { s.new ≡ sets s.old at (path_text (path_of path)) }
{
    if path == 0 {
        s[at] = NOUGHT;
        return;
    }
    put_marks(s, at, path);
}

// Writes a path into its field from `at` on. Where the slice does not have the field, or the path has too many marks, the
// answer is false and no byte changes.
pub fn write(s: &mut [u8], at: usize, path: u32) -> bool
    ensures value { result ≡ (put_at s.old at path_columns (written_path (path_of path))).0 }
    ensures s_after { s.new ≡ (put_at s.old at path_columns (written_path (path_of path))).1 }
{
    if !has(s.len(), at, PATH_COLUMNS) {
        return false;
    }
    let k = columns(path);
    if PATH_COLUMNS < k {
        return false;
    }
    let from = at + (PATH_COLUMNS - k);
    put_spaces(s, at, PATH_COLUMNS - k);
    put_text(s, from, path);
    true
}
