// Types as numbers: pair, components, leaves and leaf kinds of a shape.
#![tactic(auto)]

ghost use Rattle.std.specs.Prelude.{◌≡◌, ◌+◌, ◌*◌, ◌/◌, ◌^◌, ◌<◌, ◌≤◌, length};
ghost use Rattle.tophat.specs.Syntax.{max_leaves};
ghost use Rattle.shape.specs.Shape.{base, shape_or_none, pair_shape, first_shape, second_shape, shape_leaves, kinds_of};
ghost use Rattle.shape.specs.Digits.{max_digits, count, width, leaf_digits, stored_from};

use match_laws;
use tophat::MAX_LEAVES;

// the shapes of one leaf are its kind
pub use tophat::{NUMBER, TRUTH, UNIT};

// a type's number has a digit for each of its nodes: a leaf's kind, or 0 for a pair
const BASE: u32 = 4;

const MAX_DIGITS: usize = 2 * MAX_LEAVES - 1;

// the leaves of the first k types of c, if they end within d digits; over MAX_LEAVES if not
fn count_leaves(c: u32, k: usize, d: usize) -> usize
    requires { k + d ≤ 2 * max_leaves }
    ensures { (result ≡ count d k c) × (result ≤ max_leaves + 1 + d) }
{
    if k == 0 {
        return 0;
    }
    if d == 0 {
        return MAX_LEAVES + 1;
    }
    if c % BASE == 0 {
        return count_leaves(c / BASE, k + 1, d - 1);
    }
    1 + count_leaves(c / BASE, k - 1, d - 1)
}

// BASE to the number of digits of a type of n leaves
fn width_of(n: usize) -> u32
    requires { n ≤ max_leaves }
    ensures { (result ≡ width n) × (base ≤ result) }
{
    BASE.pow(2 * n.max(1) as u32 - 1)
}

// the leaves of a shape, 0 of any other number
pub fn leaves_of(shape: u32) -> usize
    ensures { (result ≡ shape_leaves shape) × (result ≤ max_leaves) }
{
    let n = count_leaves(shape, 1, MAX_DIGITS);
    if MAX_LEAVES < n {
        return 0;
    }
    if shape < width_of(n) {
        return n;
    }
    0
}

fn joined(a: u32, w: u32, b: u32) -> u32
    requires { (a + w * b) * base < 2 ^ 32 }
    ensures { result ≡ (a + w * b) * base }
{
    (a + w * b) * BASE
}

// the shape of the pair of two types; none past MAX_LEAVES, or where a or b is no shape
pub fn pair_shape(a: u32, b: u32) -> Option<u32>
    ensures { result ≡ shape_or_none (pair_shape a b) }
{
    let m = leaves_of(a);
    let n = leaves_of(b);
    if m == 0 || n == 0 {
        return None;
    }
    if MAX_LEAVES < m + n {
        return None;
    }
    Some(joined(a, width_of(m), b))
}

// the width of the first component of a pair
fn first_width(c: u32) -> u32
    requires { 2 ≤ shape_leaves c }
    ensures { (result ≡ width (count max_digits 1 (c / base))) × (base ≤ result) }
{
    width_of(count_leaves(c / BASE, 1, MAX_DIGITS))
}

// the shape of a pair's first component, none of any other number
pub fn first_shape(shape: u32) -> Option<u32>
    ensures { result ≡ shape_or_none (first_shape shape) }
{
    if leaves_of(shape) < 2 {
        return None;
    }
    let w = first_width(shape);
    Some(shape / BASE % w)
}

// the shape of a pair's second component, none of any other number
pub fn second_shape(shape: u32) -> Option<u32>
    ensures { result ≡ shape_or_none (second_shape shape) }
{
    if leaves_of(shape) < 2 {
        return None;
    }
    let w = first_width(shape);
    Some(shape / BASE / w)
}

// the digits of c that are leaves, of the first d, stored from place i on
fn store_leaves(kinds: &mut [u32; MAX_LEAVES], i: usize, c: u32, d: usize)
    requires { i + length (leaf_digits d c) ≤ max_leaves }
    ensures { kinds.new ≡ stored_from kinds.old i (leaf_digits d c) }
{
    if d == 0 {
        return;
    }
    if c % BASE == 0 {
        store_leaves(kinds, i, c / BASE, d - 1);
    } else {
        kinds[i] = c % BASE;
        store_leaves(kinds, i + 1, c / BASE, d - 1);
    }
}

// the leaf kinds of a shape, in order, then 0; all 0 of any other number
pub fn leaf_kinds(shape: u32) -> [u32; MAX_LEAVES]
    ensures { result ≡ kinds_of shape }
{
    let mut kinds = [0; MAX_LEAVES];
    if leaves_of(shape) != 0 {
        store_leaves(&mut kinds, 0, shape, MAX_DIGITS);
    }
    kinds
}
