// Values as the engine passes them: a shape, which is the value's type as one number, and its leaves, unused ones 0; and what
// plain expressions do with values. Rests on crate word for numbers, on crate shape for types, and on specs/Values.antt for what
// a value stands for.
#![tactic(auto)]

ghost use Rattle.std.specs.Prelude.{◌≡◌, true, ◌≤◌, ◌<◌, ℤ, get_or};
ghost use Rattle.std.proofs.Math.Option.{some};
ghost use Rattle.std.specs.Int.{w32};
ghost use Rattle.std.proofs.Common.{to_z};
ghost use Rattle.word.specs.Word.{words, AllBits};
ghost use Rattle.word.specs.Reckoning.{reckoning};
ghost use Rattle.tophat.specs.Syntax.{max_leaves, vunit, vtruth, vnumber};
ghost use Rattle.tophat.specs.Leaves.{leaf_at, meets_leaf};
ghost use Rattle.tophat.proofs.ComputeEvaluation.{is_true};
ghost use Rattle.rows.specs.Trees.{operator_of};
ghost use Rattle.value.specs.Fits.{fits_in};
ghost use Rattle.value.specs.Values.{as_value, first_number, single, joined, leaves_from, pair_value, first_value, second_value};
ghost use Rattle.value.specs.Evaluations.{sure_of, after_over, exactly, applied};

use shape::{first_shape, leaf_kinds, leaves_of, pair_shape, second_shape};
use tophat::{MAX_LEAVES, NO_LEAF, NUMBER, TRUTH, UNIT};
use word::{add, at_most, equal, less, mul, sub};

#[derive(Clone, Copy)]
pub struct Value {
    pub shape: u32,
    pub leaves: [u32; MAX_LEAVES],
}

// What evaluating gives: a value, and whether a result left the words on the way; then the value goes on with 0 for it (CR 3).
#[derive(Clone, Copy)]
pub struct Evaluation {
    pub over: bool,
    pub value: Value,
}

pub const NO_VALUE: Value = Value {
    shape: 0,
    leaves: [0; MAX_LEAVES],
};

// A value of one leaf.
fn single(shape: u32, w: u32) -> Value
    ensures { result ≡ single shape w }
{
    let mut leaves = [0u32; MAX_LEAVES];
    leaves[0] = w;
    Value {
        shape: shape,
        leaves: leaves,
    }
}

pub fn unit() -> Value
    ensures { result ≡ as_value vunit }
{
    single(UNIT, 0)
}

pub fn truth(b: bool) -> Value
    ensures { result ≡ as_value (vtruth b) }
{
    if b {
        return single(TRUTH, 1);
    }
    single(TRUTH, 0)
}

pub fn number(w: u32) -> Value
    ensures { result ≡ as_value (vnumber (to_z w32 w)) }
{
    single(NUMBER, w)
}

// The number of a value's first leaf is that of true.
pub fn is_true(a: Value) -> bool
    ensures { result ≡ is_true (first_number a) }
{
    let leaves = a.leaves;
    equal(leaves[0], 1)
}

// A value, and no result left the words.
pub fn sure(v: Value) -> Evaluation
    ensures { result ≡ sure_of v }
{
    Evaluation {
        over: false,
        value: v,
    }
}

// An evaluation after one whose results left the words or did not.
pub fn after(over: bool, e: Evaluation) -> Evaluation
    ensures { result ≡ after_over over e }
{
    let v = e.value;
    if over {
        return Evaluation {
            over: true,
            value: v,
        };
    }
    e
}

// What an exact result comes to: 0 goes on in place of one that is no word.
fn result(r: Option<u32>) -> Evaluation
    ensures { (z : ℤ) → r ≡ reckoning z → result ≡ exactly z }
{
    Evaluation {
        over: r.is_none(),
        value: number(r.unwrap_or(0)),
    }
}

// Sum, difference, product.
fn computed(op: u32, x: u32, y: u32) -> Evaluation
    requires { (1 ≤ op) × (op ≤ 3) }
    ensures { result ≡ applied (operator_of op) (vnumber (to_z w32 x)) (vnumber (to_z w32 y)) }
{
    match op {
        1 => result(add(x, y)),
        2 => result(sub(x, y)),
        _ => result(mul(x, y)),
    }
}

// Less, less or equal, equal.
fn compared(op: u32, x: u32, y: u32) -> bool
    requires { (4 ≤ op) × (op ≤ 6) }
    ensures { sure_of (as_value (vtruth result)) ≡ applied (operator_of op) (vnumber (to_z w32 x)) (vnumber (to_z w32 y)) }
{
    match op {
        4 => less(x, y),
        5 => at_most(x, y),
        _ => equal(x, y),
    }
}

// And, or.
fn connected(op: u32, x: u32, y: u32) -> bool
    requires { (7 ≤ op) × (op ≤ 8) }
    ensures { sure_of (as_value (vtruth result)) ≡ applied (operator_of op) (vnumber (to_z w32 x)) (vnumber (to_z w32 y)) }
{
    let p = equal(x, 1);
    let q = equal(y, 1);
    match op {
        7 => p && q,
        _ => p || q,
    }
}

// An operator on the first leaves of two values; what is no operator is the sum.
pub fn apply(op: u32, a: Value, b: Value) -> Evaluation
    ensures { result ≡ applied (operator_of op) (first_number a) (first_number b) }
{
    let xs = a.leaves;
    let ys = b.leaves;
    let x = xs[0];
    let y = ys[0];
    match op {
        1..=3 => {
            return computed(op, x, y);
        }
        4..=6 => {
            return sure(truth(compared(op, x, y)));
        }
        7..=8 => {
            return sure(truth(connected(op, x, y)));
        }
        _ => {
            return result(add(x, y));
        }
    }
}

// Leaf i, and 0 past the last.
fn leaf(leaves: [u32; MAX_LEAVES], i: usize) -> u32
    ensures { result ≡ get_or leaves i 0 }
{
    leaves.get(i).copied().unwrap_or(0)
}

// The first n leaves of xs with those of ys after them.
fn joined(n: usize, xs: [u32; MAX_LEAVES], ys: [u32; MAX_LEAVES]) -> [u32; MAX_LEAVES]
    ensures { result ≡ joined n xs ys }
{
    let mut leaves = ys;
    for (i, place) in leaves.iter_mut().enumerate() {
        *place = if i < n { xs[i] } else { leaf(ys, i - n) };
    }
    leaves
}

// The leaves of xs from n on.
fn leaves_from(n: usize, xs: [u32; MAX_LEAVES]) -> [u32; MAX_LEAVES]
    requires { n ≤ max_leaves }
    ensures { result ≡ leaves_from n xs }
{
    let mut leaves = xs;
    for (i, place) in leaves.iter_mut().enumerate() {
        *place = leaf(xs, n + i);
    }
    leaves
}

pub fn pair(a: Value, b: Value) -> Value
    ensures { result ≡ pair_value a b }
{
    let xs = a.leaves;
    let ys = b.leaves;
    let leaves = joined(leaves_of(a.shape), xs, ys);
    Value {
        shape: pair_shape(a.shape, b.shape).unwrap_or(0),
        leaves: leaves,
    }
}

// The first part of a pair.
pub fn first(a: Value) -> Value
    ensures { result ≡ first_value a }
{
    let shape = first_shape(a.shape).unwrap_or(0);
    let xs = a.leaves;
    let leaves = joined(leaves_of(shape), xs, [0; MAX_LEAVES]);
    Value {
        shape: shape,
        leaves: leaves,
    }
}

// The second part of a pair.
pub fn second(a: Value) -> Value
    ensures { result ≡ second_value a }
{
    let xs = a.leaves;
    let leaves = leaves_from(leaves_of(first_shape(a.shape).unwrap_or(0)), xs);
    Value {
        shape: second_shape(a.shape).unwrap_or(0),
        leaves: leaves,
    }
}

// Is the leaf of that kind? Of a unit, and where none is used, it is 0.
fn meets(kind: u32, leaf: u32) -> bool
    ensures { (result ≡ meets_leaf (leaf_at kind) (some (to_z w32 leaf))) × (leaf < words) }
{
    if kind == NUMBER {
        return true;
    }
    if equal(leaf, 0) {
        return true;
    }
    if kind == TRUTH {
        return equal(leaf, 1);
    }
    false
}

// Is it a value of the type with that shape? A number that is no type's shape has no leaf kinds, and no value. (Of a struct's array
// nothing says that its elements are words until they are read.)
pub fn fits(v: Value, shape: u32) -> bool
    ensures value { result ≡ fits_in v shape }
    ensures all_bits { result ≡ true → AllBits v.leaves }
{
    if v.shape != shape {
        return false;
    }
    let kinds = leaf_kinds(shape);
    if kinds[0] == NO_LEAF {
        return false;
    }
    let leaves = v.leaves;
    for (i, leaf) in leaves.iter().enumerate() {
        if !meets(kinds[i], *leaf) {
            return false;
        }
    }
    true
}
