// Typing of rows by shapes: each row is decoded once to what typing does with it, then typed by recursion on lower rows.

#![tactic(auto)]

ghost use Rattle.std.specs.Prelude.{◌≡◌, true, ◌+◌, ◌<◌, ◌≤◌, ◌↔◌, set, replicate, IsTrue, IfSome};
ghost use Rattle.word.specs.Options.{in_code};
ghost use Rattle.shape.specs.Shape.{as_shape, maybe_shape, shape_or_none};
ghost use Rattle.rows.specs.Kinds.{kind_of};
ghost use Rattle.rows.specs.Rows.{max_rows};
ghost use Rattle.rows.specs.Enclosing.{max_binders};
ghost use Rattle.rows.specs.ComputeTrees.{content_type};
ghost use Rattle.rows.specs.Ground.{flow_type, passes4, passes6};
ghost use Rattle.typing.specs.Nodes.{node_by, node_of, names_lower, Below};
ghost use Rattle.typing.specs.RowTypes.{op_shape, binder_shape, type_of, is_task, flow_shape};

use match_laws;
use rows::kinds::Kind;
use rows::{MAX_BINDERS, ROWS_WORDS, get, kind, operand};
use shape;
use shape::TRUTH;
use tophat;

// The shapes of the binders around a row, the outermost first.
#[derive(Clone, Copy)]
pub struct Binders {
    pub shapes: [u32; MAX_BINDERS],
    pub count: usize,
}

impl Binders {
    // No binder.
    pub fn new() -> Binders
        ensures { (result.shapes ≡ replicate max_binders 0) × (result.count ≡ 0) }
    {
        Binders {
            shapes: [0; MAX_BINDERS],
            count: 0,
        }
    }

    // The shape of binder a, counted outward, 0 the nearest; none where there is no such binder, or more than MAX_BINDERS.
    fn get(&self, a: usize) -> Option<u32>
        ensures { result ≡ shape_or_none (binder_shape self.now.shapes self.now.count a) }
    {
        if self.count <= a || MAX_BINDERS < self.count {
            return None;
        }
        let shape = self.shapes[self.count - 1 - a];
        (shape != 0).then_some(shape)
    }

    // No binder more has room.
    pub fn is_full(&self) -> bool
        ensures { IsTrue result ↔ (max_binders ≤ self.now.count) }
    {
        MAX_BINDERS <= self.count
    }

    // One binder more, of the shape.
    pub fn with(&self, shape: u32) -> Binders
        requires { self.now.count < max_binders }
        ensures { (result.shapes ≡ set self.now.shapes self.now.count shape) × (result.count ≡ self.now.count + 1) }
    {
        let mut shapes = self.shapes;
        shapes[self.count] = shape;
        Binders {
            shapes,
            count: self.count + 1,
        }
    }
}

// What typing does with a row.
#[derive(Clone, Copy)]
pub enum Node {
    Unit,
    Truth,
    Number,
    Binder(usize),
    Op(u32, usize, usize),
    If(usize, usize, usize),
    Pair(usize, usize),
    First(usize),
    Second(usize),
    Through(usize),
    Assign(usize, usize),
    Bind(usize, usize),
    Same(usize, usize),
}

impl Node {
    // Are the rows that it names lower than the row?
    fn names_lower(&self, row: usize) -> bool
        ensures { result ≡ names_lower row self.now }
    {
        match *self {
            Node::Unit | Node::Truth | Node::Number | Node::Binder(_) => true,
            Node::First(a) | Node::Second(a) | Node::Through(a) => a < row,
            Node::Pair(a, b) | Node::Assign(a, b) | Node::Bind(a, b) | Node::Same(a, b) => {
                a < row && b < row
            }
            Node::Op(_, b, c) => b < row && c < row,
            Node::If(a, b, c) => a < row && b < row && c < row,
        }
    }
}

// The shape of an operator's result, where both sides have the shape that it takes.
fn op_shape(o: u32, t: u32, u: u32) -> Option<u32>
    ensures { result ≡ shape_or_none (op_shape o t u) }
{
    let (takes, gives) = match o {
        0..=3 => (shape::NUMBER, shape::NUMBER),
        4..=6 => (shape::NUMBER, shape::TRUTH),
        7..=8 => (shape::TRUTH, shape::TRUTH),
        _ => (shape::NUMBER, shape::NUMBER),
    };
    (t == takes && u == takes).then_some(gives)
}

// A row of kind k with the operands a, b and c.
fn node_from(k: u32, a: u32, b: u32, c: u32) -> Option<Node>
    ensures { result ≡ in_code (node_by (kind_of k) a b c) }
{
    let p = a as usize;
    let q = b as usize;
    let s = c as usize;
    match k {
        1 | 20 => Some(Node::Unit),
        2 | 21 => Some(Node::Truth),
        3 | 22 => Some(Node::Number),
        23 => Some(Node::Binder(p)),
        24 => Some(Node::Op(a, q, s)),
        25 => Some(Node::If(p, q, s)),
        4 | 26 | 46 => Some(Node::Pair(p, q)),
        27 => Some(Node::First(p)),
        28 => Some(Node::Second(p)),
        10 | 29 | 45 | 49 => Some(Node::Through(p)),
        40..=42 => Some(Node::Through(p)),
        30 => Some(Node::Assign(p, q)),
        31 => Some(Node::Bind(p, q)),
        50 => Some(Node::Through(q)),
        43..=44 => Some(Node::Bind(p, q)),
        47..=48 => Some(Node::Same(p, q)),
        _ => None,
    }
}

// What typing does with the row; none where its kind is none, or a row that it names is not lower.
fn node_at(rows: &[u32; ROWS_WORDS], row: usize) -> Option<Node>
    requires { row < max_rows }
    ensures is { result ≡ in_code (node_of rows.now row) }
    ensures below { IfSome result (λ x. Below x row) }
{
    let k = get(rows, row, 0);
    let a = get(rows, row, 1);
    let b = get(rows, row, 2);
    let c = get(rows, row, 3);
    let node = node_from(k, a, b, c)?;
    node.names_lower(row).then_some(node)
}

// The shape of the type of a row under the binders, if it has one; linear where each row of kind 20 or more is named once.
pub fn row_type(rows: &[u32; ROWS_WORDS], row: usize, binders: &Binders) -> Option<u32>
    requires { row < max_rows }
    ensures { result ≡ shape_or_none (type_of rows.now binders.now.shapes binders.now.count row) }
{
    let node = node_at(rows, row)?;
    match node {
        Node::Unit => Some(shape::UNIT),
        Node::Truth => Some(shape::TRUTH),
        Node::Number => Some(shape::NUMBER),
        Node::Binder(a) => binders.get(a),
        Node::Op(o, b, c) => {
            let t = row_type(rows, b, binders)?;
            let u = row_type(rows, c, binders)?;
            op_shape(o, t, u)
        }
        Node::If(a, b, c) => {
            let s = row_type(rows, a, binders)?;
            let t = row_type(rows, b, binders)?;
            let u = row_type(rows, c, binders)?;
            (s == shape::TRUTH && t == u).then_some(t)
        }
        Node::Pair(a, b) => {
            let t = row_type(rows, a, binders)?;
            let u = row_type(rows, b, binders)?;
            shape::pair_shape(t, u)
        }
        Node::First(a) => {
            let t = row_type(rows, a, binders)?;
            shape::first_shape(t)
        }
        Node::Second(a) => {
            let t = row_type(rows, a, binders)?;
            shape::second_shape(t)
        }
        Node::Through(a) => row_type(rows, a, binders),
        Node::Assign(a, b) => {
            let t = row_type(rows, a, binders)?;
            let u = row_type(rows, b, binders)?;
            (t == u).then_some(shape::UNIT)
        }
        Node::Bind(a, b) => {
            let t = row_type(rows, a, binders)?;
            if binders.is_full() {
                return None;
            }
            let inner = binders.with(t);
            row_type(rows, b, &inner)
        }
        Node::Same(a, b) => {
            let t = row_type(rows, a, binders)?;
            let u = row_type(rows, b, binders)?;
            (t == u).then_some(t)
        }
    }
}

// whether a row is a task: 25 and 31 are what their B is
pub fn is_task(rows: &[u32; ROWS_WORDS], row: usize) -> bool
    requires { row < max_rows }
    ensures { result ≡ is_task rows.now row }
{
    let k = get(rows, row, 0);
    match k {
        25 | 31 => {
            let b = operand(rows, row, 2);
            if b < row {
                return is_task(rows, b);
            }
            false
        }
        40..=50 => true,
        _ => false,
    }
}

// the shape of what a cell holds, by the kind of its type row
pub fn cell_shape(rows: &[u32; ROWS_WORDS], row: usize) -> u32
    requires { row < max_rows }
    ensures { result ≡ as_shape (content_type rows.now row) }
{
    let a = operand(rows, row, 1);
    if kind(rows, a) == u32::from(Kind::TruthType) {
        return shape::TRUTH;
    }
    shape::NUMBER
}

// the shape of the type of the last of n rows as a task, if it has one
pub fn flow_type(rows: &[u32; ROWS_WORDS], n: usize) -> Option<u32>
    requires { (1 ≤ n) × (n ≤ max_rows) }
    ensures value { result ≡ shape_or_none (flow_shape rows.now n) }
    ensures value_2 { passes4 rows.now n ≡ true → passes6 rows.now n ≡ true → result ≡ shape_or_none (maybe_shape (flow_type rows.now n)) }
{
    if !is_task(rows, n - 1) {
        return None;
    }
    row_type(rows, n - 1, &Binders::new())
}
