// The table of kinds in code: what each operand must be, the row's own sort, and what it puts around the rows below it.

ghost use Rattle.std.specs.Prelude.{◌≡◌, ◌<◌, ◌≤◌, get_or, take};
ghost use Rattle.rows.specs.Kinds.{asks, asks_of};
ghost use Rattle.rows.specs.Rows.{max_rows, asks_at, names};
ghost use Rattle.grounds.specs.Table.{ask_by, own_by, around_by, asks_by};

use crate::table::Around::*;
use crate::table::Ask::*;
use crate::table::Own::*;
use rows::{MAX_ROWS, ROWS_WORDS, get};

#[derive(Clone, Copy)]
pub enum Ask {
    Unused,
    Operator,
    Truth,
    AnyWord,
    AType,
    ABasic,
    ACell,
    APlain,
    ATask,
    ABranch,
    LikeB,
    ARole,
    SomeTouches,
}

#[derive(Clone, Copy)]
pub enum Own {
    OwnType,
    OwnBasic,
    OwnCell,
    OwnPlain,
    OwnTask,
    AsB,
}

#[derive(Clone, Copy)]
pub enum Around {
    Nothing,
    Binder,
    Mark,
}

// what a kind asks of the operands A, B and C, its own sort, and what it puts around the rows below it
#[derive(Clone, Copy)]
pub struct Asks {
    pub a: Ask,
    pub b: Ask,
    pub c: Ask,
    pub own: Own,
    pub around: Around,
}

fn line(a: Ask, b: Ask, c: Ask, own: Own, around: Around) -> Option<Asks>
    ensures { asks_by result ≡ asks (ask_by a) (ask_by b) (ask_by c) (own_by own) (around_by around) }
{
    Some(Asks {
        a: a,
        b: b,
        c: c,
        own: own,
        around: around,
    })
}

// what the kind of a number asks; a number that is no kind has no line
#[tactic(auto, unfolding(rows::specs::Kinds::asks_of))]
pub fn asks_of(k: u32) -> Option<Asks>
    ensures { asks_by result ≡ asks_of k }
{
    match k {
        1 => line(Unused, Unused, Unused, OwnType, Nothing),
        2..=3 => line(Unused, Unused, Unused, OwnBasic, Nothing),
        4 => line(AType, AType, Unused, OwnType, Nothing),
        10 => line(ABasic, AnyWord, Unused, OwnCell, Nothing),
        20 => line(Unused, Unused, Unused, OwnPlain, Nothing),
        21 => line(Truth, Unused, Unused, OwnPlain, Nothing),
        22..=23 => line(AnyWord, Unused, Unused, OwnPlain, Nothing),
        24 => line(Operator, APlain, APlain, OwnPlain, Nothing),
        25 => line(APlain, ABranch, LikeB, AsB, Nothing),
        26 => line(APlain, APlain, Unused, OwnPlain, Nothing),
        27..=28 => line(APlain, Unused, Unused, OwnPlain, Nothing),
        29 => line(ACell, Unused, Unused, OwnPlain, Nothing),
        30 => line(ACell, APlain, Unused, OwnPlain, Nothing),
        31 => line(APlain, ABranch, Unused, AsB, Binder),
        40 | 49 => line(APlain, Unused, Unused, OwnTask, Nothing),
        41 => line(AType, Unused, Unused, OwnTask, Nothing),
        42 => line(ACell, Unused, Unused, OwnTask, Nothing),
        43..=44 => line(ATask, ATask, Unused, OwnTask, Binder),
        45 => line(AType, Unused, Unused, OwnTask, Nothing),
        46..=47 => line(ATask, ATask, Unused, OwnTask, Mark),
        48 => line(ATask, ATask, Unused, OwnTask, Nothing),
        50 => line(ARole, ATask, SomeTouches, OwnTask, Nothing),
        _ => None,
    }
}

// the operand names a row
#[tactic(auto, unfolding(rows::specs::Rows::names))]
pub fn names_row(q: Ask) -> bool
    ensures { result ≡ names (ask_by q) }
{
    matches!(q, AType | ABasic | ACell | APlain | ATask | ABranch | LikeB)
}

pub fn asks_at(rows: &[u32; ROWS_WORDS], i: usize) -> Option<Asks>
    requires { i < max_rows }
    ensures { asks_by result ≡ asks_at rows.now i }
{
    asks_of(get(rows, i, 0))
}

// what a table says of row w, where it is lower than row i; else `none`
pub fn below<T: Copy>(table: &[T; MAX_ROWS], i: usize, w: u32, none: T) -> T
    requires { i ≤ max_rows }
    ensures { result ≡ get_or (take i table.now) w none }
{
    let at = w as usize;
    if at < i { table[at] } else { none }
}
