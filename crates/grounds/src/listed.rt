// Ground 3: a kind, operator, truth, role, number of touches or unused operand not as listed.

ghost use Rattle.std.specs.Prelude.{◌≡◌, ◌&&◌, ◌<◌, ◌≤◌, leb};
ghost use Rattle.rows.specs.Rows.{max_rows, listed_as, listed, truth_cell, row_listed, every};
ghost use Rattle.grounds.specs.Table.{ask_by, asks_by};

use crate::table::{Ask, Asks, asks_at};
use rows::kinds::Kind;
use rows::{ROWS_WORDS, get, is_role, operand};
use tophat::MAX_TOUCHES;

fn is_operator(w: u32) -> bool
    ensures { result ≡ (leb 1 w && leb w 8) }
{
    matches!(w, 1..=8)
}

#[tactic(auto, unfolding(rows::specs::Rows::listed_as))]
fn listed_as(q: Ask, w: u32) -> bool
    ensures { result ≡ listed_as (ask_by q) w }
{
    match q {
        Ask::Unused => w == 0,
        Ask::Operator => is_operator(w),
        Ask::Truth => w <= 1,
        Ask::ARole => is_role(w),
        Ask::SomeTouches => w <= MAX_TOUCHES,
        Ask::AnyWord
        | Ask::AType
        | Ask::ABasic
        | Ask::ACell
        | Ask::APlain
        | Ask::ATask
        | Ask::ABranch
        | Ask::LikeB => true,
    }
}

#[tactic(auto, unfolding(rows::specs::Rows::listed))]
fn operands_listed(s: Option<Asks>, a: u32, b: u32, c: u32) -> bool
    ensures { result ≡ listed (asks_by s) a b c }
{
    let Some(s) = s else {
        return false;
    };
    listed_as(s.a, a) && listed_as(s.b, b) && listed_as(s.c, c)
}

#[tactic(auto, unfolding(rows::specs::Rows::truth_cell))]
fn truth_cell(rows: &[u32; ROWS_WORDS], i: usize) -> bool
    requires { i < max_rows }
    ensures { result ≡ truth_cell rows.now i }
{
    let a = operand(rows, i, 1);
    get(rows, i, 0) != Kind::Cell as u32
        || i <= a
        || get(rows, a, 0) != Kind::TruthType as u32
        || get(rows, i, 2) <= 1
}

#[tactic(auto, unfolding(rows::specs::Rows::row_listed))]
fn row_listed(rows: &[u32; ROWS_WORDS], i: usize) -> bool
    requires { i < max_rows }
    ensures { result ≡ row_listed rows.now i }
{
    let s = asks_at(rows, i);
    let a = get(rows, i, 1);
    let b = get(rows, i, 2);
    let c = get(rows, i, 3);
    operands_listed(s, a, b, c) && truth_cell(rows, i)
}

pub fn listed(rows: &[u32; ROWS_WORDS], n: usize) -> bool
    requires { n ≤ max_rows }
    ensures { result ≡ every n (row_listed rows.now) }
{
    for i in 0..n {
        if !row_listed(rows, i) {
            return false;
        }
    }
    true
}
