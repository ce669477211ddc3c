// Ground 6: a type row over 8 leaves, or over 16 binders or marks around a row. Counts stand in a table in eight bits,
// filled from below; each stops one past its limit.

ghost use Rattle.std.specs.Prelude.{◌≡◌, cond, suc, ◌+◌, ◌<◌, ◌≤◌, max};
ghost use Rattle.rows.specs.Rows.{max_rows, names, every};
ghost use Rattle.rows.specs.Enclosing.{max_binders, binders_by, marks_by, most_binders, most_marks, leaves_by, row_small};
ghost use Rattle.grounds.specs.Table.{ask_by, around_by, asks_by};
ghost use Rattle.grounds.specs.Tables.{stop};
ghost use Rattle.grounds.specs.Counts.{count_by, most_of, count_of, few_at, CountsTo};

use crate::table::{Around, Ask, Asks, Own, asks_at, below, names_row};
use rows::{MAX_ROWS, ROW_WORDS, ROWS_WORDS, get};

const MAX_LEAVES: u8 = tophat::MAX_LEAVES as u8;

const MAX_BINDERS: u8 = rows::MAX_BINDERS as u8;

const MAX_MARKS: u8 = rows::MAX_MARKS as u8;

#[derive(Clone, Copy)]
pub enum Counted {
    Leaves,
    Binders,
    Marks,
}

fn most_of(w: Counted) -> u8
    ensures { result ≡ most_of w }
{
    match w {
        Counted::Leaves => MAX_LEAVES,
        Counted::Binders => MAX_BINDERS,
        Counted::Marks => MAX_MARKS,
    }
}

fn if_named(q: Ask, a: u8) -> u8
    ensures { result ≡ cond (names (ask_by q)) a 0 }
{
    if names_row(q) { a } else { 0 }
}

#[tactic(auto, unfolding(rows::specs::Enclosing::binders_by))]
fn binder_of(x: Around) -> u8
    ensures { (result ≡ binders_by (around_by x)) × (result ≤ 1) }
{
    match x {
        Around::Binder => 1,
        Around::Nothing | Around::Mark => 0,
    }
}

#[tactic(auto, unfolding(rows::specs::Enclosing::marks_by))]
fn mark_of(x: Around) -> u8
    ensures { (result ≡ marks_by (around_by x)) × (result ≤ 1) }
{
    match x {
        Around::Mark => 1,
        Around::Nothing | Around::Binder => 0,
    }
}

// leaves of a type row: one, or those of a pair
fn type_leaves(p: Ask, a: u8, b: u8) -> u8
    requires { (a ≤ suc max_binders) × (b ≤ suc max_binders) }
    ensures { result ≡ cond (names (ask_by p)) (a + b) 1 }
{
    if names_row(p) { a + b } else { 1 }
}

#[tactic(auto, unfolding(rows::specs::Enclosing::leaves_by, rows::specs::Rows::sort_number))]
fn leaves_by(s: Option<Asks>, a: u8, b: u8, c: u8) -> u8
    requires { (a ≤ suc max_binders) × (b ≤ suc max_binders) }
    ensures { result ≡ leaves_by (asks_by s) a b c }
{
    let Some(s) = s else {
        return 0;
    };
    match s.own {
        Own::OwnType | Own::OwnBasic => type_leaves(s.a, a, b),
        Own::OwnCell | Own::OwnPlain | Own::OwnTask | Own::AsB => 0,
    }
}

#[tactic(auto, unfolding(rows::specs::Enclosing::most_binders))]
fn binders_by(s: Option<Asks>, a: u8, b: u8, c: u8) -> u8
    requires { b ≤ suc max_binders }
    ensures { result ≡ most_binders (asks_by s) a b c }
{
    let Some(s) = s else {
        return 0;
    };
    let u = if_named(s.a, a);
    let v = if_named(s.b, binder_of(s.around) + b);
    let w = if_named(s.c, c);
    u.max(v.max(w))
}

#[tactic(auto, unfolding(rows::specs::Enclosing::most_marks))]
fn marks_by(s: Option<Asks>, a: u8, b: u8, c: u8) -> u8
    requires { (a ≤ suc max_binders) × (b ≤ suc max_binders) }
    ensures { result ≡ most_marks (asks_by s) a b c }
{
    let Some(s) = s else {
        return 0;
    };
    let m = mark_of(s.around);
    let u = if_named(s.a, m + a);
    let v = if_named(s.b, m + b);
    let w = if_named(s.c, c);
    u.max(v.max(w))
}

fn count_by(w: Counted, s: Option<Asks>, a: u8, b: u8, c: u8) -> u8
    requires { (a ≤ suc (most_of w)) × (b ≤ suc (most_of w)) }
    ensures { result ≡ count_by w (asks_by s) a b c }
{
    match w {
        Counted::Leaves => leaves_by(s, a, b, c),
        Counted::Binders => binders_by(s, a, b, c),
        Counted::Marks => marks_by(s, a, b, c),
    }
}

// a row's count, or one more than the limit
fn row_count(rows: &[u32; ROWS_WORDS], table: &[u8; MAX_ROWS], i: usize, w: Counted) -> u8
    requires { (i < max_rows) × CountsTo w rows.now table.now i }
    ensures { (result ≡ stop (suc (most_of w)) (count_of w rows.now i)) × (result ≤ suc (most_of w)) }
{
    let a = below(table, i, get(rows, i, 1), 0);
    let b = below(table, i, get(rows, i, 2), 0);
    let c = below(table, i, get(rows, i, 3), 0);
    let x = count_by(w, asks_at(rows, i), a, b, c);
    let most = most_of(w);
    if x <= most {
        return x;
    }
    most + 1
}

fn few(rows: &[u32; ROWS_WORDS], n: usize, w: Counted) -> bool
    requires { n ≤ max_rows }
    ensures { result ≡ every n (few_at w rows.now) }
{
    let mut table = [0u8; MAX_ROWS];
    let most = most_of(w);
    for i in 0..n {
        let x = row_count(rows, &table, i, w);
        if most < x {
            return false;
        }
        table[i] = x;
    }
    true
}

#[tactic(auto, using(crate::proofs::Ground6::all_small))]
pub fn small(rows: &[u32; ROWS_WORDS], n: usize) -> bool
    requires { n ≤ max_rows }
    ensures { result ≡ every n (row_small rows.now) }
{
    few(rows, n, Counted::Leaves) && few(rows, n, Counted::Binders) && few(rows, n, Counted::Marks)
}
