// Ground 4: an operand not a lower row, or not of the sort asked. Sorts of rows stand in a table, filled from below.

ghost use Rattle.std.specs.Prelude.{◌≡◌, ◌<◌, ◌≤◌};
ghost use Rattle.rows.specs.Rows.{max_rows, asks_at, op_b, sort_by, sort_below, sorted_as, sorted, row_sorted, every};
ghost use Rattle.grounds.specs.Table.{ask_by, asks_by, sort_in};
ghost use Rattle.grounds.specs.Tables.{SortsTo};

use crate::table::{Ask, Asks, Own, asks_at, below};
use rows::{MAX_ROWS, ROWS_WORDS, get};

#[derive(Clone, Copy, PartialEq, Eq)]
pub enum Sort {
    OtherType, // a unit or a pair, which no cell holds
    BasicType, // a truth or a number
    Cell,
    Plain,
    Task,
}

// a row's own sort, where b is that of its B
#[tactic(auto, unfolding(rows::specs::Rows::sort_by))]
fn sort_by(s: Option<Asks>, b: Option<Sort>) -> Option<Sort>
    ensures { sort_in result ≡ sort_by (asks_by s) (sort_in b) }
{
    let Some(s) = s else {
        return None;
    };
    match s.own {
        Own::OwnType => Some(Sort::OtherType),
        Own::OwnBasic => Some(Sort::BasicType),
        Own::OwnCell => Some(Sort::Cell),
        Own::OwnPlain => Some(Sort::Plain),
        Own::OwnTask => Some(Sort::Task),
        Own::AsB => b,
    }
}

#[tactic(auto, unfolding(rows::specs::Rows::sorted_as, rows::specs::Rows::sort_number))]
fn sorted_as(q: Ask, s: Option<Sort>, b: Option<Sort>) -> bool
    ensures { result ≡ sorted_as (ask_by q) (sort_in s) (sort_in b) }
{
    match q {
        Ask::AType => matches!(s, Some(Sort::OtherType | Sort::BasicType)),
        Ask::ABasic => matches!(s, Some(Sort::BasicType)),
        Ask::ACell => matches!(s, Some(Sort::Cell)),
        Ask::APlain => matches!(s, Some(Sort::Plain)),
        Ask::ATask => matches!(s, Some(Sort::Task)),
        Ask::ABranch => matches!(s, Some(Sort::Plain | Sort::Task)),
        Ask::LikeB => s == b,
        Ask::Unused | Ask::Operator | Ask::Truth | Ask::AnyWord | Ask::ARole | Ask::SomeTouches =>
            true,
    }
}

#[tactic(auto, unfolding(rows::specs::Rows::sorted))]
fn operands_sorted(s: Option<Asks>, a: Option<Sort>, b: Option<Sort>, c: Option<Sort>) -> bool
    ensures { result ≡ sorted (asks_by s) (sort_in a) (sort_in b) (sort_in c) }
{
    let Some(s) = s else {
        return false;
    };
    sorted_as(s.a, a, b) && sorted_as(s.b, b, b) && sorted_as(s.c, c, b)
}

fn row_sorted(rows: &[u32; ROWS_WORDS], table: &[Option<Sort>; MAX_ROWS], i: usize) -> bool
    requires { (i < max_rows) × SortsTo rows.now table.now i }
    ensures { result ≡ row_sorted rows.now i }
{
    let a = below(table, i, get(rows, i, 1), None);
    let b = below(table, i, get(rows, i, 2), None);
    let c = below(table, i, get(rows, i, 3), None);
    operands_sorted(asks_at(rows, i), a, b, c)
}

fn own_sort(rows: &[u32; ROWS_WORDS], table: &[Option<Sort>; MAX_ROWS], i: usize) -> Option<Sort>
    requires { (i < max_rows) × SortsTo rows.now table.now i }
    ensures { sort_in result ≡ sort_by (asks_at rows.now i) (sort_below rows.now i (op_b rows.now i)) }
{
    let b = below(table, i, get(rows, i, 2), None);
    sort_by(asks_at(rows, i), b)
}

pub fn sorted(rows: &[u32; ROWS_WORDS], n: usize) -> bool
    requires { n ≤ max_rows }
    ensures { result ≡ every n (row_sorted rows.now) }
{
    let mut table = [None; MAX_ROWS];
    for i in 0..n {
        if !row_sorted(rows, &table, i) {
            return false;
        }
        let s = own_sort(rows, &table, i);
        table[i] = s;
    }
    true
}
