// Ground 5: the naming rule broken, or the last row of a kind below 25 or 26 to 30. Namings are counted in one pass.

ghost use Rattle.std.specs.Prelude.{◌≡◌, ◌&&◌, ℕ, ◌+◌, ◌-◌, ◌<◌, ◌≤◌, eqb, get_or};
ghost use Rattle.rows.specs.Rows.{max_rows, names, count, names_by, names_in, namings, named_once, fits_last, last_fits, every};
ghost use Rattle.grounds.specs.Table.{ask_by, asks_by};
ghost use Rattle.grounds.specs.Tables.{stop, More, max_namings};

use crate::table::{Ask, Asks, asks_at, names_row};
use rows::kinds::FIRST_EXPRESSION;
use rows::{MAX_ROWS, ROWS_WORDS, get};

// a count of namings stops here
const MAX_NAMINGS: u8 = 2;

fn name(table: &mut [u8; MAX_ROWS], q: Ask, w: u32)
    ensures { More table.old table.new (λ i. count (names (ask_by q) && eqb w i)) }
{
    if !names_row(q) {
        return;
    }
    let at = w as usize;
    if MAX_ROWS <= at {
        return;
    }
    let x = table[at];
    if MAX_NAMINGS <= x {
        return;
    }
    table[at] = x + 1;
}

fn name_operands(table: &mut [u8; MAX_ROWS], s: Option<Asks>, a: u32, b: u32, c: u32)
    ensures { More table.old table.new (λ i. names_by (asks_by s) a b c i) }
{
    let Some(s) = s else {
        return;
    };
    name(table, s.a, a);
    name(table, s.b, b);
    name(table, s.c, c);
}

fn name_row(rows: &[u32; ROWS_WORDS], table: &mut [u8; MAX_ROWS], j: usize)
    requires { j < max_rows }
    ensures { More table.old table.new (λ i. names_in rows.now i j) }
{
    if get(rows, j, 0) < FIRST_EXPRESSION {
        return;
    }
    let a = get(rows, j, 1);
    let b = get(rows, j, 2);
    let c = get(rows, j, 3);
    name_operands(table, asks_at(rows, j), a, b, c);
}

fn name_rows(rows: &[u32; ROWS_WORDS], table: &mut [u8; MAX_ROWS], n: usize)
    requires { n ≤ max_rows }
    ensures { More table.old table.new (λ i. namings rows.now i n) }
{
    for j in 0..n {
        name_row(rows, table, j);
    }
}

// row i is named as it must be, where x is its namings by n rows
#[tactic(auto, using(crate::proofs::Stop::stop_eqb), unfolding(rows::specs::Rows::named_once))]
fn named_once(rows: &[u32; ROWS_WORDS], n: usize, i: usize, x: u8) -> bool
    requires { (i < n) × (n ≤ max_rows) × (x ≡ stop max_namings (namings rows.now i n)) }
    ensures { result ≡ named_once rows.now n i }
{
    get(rows, i, 0) < FIRST_EXPRESSION || i + 1 == n || x == 1
}

fn all_named(rows: &[u32; ROWS_WORDS], n: usize, table: &[u8; MAX_ROWS]) -> bool
    requires { (n ≤ max_rows) × ((i : ℕ) → i < max_rows → get_or table.now i 0 ≡ stop max_namings (namings rows.now i n)) }
    ensures { result ≡ every n (named_once rows.now n) }
{
    for i in 0..n {
        if !named_once(rows, n, i, table[i]) {
            return false;
        }
    }
    true
}

fn last_fits(k: u32) -> bool
    ensures { result ≡ fits_last k }
{
    !matches!(k, 0..=24 | 26..=30)
}

#[tactic(auto, unfolding(rows::specs::Rows::last_fits))]
pub fn named(rows: &[u32; ROWS_WORDS], n: usize) -> bool
    requires { (1 ≤ n) × (n ≤ max_rows) }
    ensures { result ≡ (every n (named_once rows.now n) && last_fits rows.now (n - 1)) }
{
    let mut table = [0u8; MAX_ROWS];
    name_rows(rows, &mut table, n);
    all_named(rows, n, &table) && last_fits(get(rows, n - 1, 0))
}
