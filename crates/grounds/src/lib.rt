// Grounds 3 to 7 over rows of words, each over all rows before the next (01, "Grounds in the input").

#![tactic(auto)]

use match_laws;
use rows::ground::Ground;
use rows::{ROW_WORDS, ROWS_WORDS};
use shape;
use tophat;
use typing;
use word;

mod table; // what each kind asks: one match with ranges
mod listed; // ground 3
mod sorted; // ground 4
mod named; // ground 5
mod small; // ground 6
pub mod operands; // which are unused

ghost use Rattle.std.specs.Prelude.{◌≡◌, ◌≤◌};
ghost use Rattle.rows.specs.GroundNumbers.{answer_number};
ghost use Rattle.rows.specs.Rows.{max_rows};
ghost use Rattle.rows.specs.Ground.{ground_of_rows};
ghost use Rattle.grounds.specs.Accepted.{ground_of_form, accepted_rows};

// the first of grounds 3 to 6 that holds
#[tactic(auto, unfolding(crate::specs::Accepted::ground_of_form, rows::specs::Ground::passes3, rows::specs::Ground::passes4, rows::specs::Ground::passes5, rows::specs::Ground::passes6))]
pub fn ground_of_form(rows: &[u32; ROWS_WORDS], n: usize) -> Result<(), Ground>
    requires { (1 ≤ n) × (n ≤ max_rows) }
    ensures { answer_number result ≡ ground_of_form rows.now n }
{
    if !listed::listed(rows, n) {
        return Err(Ground::NotListed);
    }
    if !sorted::sorted(rows, n) {
        return Err(Ground::NotSorted);
    }
    if !named::named(rows, n) {
        return Err(Ground::NotNamed);
    }
    if !small::small(rows, n) {
        return Err(Ground::NotSmall);
    }
    Ok(())
}

// the first of grounds 3 to 7 that holds
#[tactic(auto, using(crate::proofs::Grounds::ground_form))]
pub fn ground_of_rows(rows: &[u32; ROWS_WORDS], n: usize) -> Result<(), Ground>
    requires { (1 ≤ n) × (n ≤ max_rows) }
    ensures { answer_number result ≡ ground_of_rows rows.now n }
{
    ground_of_form(rows, n)?;
    if typing::flow_type(rows, n).is_none() {
        return Err(Ground::NotTyped);
    }
    Ok(())
}

// Ground 20 does not hold: the first so many words are rows that an accepted sheet loads to.
#[tactic(auto, unfolding(crate::specs::Accepted::accepted_rows))]
pub fn accepted_rows(rows: &[u32; ROWS_WORDS], words: usize) -> bool
    ensures { result ≡ accepted_rows rows.now words }
{
    words != 0
        && words <= ROWS_WORDS
        && words % ROW_WORDS == 0
        && ground_of_rows(rows, words / ROW_WORDS).is_ok()
}
