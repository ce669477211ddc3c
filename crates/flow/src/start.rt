// The call `start`: accepted rows, their cells' first contents, the last row evaluated and normalised (01, "Normalise").
ghost use Rattle.std.specs.Prelude.{◌≡◌, ◌-◌, ◌≤◌, replicate};
ghost use Rattle.state.specs.Ensured.{Fine};
ghost use Rattle.state.specs.Lent.{state_size};
ghost use Rattle.call_definitions.specs.Calls.{start_call};
ghost use Rattle.call_definitions.specs.Touches.{Bounded};
ghost use Rattle.flow.specs.Starts.{strides_of, Answered, BeginOk};

use super::failed::write_failed;
use super::firsts::first_cells;
use normalising::normalise;
use rows::ROWS_WORDS;
use rows::ground::Ground;
use running::evaluate;
use sheet::accepted_rows;
use state::lent::state_out;
use state::{ENV_WORDS, STATE_SIZE, STATE_WORDS};

// The last row of n, evaluated and normalised from the first contents, in words of zeros; the strides. A row that leaves the words is written
// as failed whole, which normalising does not change (CR 3).
fn begin(rows: &[u32; ROWS_WORDS], n: usize, words: &mut [u32; STATE_SIZE]) -> u32
    requires le_n { (1 ≤ n) × Fine rows.now (n - 1) 0 }
    requires words_value { words.old ≡ replicate state_size 0 }
    ensures { BeginOk rows.now n words.new result }
{
    first_cells(rows, n, words);
    let none = [0u32; ENV_WORDS];
    if evaluate(rows, words, n - 1, &none, 0) {
        *words = [0u32; STATE_SIZE];
        write_failed(rows, n, words);
        return 1;
    }
    normalise(rows, words, n - 1, &none, 0)
}

// Starts a flow: the strides, and the state at exit.
pub fn start(rows: &[i32], state: &mut [i32]) -> Result<u32, Ground>
    ensures answered { Answered (start_call rows.now state.old) result state.new }
    ensures bounded { Bounded rows.now (strides_of result) }
{
    let mut own = [0u32; ROWS_WORDS];
    let Some(n) = accepted_rows(rows, &mut own) else {
        return Err(Ground::NotAccepted);
    };
    if state.len() != n * STATE_WORDS {
        return Err(Ground::WrongMemory);
    }
    let mut words = [0u32; STATE_SIZE];
    let strides = begin(&own, n, &mut words);
    state_out(&words, n, state);
    Ok(strides)
}
