// Rows and a state copied in from lent memory, with the grounds 20 to 23 asked in this order (01, "Grounds in the state").
ghost use Rattle.std.specs.Prelude.{◌≡◌, replicate};
ghost use Rattle.rows.specs.Lent.{rows_size};
ghost use Rattle.state.specs.Lent.{state_size};
ghost use Rattle.flow.specs.Opens.{OpenOk};

use super::failed::is_failed;
use normalising::stride;
use rows::ROWS_WORDS;
use rows::ground::Ground;
use sheet::accepted_rows;
use state::lent::state_in;
use state::{ENV_WORDS, STATE_SIZE, STATE_WORDS};
use state_check::held;

// What a state holds: a task of n rows, or the last row as failed whole (CR 3).
#[derive(Clone, Copy)]
pub enum Rest {
    Task(usize),
    Failed,
}

// Opens a rest, into rows and words of zeros. `fits` says that the other memories are of their exact length. Words that are no task's
// writing may hold the last row as failed whole. Whether a stride changes the state is tried in the words that `held` wrote once more.
pub fn open(
    rows: &[i32],
    state: &[i32],
    fits: bool,
    own: &mut [u32; ROWS_WORDS],
    words: &mut [u32; STATE_SIZE],
) -> Result<Rest, Ground>
    requires { (own.old ≡ replicate rows_size 0) × (words.old ≡ replicate state_size 0) }
    ensures { OpenOk rows.now state.now fits own.new words.new result }
{
    let Some(n) = accepted_rows(rows, own) else {
        return Err(Ground::NotAccepted);
    };
    if state.len() != n * STATE_WORDS {
        return Err(Ground::WrongMemory);
    }
    if !fits {
        return Err(Ground::WrongMemory);
    }
    state_in(state, n, words);
    let mut work = [0u32; STATE_SIZE];
    if !held(own, n, words, &mut work) {
        if is_failed(own, n, words, &mut work) {
            return Ok(Rest::Failed);
        }
        return Err(Ground::NotState);
    }
    let none = [0u32; ENV_WORDS];
    if stride(own, &mut work, n - 1, &none, 0) {
        return Err(Ground::NotAtRest);
    }
    Ok(Rest::Task(n))
}
