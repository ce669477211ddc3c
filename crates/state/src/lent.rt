// The one place where a state's words cross between lent memory and the engine's own.
ghost use Rattle.std.specs.Prelude.{◌≡◌, ◌*◌, ◌≤◌, length, take, replicate};
ghost use Rattle.word.specs.Word.{AllWords};
ghost use Rattle.rows.specs.Rows.{max_rows};
ghost use Rattle.state.specs.Layout.{state_words};
ghost use Rattle.state.specs.Lent.{state_size, lent_of, own_state};

use super::STATE_SIZE;
use word::{copy_in, copy_out};

// A lent state of n rows, into words of zeros. What was read are words.
pub fn state_in(lent: &[i32], n: usize, own: &mut [u32; STATE_SIZE])
    requires lent_len { (length lent.now ≡ n * state_words) × (n ≤ max_rows) }
    requires own_value { own.old ≡ replicate state_size 0 }
    ensures own_after { own.new ≡ own_state n lent.now }
    ensures all_words { AllWords lent.now }
{
    copy_in(lent, own);
}

// An own state of n rows, over all of the lent words. Its length, which only a function that is lent an array learns, is told.
pub fn state_out(own: &[u32; STATE_SIZE], n: usize, lent: &mut [i32])
    requires { (length lent.old ≡ n * state_words) × (n ≤ max_rows) }
    ensures lent_after { lent.new ≡ lent_of n (take (n * state_words) own.now) }
    ensures own_len { length own.now ≡ state_size }
{
    copy_out(own, lent);
}
