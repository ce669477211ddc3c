// What a call answers, as a number.
ghost use Rattle.std.specs.Prelude.{◌≡◌};
ghost use Rattle.rows.specs.GroundNumbers.{answer_number};

use rows::ground::Ground;

// 0 where the call is accepted, else the number of its ground.
pub fn number<T>(answer: &Result<T, Ground>) -> u32
    ensures { result ≡ answer_number answer.now }
{
    match answer {
        Ok(_) => 0,
        Err(ground) => u32::from(*ground),
    }
}
