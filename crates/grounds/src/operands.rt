// Which operands of a row are unused, by the line of its kind in the table of kinds (CR 2: a blank is 0 there).

ghost use Rattle.std.specs.Prelude.{◌≡◌, false, ◌∷◌, get_or};
ghost use Rattle.rows.specs.Kinds.{is_unused, unused_of};
ghost use Rattle.grounds.specs.Table.{ask_by};

use crate::table::{Ask, asks_of};

#[tactic(auto, unfolding(rows::specs::Kinds::is_unused))]
fn is_unused(q: Ask) -> bool
    ensures { result ≡ is_unused (ask_by q) }
{
    matches!(q, Ask::Unused)
}

// Whether word k of a row of this kind is an unused operand. Word 0 is the kind itself; a number that is no kind uses all three.
#[tactic(auto, unfolding(rows::specs::Kinds::unused_by))]
pub fn unused(kind: u32, k: usize) -> bool
    ensures { result ≡ get_or (false ∷ unused_of kind) k false }
{
    let Some(asks) = asks_of(kind) else {
        return false;
    };
    match k {
        1 => is_unused(asks.a),
        2 => is_unused(asks.b),
        3 => is_unused(asks.c),
        _ => false,
    }
}
