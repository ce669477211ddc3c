// The calculus: its rules in specs/, the theorems on them in proofs/. In code here are the names of the numbers that 01 gives to the
// calculus' notions, and its actions.
#![tactic(auto)]

ghost use Rattle.std.specs.Prelude.{◌≡◌};
ghost use Rattle.tophat.specs.Actions.{number_of_action, ActionNamed};

// CR 4: "A type may have 8 leaves"
pub const MAX_LEAVES: usize = 8;

// 01: leaf kinds "(1, 2, 3; 0 unused)". A leaf's digit in a type's number (crate shape) is its kind.
pub const NO_LEAF: u32 = 0;

pub const UNIT: u32 = 1;

pub const TRUTH: u32 = 2;

pub const NUMBER: u32 = 3;

// 01: "action (1 value, 2 Continue, 3 Left, 4 Right)"
#[derive(Clone, Copy, PartialEq, Eq)]
pub enum Action {
    Value = 1,
    Continue = 2,
    Left = 3,
    Right = 4,
}

// Its number in 01.
impl From<Action> for u32 {
    ghost from_gives = { λ a n. n ≡ number_of_action a };

    fn from(action: Action) -> u32 {
        action as u32
    }
}

// That a number is no action's.
#[derive(Clone, Copy, PartialEq, Eq)]
pub struct NoAction;

impl TryFrom<u32> for Action {
    type Error = NoAction;

    ghost try_from_gives = { ActionNamed };

    fn try_from(number: u32) -> Result<Self, NoAction> {
        match number {
            1 => Ok(Action::Value),
            2 => Ok(Action::Continue),
            3 => Ok(Action::Left),
            4 => Ok(Action::Right),
            _ => Err(NoAction),
        }
    }
}

// CR 6: roles 1 to 8, touches 0 to 99
pub const MAX_ROLE: u32 = 8;

pub const MAX_TOUCHES: u32 = 99;
