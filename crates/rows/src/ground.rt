// The grounds of 01, "Grounds in the input" and "Grounds in the state", and CR 6's two, each with its number
// (specs/GroundNumbers.antt). What may be refused answers `Err` with the first that holds.
ghost use Rattle.std.specs.Prelude.{◌≡◌};
ghost use Rattle.rows.specs.GroundNumbers.{number_of_ground};

// Why a call is refused.
#[derive(Clone, Copy, PartialEq, Eq)]
pub enum Ground {
    NotSized = 1, // sheet length not 45 times 1 to 256
    NotRead = 2, // a field or byte 10 unreadable, or a wrong row number
    NotListed = 3, // a kind, operator, truth, role, number of touches or unused operand not as listed
    NotSorted = 4, // an operand not a lower row, or not of the sort asked
    NotNamed = 5, // the naming rule broken, or a last row that is no task
    NotSmall = 6, // a type row over 8 leaves (CR 4), or over 16 binders or marks
    NotTyped = 7, // no typing for the last row as a task
    EventNotRead = 8, // an event that cannot be read, or a look's role that is none
    NotHandled = 9, // no handling rule derives a step
    NotAccepted = 20, // rows that no accepted sheet loads to
    WrongMemory = 21, // rows memory at load, state or value memory not of its exact length
    NotState = 22, // not the writing of a state
    NotAtRest = 23, // normalising would change it
    ListTooShort = 24, // list memory under 35 bytes an entry (CR 4)
    OtherRole = 30, // a step is derived, but a row of kind 50 passed has another role (CR 6)
    NoTouch = 31, // all of them have the role, but one has no touch left (CR 6)
}

// Its number in 01.
impl From<Ground> for u32 {
    ghost from_gives = { λ g n. n ≡ number_of_ground g };

    fn from(ground: Ground) -> u32 {
        ground as u32
    }
}
