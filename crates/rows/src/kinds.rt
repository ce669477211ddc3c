// The kinds of rows (01, "The sheet"; CR 1 and CR 6), each with its number. The table of what they ask is specs/Kinds.antt.
ghost use Rattle.std.specs.Prelude.{◌≡◌, ◌<◌};
ghost use Rattle.rows.specs.Kinds.{number_of};
ghost use Rattle.rows.specs.KindsInCode.{in_table, Decodes, IsKind};
ghost use Rattle.rows.specs.Rows.{max_rows, word};

use crate::{ROWS_WORDS, get};

// What a row is.
#[derive(Clone, Copy, PartialEq, Eq)]
pub enum Kind {
    // types
    UnitType = 1,
    TruthType = 2,
    NumberType = 3,
    PairType = 4,
    // a cell of the store
    Cell = 10,
    // plain expressions; if and let are tasks where their branches are
    Unit = 20,
    Truth = 21,
    Number = 22,
    Binder = 23,
    Operator = 24,
    If = 25,
    Pair = 26,
    First = 27,
    Second = 28,
    Read = 29, // a cell's content
    Assign = 30, // into a cell
    Let = 31,
    // tasks
    Edit = 40, // an editor with a content
    Enter = 41, // an empty editor of a type
    Update = 42, // an editor of a cell
    Then = 43, // a step that goes on by itself
    Next = 44, // a step that waits for Continue
    Fail = 45,
    And = 46, // both
    Or = 47, // the first of two that has a value
    Xor = 48, // one of two that the user picks
    View = 49, // a value shown (CR 1)
    Gate = 50, // a task for a role, with so many touches (CR 6)
}

// A word that is the number of no kind.
#[derive(Clone, Copy, PartialEq, Eq)]
pub struct UnknownKind(pub u32);

// Its number in 01.
impl From<Kind> for u32 {
    ghost from_gives = { λ k n. n ≡ number_of (in_table k) };

    fn from(kind: Kind) -> u32 {
        kind as u32
    }
}

impl TryFrom<u32> for Kind {
    type Error = UnknownKind;

    ghost try_from_gives = { Decodes };

    fn try_from(word: u32) -> Result<Self, UnknownKind> {
        match word {
            1 => Ok(Kind::UnitType),
            2 => Ok(Kind::TruthType),
            3 => Ok(Kind::NumberType),
            4 => Ok(Kind::PairType),
            10 => Ok(Kind::Cell),
            20 => Ok(Kind::Unit),
            21 => Ok(Kind::Truth),
            22 => Ok(Kind::Number),
            23 => Ok(Kind::Binder),
            24 => Ok(Kind::Operator),
            25 => Ok(Kind::If),
            26 => Ok(Kind::Pair),
            27 => Ok(Kind::First),
            28 => Ok(Kind::Second),
            29 => Ok(Kind::Read),
            30 => Ok(Kind::Assign),
            31 => Ok(Kind::Let),
            40 => Ok(Kind::Edit),
            41 => Ok(Kind::Enter),
            42 => Ok(Kind::Update),
            43 => Ok(Kind::Then),
            44 => Ok(Kind::Next),
            45 => Ok(Kind::Fail),
            46 => Ok(Kind::And),
            47 => Ok(Kind::Or),
            48 => Ok(Kind::Xor),
            49 => Ok(Kind::View),
            50 => Ok(Kind::Gate),
            _ => Err(UnknownKind(word)),
        }
    }
}

// The kind of a row, where its first word is that of one.
pub fn kind_at(rows: &[u32; ROWS_WORDS], row: usize) -> Option<Kind>
    requires { row < max_rows }
    ensures { IsKind result (word rows.now row 0) }
{
    Kind::try_from(get(rows, row, 0)).ok()
}

// 01's "kind 20 or more" begins here.
pub const FIRST_EXPRESSION: u32 = Kind::Unit as u32;
