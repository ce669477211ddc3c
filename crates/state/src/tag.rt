// The tags of a state's rows (docs/STATE.md), each with its word; 0 is none, of a row that is not live.
ghost use Rattle.std.specs.Prelude.{◌≡◌, ◌<◌};
ghost use Rattle.rows.specs.Rows.{max_rows};
ghost use Rattle.state.specs.Layout.{at};
ghost use Rattle.state.specs.Tags.{tag_word, Decodes, IsTag};

use crate::{STATE_SIZE, read};

// Which of the things that a row may be.
#[derive(Clone, Copy, PartialEq, Eq)]
pub enum Tag {
    Own = 1, // the row's own form
    One = 2, // the first of two things that it may have become
    Other = 3, // the second
    Whole = 4, // the last row, failed as a whole (CR 3)
}

// A word that is no tag's.
#[derive(Clone, Copy, PartialEq, Eq)]
pub struct UnknownTag(pub u32);

impl From<Tag> for u32 {
    ghost from_gives = { λ t w. w ≡ tag_word t };

    fn from(tag: Tag) -> u32 {
        tag as u32
    }
}

impl TryFrom<u32> for Tag {
    type Error = UnknownTag;

    ghost try_from_gives = { Decodes };

    fn try_from(word: u32) -> Result<Self, UnknownTag> {
        match word {
            1 => Ok(Tag::Own),
            2 => Ok(Tag::One),
            3 => Ok(Tag::Other),
            4 => Ok(Tag::Whole),
            _ => Err(UnknownTag(word)),
        }
    }
}

// The tag of a row, where it has one.
pub fn tag_at(state: &[u32; STATE_SIZE], row: usize) -> Option<Tag>
    requires { row < max_rows }
    ensures { IsTag result (at state.now row 0) }
{
    Tag::try_from(read(state, row, 0)).ok()
}
