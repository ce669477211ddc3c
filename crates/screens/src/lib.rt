// Screens (01, "A session in full"): what a session prints after its sheet and after each event, in lent memory. A program above
// reads, calls and prints. What a screen is stands in specs/Screens.antt.
#![tactic(auto)]

pub mod count; // the row count
pub mod head; // the head line
pub mod turn; // the screens of a sheet and of an event
