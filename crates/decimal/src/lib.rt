// Fields of text: decimal numbers and paths, read and written (01, "The sheet", "Touches and what is shown").
// What they say stands in specs/Field.antt and specs/Path.antt. No function that another crate can call asks anything of its caller.
#![tactic(auto)]

pub mod field;
mod part;
pub mod path;
