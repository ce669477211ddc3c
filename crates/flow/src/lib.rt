// The four calls over lent memory (01, "Four calls"). Their contracts are equations with the definitions of crate call_definitions (load: of
// crate sheet), and none has a requires.
#![tactic(auto)]

pub use sheet::load; // the call load

pub mod answer; // an answer's number
pub mod start; // the call start
pub mod look; // the call look, and the function below it that states the whole list
pub mod touch; // the call handle
mod firsts; // the cells' first contents
mod failed; // a last row that failed as a whole
mod open; // grounds 20 to 23: rows and a state copied in and checked
mod event; // an event's bytes, read
mod take; // an event that is read, taken by a flow
