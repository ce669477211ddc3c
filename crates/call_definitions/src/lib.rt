#![tactic(auto)]

// The calls as definitions on lists, and the theorem on all lists of look and handle calls. There is no function here: their code
// stands in crate flow, whose contracts are equations with these definitions.
