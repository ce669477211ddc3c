#![tactic(auto)]

// What a shop is promised of two sheets that differ in their drawing alone (CR 5): theorems on the calls' definitions. There is no function
// here.
