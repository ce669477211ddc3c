#![tactic(auto)]

// Laws on a `match` with ranges against a table, in proofs/. No code.
