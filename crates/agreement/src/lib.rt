// What the crates promise together: theorems about the promises of several functions (a writer, the reader and the walker; the C functions of stored
// forms), that no one of them can state.
#![tactic(auto)]
