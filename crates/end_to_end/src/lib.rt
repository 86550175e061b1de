// What any calls from a fresh start leave, joined with the theory of the checker: demand 3, and beside it what keeps it from holding emptily.
// It has no function.
#![tactic(auto)]
