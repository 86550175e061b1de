// Definitions and laws on decisions and lists that every floor above uses. It has no function.
#![tactic(auto)]
