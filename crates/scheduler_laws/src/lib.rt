// What a call changes and leaves alone, and what holds of every state and log that a fresh start and calls lead to. It has no function.
#![tactic(auto)]
