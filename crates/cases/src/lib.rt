// The page's cases A to J as one table, over the definitions that the contracts of the checker and the scheduler cite. It has no function.
#![tactic(auto)]
