// The line that tells a verdict. Its bytes are in specs/; the crate has no function.
#![tactic(auto)]
