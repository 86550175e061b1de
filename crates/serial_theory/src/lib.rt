// The multiversion graph of a log under a version order, serial orders, and the theorem that joins them. It speaks of events and stamps only,
// of no byte and of no scheduler's state. It has no function.
#![tactic(auto)]
