// Probes and the lists that they hold: each call on bytes is the call on lists, seen through what the bytes decode to.

#![tactic(auto)]
