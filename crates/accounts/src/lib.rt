// Ledger and account, and the engine on lists of postings, which answers as they do.

#![tactic(auto)]
