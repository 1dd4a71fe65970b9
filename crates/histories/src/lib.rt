// Histories of calls: that the engine answers them as ledger and account do, and the worked cases.

#![tactic(auto)]
