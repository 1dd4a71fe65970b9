// The three demands, stated as theorems on one page.

#![tactic(auto)]
