// Lists: definitions and laws that name nothing of the engine.

#![tactic(auto)]
