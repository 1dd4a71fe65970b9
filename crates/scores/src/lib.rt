// What a query's identifiers weigh: each one judged and kept with the weight of its N and F, and then all of them together, window by window.
#![tactic(auto)]

pub mod counting; // one identifier: judged, and kept as a term
pub mod scoring; // the second pass, over all terms together
