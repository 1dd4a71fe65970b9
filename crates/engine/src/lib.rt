// The engine's public calls in one place. Each asks nothing of its caller, and promises its answer, the state and every buffer lent as its definition
// says, whatever it is given. Step and query are here by value; `jobs::step` is lent the record of the merge, and `hits::query` a list for its hits.
#![tactic(auto)]

pub use batches::remove_all;
pub use events::event;
pub use flushes::flush;
pub use forecasts::forecast;
pub use means::mean;
pub use merges::step as step_value;
pub use queries::search as query_value;
pub use removals::remove;
pub use windows::{close, open, start};
