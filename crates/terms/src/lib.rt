// The terms of a query: an identifier's lists in the finished partitions and in the buffer, opened once, and judged and counted by the k-way merge of their heads.
#![tactic(auto)]

pub mod judging; // judging what is read of an identifier
pub mod opening; // finding the lists of an identifier
