// Records and answers in the memory that a caller lends, for every function that C and Rust link.
#![tactic(auto)]

pub mod answer; // answer.rt: what an answer shows
pub mod channels; // channels.rt: what a call of the filter changes, alone
pub mod filter; // filter.rt: the filter
pub mod record; // record.rt: a record, or a part of one
