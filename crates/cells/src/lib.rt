// The working cells and what they are worked from: where the cells stand and whether they are
// within the limit, the times of a line, the sums of those who leave, the book of both, and what
// the two choices cost along a run. Nothing here writes a cell.
#![tactic(auto)]

pub mod book;
pub mod costs;
pub mod limits;
pub mod place;
pub mod sources;
pub mod sums;
pub mod timing;
