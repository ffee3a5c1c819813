// A plane's layout, stored: made once, tested and changed. What is asked of a frame by it is in `lookups`. Document 02, order 5.
//     layout     making, the test and changing
//     passed     numbers that passed the test
#![tactic(auto)]

pub mod layout;
pub mod passed;
