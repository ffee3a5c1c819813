// What is asked of a frame by a record and its stored layout. Document 02, order 5.
//     ends       where the levels end, and what a build needs
//     lent       what a build is refused for
//     rows       a row of a frame, and a level's plane
//     margins    clearing the margins of a frame's levels
#![tactic(auto)]

pub mod ends;
pub mod lent;
pub mod margins;
pub mod rows;
