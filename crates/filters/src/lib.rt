// Rows in, one row out: all that a build does to bytes, each as one call. The kernels and rows of open-svpflow's super_build.rs.
//     rows        means of two rows, copies, zeros, a row from a place on
//     halving     `ReduceFilter`: a row from six rows, and a row of pairs halved, once it is taken apart
//     half_pel    `HalfPel`: the samples half a place on, along a row and down the rows
//     six         inner: the row from six rows that both make
// A row is received as the part that it is of a plane, and written to a row that is lent.
#![tactic(auto)]

pub mod half_pel;
pub mod halving;
pub mod rows;
mod six;
