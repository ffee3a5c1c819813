// A frame of all three planes, Y, U and V: open-svpflow's portable.rs, `SuperBuilder` and `SuperFrame`.
//     framed     a record that such a frame takes
//     parts      where the planes lie in it, and a row of one
//     build      the three, built in one call
#![tactic(auto)]

pub mod build;
mod framed;
pub mod parts;
