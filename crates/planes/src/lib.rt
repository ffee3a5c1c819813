// A plane, built whole from the stages of `builder`: open-svpflow's super_build.rs.
//     later      later levels, each in its way
//     level0     the source plane's rows, which level 0 is copied from
//     build      a plane, built whole
#![tactic(auto)]

pub mod build;
mod later;
mod level0;
