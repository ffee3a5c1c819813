// The stages of a build, in a frame and its spill: open-svpflow's super_build.rs. Inner calls: `planes` makes the build of them.
//     canvas     a frame and its spill as one run of bytes
//     vertical   a row of a later level before it is halved
//     halving    later levels from the level before, inside the frame
//     separate   level 1 from the source plane, where level 0 isn't stored
//     refining   the planes of level 0 between its places
#![tactic(auto)]

pub mod canvas;
pub mod halving;
pub mod refining;
pub mod separate;
mod vertical;
