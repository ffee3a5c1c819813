// Where a plane's levels lie in a frame, by record, shifts and pitch; what such a layout is refused for; and of its bytes a row and a level's margins: open-svpflow's super_build.rs. Inner calls: `stored` and `lookups` make the public ones of them.
//     layout     what settles a layout, and a level's region
//     level      a level that is there
//     levels     the numbers of one level, and the refusals of a layout
//     fitting    a layout that isn't refused
//     descent    a walk down the levels
//     lent       what a build needs of the slices that it is lent
//     rows       a row of a frame
//     margins    clearing the margins of a level
#![tactic(auto)]

pub mod descent;
pub mod fitting;
pub mod layout;
pub mod lent;
pub mod level;
pub mod levels;
pub mod margins;
pub mod rows;
