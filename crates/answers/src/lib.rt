// What the library's calls take and tell as numbers, and an answer put into a slice that is lent for it. Inner calls: `exports` makes the library of them.
//     given      settings by bits and numbers
//     record     numbers to a record and back
//     told       what a word tells, as numbers
//     sizes      what a build needs, where a level's plane lies and where the parts of a frame lie, as numbers
//     room       an answer put into a lent slice, and the number where that is too short
#![tactic(auto)]

pub mod given;
pub mod record;
pub mod room;
pub mod sizes;
pub mod told;
