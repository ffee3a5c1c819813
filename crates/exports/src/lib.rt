// The door for programs in C and Rust, over `settings`, `longhands`, `layouts`, `stored`, `lookups`, `planes`, `frames` and `answers`: functions on numbers and slices. Each but `sill_prepare_alike` answers 0 or the number of a refusal; what it tells goes to the front of a slice that it is lent, and a refusal changes nothing, but for the place that `sill_longhand_read` tells with 16. `fields` are the ten numbers of a record.
//     words       `sill_check` .. `sill_super_sizes`: settings, records and words
//     longhand    `sill_longhand_write`, `sill_longhand_read`: a record spelled out as bytes
//     plane       `sill_layout` .. `sill_build_plane`: a plane of a frame, by its layout
//     frame       `sill_frame_parts` .. `sill_build_frame`: all three planes of a frame
#![tactic(auto)]

pub mod frame;
pub mod longhand;
pub mod plane;
pub mod words;
