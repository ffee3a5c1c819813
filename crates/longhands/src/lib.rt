// The longhand record, document 02's own: a record of settings as bytes, written and read.
//     little_endian  numbers as bytes
//     kind1          the body of a longhand record of kind 1
//     longhand       the longhand record: written and read
#![tactic(auto)]

mod kind1;
mod little_endian;
pub mod longhand;
