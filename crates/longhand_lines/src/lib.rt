// The lines of the program `longhand`: what it prints for a line of its input.
//     fields        a line into fields, and a field as a setting
//     hex           bytes as hexadecimal digits
//     longhand      a line with a longhand record, or with settings
#![tactic(auto)]

mod fields;
mod hex;
pub mod longhand;
