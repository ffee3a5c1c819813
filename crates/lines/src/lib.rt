// Lines of text: what the program `words` prints for a line of its input, and what a line is made of.
//     limits        how much input the programs take, and how much they print
//     text          digits in, and a line that is being made; a line with a word
//     parting       where a line ends
#![tactic(auto)]

pub mod limits;
pub mod parting;
pub mod text;
