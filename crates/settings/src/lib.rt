// Settings, the records that they make, and the words that records pack to: open-svpflow's super_opts.rs.
//     limits      the product's limits, each named once
//     refusal     why a call is refused: the numbers of documents 01 and 02
//     numbers     integers and bools read as numbers
//     record      a record that passed the check
//     super_opts  settings, `SuperOpts` and its calls: check, accepted, word, super sizes
//     word        a word read back, and two words compared
#![tactic(auto)]

pub mod limits;
pub mod numbers;
pub mod record;
pub mod refusal;
pub mod super_opts;
pub mod word;
