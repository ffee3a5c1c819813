// The bytes of input that a program takes, and those that it prints at most: the newline that a last line may lack counts too. specs/Limits.antt has the same numbers.
pub const MOST_INPUT: usize = 65536;

pub const MOST_OUTPUT: usize = 16 * (MOST_INPUT + 1);
