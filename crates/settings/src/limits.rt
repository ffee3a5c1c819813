// The limits of document 01, each named once. specs/Limits.antt has the same numbers where a contract has them.

// The largest width and height of a picture.
pub const MOST_SIDE: i32 = 16384;

// The largest pitch of a frame or a source.
pub const MOST_PITCH: usize = 32768;

// The levels of the largest picture.
pub const MOST_LEVELS: usize = 13;

// The largest count that the six bits of a word hold.
pub const MOST_PACKED: u32 = 63;
