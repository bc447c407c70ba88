// The sizes of the format, and of the memory that calls are lent.

/// The tracks of a group.
pub const TRACKS: usize = 46;

/// The bytes of a group.
pub const GROUP: usize = 126_632;

/// The bytes of each of its 22 sub-groups.
pub const SUB_GROUP: usize = 5756;

/// The bytes of a row, which are those that a track carries besides its check bytes.
pub const ROW: usize = 2912;

/// The bytes of the 46 rows of a group.
pub const ROWS: usize = TRACKS * ROW;

/// The bytes of the array of a track: 128 blocks of 32.
pub const ARRAY: usize = 4096;

/// The bytes of a bench: 46 rows, and an array.
pub const BENCH: usize = ROWS + ARRAY;

/// The blocks of a track.
pub const BLOCKS: usize = 128;

/// The bytes of a block.
pub const BLOCK_BYTES: usize = 32;

/// The channel words of a block: a sync word, three labels, and the bytes.
pub const BLOCK_WORDS: usize = 36;

/// The channel words of a track, which are the numbers of a track buffer.
pub const TRACK_WORDS: usize = BLOCKS * BLOCK_WORDS;
