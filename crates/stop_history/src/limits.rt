//! The limits of a roster, of its tracers, and of the stops of a row. The definitions cite these constants.

/// How many rows a roster has at most: as many as a byte has values, so that a row's births and its rank fit a byte.
pub const MOST_ROWS: usize = 256;

/// The greatest id of a thread, a thread group or a process group; the least is 1.
pub const LAST_ID: u32 = 4_194_303;

/// How many tracers there are at most: 0 to 15.
pub const TRACERS: u32 = 16;

/// The number of a row's last possible stop; the first stop has number 1.
pub const LAST_NUMBER: u32 = 16_777_215;
