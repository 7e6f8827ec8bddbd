//! The statuses with which a job ends.

/// The program gave a value, and the report was written.
pub const VALUE: u8 = 0;

/// The text was refused, and the refusal was written.
pub const REFUSED: u8 = 1;

/// The words name no job, and the usage line was written.
pub const USAGE: u8 = 2;

/// The program trapped, and the report was written.
pub const TRAP: u8 = 3;

/// The file could not be read, and nothing was written.
pub const NOT_READ: u8 = 5;

/// What is due could not be written whole.
pub const NOT_WRITTEN: u8 = 6;

/// There was no memory for the job, and nothing was written.
pub const WANT: u8 = 7;

/// The text passes a limit, and the limit was written.
pub const LIMIT: u8 = 8;
