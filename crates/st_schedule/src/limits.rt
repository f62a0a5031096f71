/// How many messages a replay hands out at most.
pub const MOST_MESSAGES: u32 = 65_536;

/// How many bytes the messages of a replay have together at most.
pub const MOST_SENT: u64 = 33_554_432;

/// How many bytes a journal's file has at most.
pub const MOST_JOURNAL: u64 = 4_294_967_296;

/// How many bytes a journal's file has before its first body.
pub const EMPTY_JOURNAL: u64 = 9;

/// How many bytes an operation has at most.
pub const MOST_OPERATION: usize = 1_024;

/// How many messages one flow delivers at most.
pub const MOST_FLOW: u32 = 4_000_000;

/// Which device call from now on a stop may set to fail at most.
pub const MOST_CALL: u32 = 65_536;
