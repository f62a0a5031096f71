/// How many bytes an input has at most.
pub const MOST_INPUT: usize = 67_108_864;

/// How many event lines an input has at most.
pub const MOST_LINES: usize = 65_536;

/// How many bytes an event line has at most, without its end.
pub const LONGEST_LINE: usize = 9_437_184;
