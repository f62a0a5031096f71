/// How many bytes a seal has at most.
pub const MOST_SEAL: u16 = 5_076;

/// How many bytes a message has at most.
pub const MOST_BYTES: usize = 4_194_304;
