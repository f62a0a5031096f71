use st_words::{LocalView, ServerId, View};

/// Where a server stands: who it is, its site's and deployment's numbers, and its short state.
#[derive(Clone, Copy, Debug, PartialEq, Eq)]
pub struct Here {
    pub id: u64,
    pub me: ServerId,
    pub sites: u8,
    pub f: u8,
    pub view: View,
    pub local: LocalView,
    /// How many numbers it executed.
    pub executed: u32,
    /// The next leaf: how many seals it made.
    pub leaf: u32,
    /// How many seals its key has.
    pub capacity: u32,
}
