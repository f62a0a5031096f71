use st_schedule::Dest;

/// A message, by its number, and a destination to which it wasn't delivered yet.
#[derive(Clone, Copy, Debug, PartialEq, Eq)]
pub struct Pair {
    pub message: u32,
    pub to: Dest,
}

/// A pair in its place; `gone` once it was taken out by itself.
#[derive(Clone, Copy, Debug)]
pub struct Slot {
    pub message: u32,
    pub to: Dest,
    pub gone: bool,
}
