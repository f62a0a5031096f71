use st_words::Value;

/// A pair of the log: a number and the value that it has.
#[derive(Drop)]
pub struct Ordered {
    pub number: u32,
    pub value: Value,
}
