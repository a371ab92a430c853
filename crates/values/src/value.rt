// What a term evaluates to. A function is known by its body's label, a pair by its number, from 0.
#[derive(Clone, Copy)]
pub enum Value {
    Number(u32),
    Symbol(u8),
    Function(u8),
    Pair(u16),
}

// A pair: the label of the cons term that made it, and its halves.
#[derive(Clone, Copy)]
pub struct ConsCell {
    pub cons: u8,
    pub first: Value,
    pub second: Value,
}
