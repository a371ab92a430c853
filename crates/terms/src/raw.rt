// A row of the term table as it is handed in: the kind too is any number, right or wrong.
#[derive(Clone, Copy)]
pub struct RawTerm {
    pub kind: u32,
    pub a: u32,
    pub b: u32,
    pub c: u32,
}

// A definition as it is handed in. The kinds are numbers here, since any number may be handed in, right or wrong.
#[derive(Clone, Copy)]
pub struct RawDefinition {
    pub kind: u32,
    pub x: u32,
    pub y: u32,
    pub root: u32,
}
