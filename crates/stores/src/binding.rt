// A variable bound to a thing, and the birthplace of that binding.
#[derive(Clone, Copy, Default)]
pub struct Binding<T> {
    pub variable: u8,
    pub thing: T,
    pub birthplace: u8,
}
