// What a binding of `variable` covers: the thing and birthplace of the binding that was current before it, if there was one.
#[derive(Clone, Copy, Default)]
pub struct Saved<T> {
    pub variable: u8,
    pub covered: Option<(T, u8)>,
}
