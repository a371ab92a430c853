// The binder that owns an occurrence, and whether a function body lies between the two.
#[derive(Clone, Copy)]
pub(crate) struct Owner {
    pub(crate) binder: u8,
    pub(crate) captured: bool,
}
