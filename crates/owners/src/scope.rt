// An open scope: its binder, and the innermost function body that encloses what the binder holds, or 0: the store keeps it as a byte.
#[derive(Clone, Copy, Default)]
pub(crate) struct Scope {
    pub(crate) binder: u8,
    pub(crate) function: u8,
}
