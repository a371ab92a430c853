use crate::value::Value;

// A term that waits for a value.
#[derive(Clone, Copy)]
pub enum Frame {
    // its first operand is under way
    Awaiting(u8),
    // its second operand is under way; the first one's value is kept
    Holding {
        label: u8,
        first: Value,
    },
    // the body that it entered is under way; the frame of a marked binder keeps the binding's value
    Scope {
        label: u8,
        binder: u8,
        kept: Option<Value>,
    },
}
