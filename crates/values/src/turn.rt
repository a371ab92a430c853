use crate::call::Report;
use crate::value::Value;
use faults::Fault;

// What comes next in a row: a term is evaluated, or a value is returned to the newest frame.
#[derive(Clone, Copy)]
pub enum Next {
    Evaluate(u8),
    Return(Value),
}

// What a step comes to: the row goes on, it stops, or a value is left with no frame to take it.
#[derive(Clone, Copy)]
pub enum Turn {
    Goes { report: Report, next: Next },
    Stops(Fault),
    Gives(Value),
}
