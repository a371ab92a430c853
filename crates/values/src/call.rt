use crate::value::Value;
use faults::Fault;

// What a host asks of a run.
#[derive(Clone, Copy)]
pub enum Call {
    Feed { variable: u8, number: u32 },
    Start,
    Step,
    Run(u32),
}

// What one step tells. The number and the label of a stop are those of its fault.
#[derive(Clone, Copy)]
pub enum Report {
    Plain,
    Read {
        label: u8,
        birthplace: u8,
        value: Value,
    },
    Assigned {
        label: u8,
        birthplace: u8,
        value: Value,
    },
    Ended(Value),
    Stopped(Fault),
}

// What a call answers that is not refused; a run tells how many steps it did and the last report.
#[derive(Clone, Copy)]
pub enum Answer {
    Done,
    Stepped(Report),
    Ran { count: u32, last: Report },
}
