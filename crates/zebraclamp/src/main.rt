// Reads cases from standard input, or from the files that are named as arguments, and prints what came of each command.
#![tactic(auto)]

mod cases;
mod drafts;
mod entries;
mod findings;
mod inquiries;
mod lines;
mod notation;
mod scripts;
mod verdicts;

use crate::cases::{Failure, Session, Tally};
use crate::lines::Mistake;
use std::fs::File;
use std::io::{BufRead, BufReader, Read};
use std::{env, io};

// The lines of one source, which `source` names in error lines, and what has come of them.
#[derive(Drop)]
struct Replay<'a> {
    rt: &'a HostRuntime,
    tally: &'a mut Tally,
    source: &'a str,
    line: usize,
    session: Session,
}

impl<'a> Replay<'a> {
    fn new(rt: &'a HostRuntime, tally: &'a mut Tally, source: &'a str) -> Replay<'a> {
        Replay {
            rt,
            tally,
            source,
            line: 0,
            session: Session::new(rt.alloc()),
        }
    }

    fn run<R: Read + Drop>(mut self, reader: R) -> io::Result<()> {
        let heap = self.rt.alloc();
        let lines = BufReader::new(heap, reader)?.lines(heap);
        for (line, text) in (1..=usize::MAX).zip(lines) {
            self.line = line;
            match text {
                Ok(text) => self.reply(text.as_str())?,
                Err(e) if matches!(e.kind(), io::ErrorKind::InvalidData) => {
                    self.complain(Mistake::Garbled)?;
                }
                Err(_) => return self.complain(Mistake::Unreadable),
            }
        }
        Ok(())
    }

    fn reply(&mut self, line: &str) -> io::Result<()> {
        match self.session.reply(line) {
            Ok(None) => Ok(()),
            Ok(Some(answer)) => {
                self.tally.command(&answer);
                println!(self.rt; "{answer}")
            }
            Err(Failure::Mistake(mistake)) => self.complain(mistake),
            Err(Failure::NoMemory(error)) => Err(error.into()),
        }
    }

    // tells a mistake, and leaves the case
    fn complain(&mut self, mistake: Mistake<'_>) -> io::Result<()> {
        self.session.break_off();
        self.tally.error();
        println!(self.rt; "error {}:{}: {mistake}", self.source, self.line)
    }
}

fn replay_file(rt: &HostRuntime, tally: &mut Tally, name: &str) -> io::Result<()> {
    match File::open(rt, name) {
        Ok(file) => Replay::new(rt, tally, name).run(file),
        Err(_) => {
            tally.error();
            println!(rt; "error {name}: expected a file, found none that can be opened")
        }
    }
}

fn main(rt: HostRuntime) -> io::Result<()> {
    let mut tally = Tally::default();
    let mut names = env::args(&rt)?.skip(1).peekable();
    if names.peek().is_none() {
        Replay::new(&rt, &mut tally, "stdin").run(rt.stdin())?;
    }
    for name in names {
        replay_file(&rt, &mut tally, name.as_str())?;
    }
    println!(rt; "{tally}")
}
