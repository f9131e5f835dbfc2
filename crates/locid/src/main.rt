//! Unicode locale identifiers for people: `locid normalize`, `locid check` and `locid parts` over files.
#![tactic(auto)]

mod checking;
mod inputs;
mod json;
mod lines;
mod naming;
mod parting;
mod parts;
mod preparing;
mod streams;

use crate::inputs::{Inputs, complain_of_output};
use locid_options::words::{Asked, TROUBLE, Words};
use std::io;
use std::io::Write;
use std::process::ExitCode;

fn main(rt: HostRuntime) -> ExitCode {
    let mut words = Words::new(rt.alloc());
    ExitCode::from(match words.read(&rt) {
        Asked::Text(text) => show(&rt, text),
        Asked::Lines(command) => {
            let mut inputs = Inputs::new(command, &words, io::writer(&rt));
            inputs.answer(&rt, &words)
        }
        Asked::Nothing => TROUBLE,
    })
}

// Shows a text, and returns the status.
fn show(rt: &(impl Print + Eprint + AllocGlobal), text: &str) -> u8 {
    match io::writer(rt).write_all(text.as_bytes()) {
        Ok(()) => 0,
        Err(error) => complain_of_output(rt, Some(error)),
    }
}
