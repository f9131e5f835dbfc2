//! What the arguments ask for, word by word.

use crate::messages::{complain, say};
use crate::table;
use crate::table::{Command, Flag};
use iloc_normalize::Mode;
use std::alloc::Global;
use std::env::FillError;
use std::rt::Env;
use std::str;

/// Room for a word: the longest name that the system takes.
pub const WORD: usize = 4096;

/// The status after wrong arguments, and after an input or the output failed.
pub const TROUBLE: u8 = 2;

/// What is done with lines: which options were met, and the words behind two of them.
#[derive(Clone, Copy)]
pub struct Settings {
    met: Flag,
    pub mode: Mode,
    /// Whether parts are written as JSON.
    pub is_json: bool,
}

impl Settings {
    /// Whether one of these options was met.
    pub fn has(&self, flags: Flag) -> bool {
        self.met & flags != 0
    }
}

/// What the program is to do.
#[derive(Clone, Copy)]
pub enum Asked {
    /// A text is shown.
    Text(&'static str),
    /// Lines are answered.
    Lines(Command),
    /// The arguments are wrong, which was said.
    Nothing,
}

// Why no more words are read.
#[derive(Clone, Copy)]
enum Stop<'a> {
    // All is said.
    Asked(Asked),
    // A word is wrong: why, and what is shown of it.
    Wrong(&'static str, &'a [u8]),
    OutOfMemory,
}

/// The words so far.
#[derive(Drop)]
pub struct Words {
    command: Option<Command>,
    /// What is done with lines.
    pub settings: Settings,
    /// Where the files stand among the arguments.
    pub files: Vec<usize>,
    // The option that waits for a word, if one does.
    waiting: Flag,
    // Whether all words are files from here on.
    is_ended: bool,
}

impl Words {
    /// Those before the first one.
    pub fn new(alloc: Global) -> Words {
        Words {
            command: None,
            settings: Settings {
                met: 0,
                mode: Mode::Locale,
                is_json: false,
            },
            files: Vec::new(alloc),
            waiting: 0,
            is_ended: false,
        }
    }

    /// Reads all words, and says what is wrong with the first that is.
    pub fn read(&mut self, rt: &(impl Env + Eprint)) -> Asked {
        for at in 1..usize::MAX {
            let mut room = [0u8; WORD];
            let count = match rt.arg(at, &mut room) {
                Ok(count) => count,
                Err(FillError::TooLong) => {
                    let what = "an argument is longer than the name of a file can be";
                    return wrong(rt, what, b"");
                }
                Err(FillError::NotPresent) => return self.end(rt),
            };
            match self.read_bytes(at, &room[..count]) {
                Ok(()) => {}
                Err(Stop::Asked(asked)) => return asked,
                Err(Stop::Wrong(what, shown)) => return wrong(rt, what, shown),
                Err(Stop::OutOfMemory) => {
                    say(rt, "out of memory");
                    return Asked::Nothing;
                }
            }
        }
        Asked::Nothing
    }

    // What is asked for once all words are read.
    fn end(&self, rt: &impl Eprint) -> Asked {
        let lacking = match (self.waiting, self.command) {
            (table::MODE, _) => "--mode wants a word: langid, locale or data",
            (table::FORMAT, _) => "--format wants a word: tsv or json",
            (_, Some(command)) => return Asked::Lines(command),
            (_, None) => "no command: normalize, check or parts",
        };
        wrong(rt, lacking, b"")
    }

    // Reads the bytes of a word.
    fn read_bytes<'a>(&mut self, at: usize, word: &'a [u8]) -> Result<(), Stop<'a>> {
        match str::from_utf8(word) {
            Ok(text) => self.read_word(at, text),
            Err(_) => Err(Stop::Wrong("an argument is no UTF-8: ", word)),
        }
    }

    // Reads the word at that place.
    fn read_word<'a>(&mut self, at: usize, word: &'a str) -> Result<(), Stop<'a>> {
        if self.waiting != 0 {
            return self.read_value(self.waiting, word);
        }
        if self.is_ended {
            return self.add_file(at);
        }
        match word.as_bytes() {
            [b'-', b'-'] => {
                self.is_ended = true;
                return Ok(());
            }
            [b'-', b'-', ..] => return self.read_long(word),
            [b'-', _, ..] => return self.read_short(word),
            _ => {}
        }
        if self.command.is_some() {
            return self.add_file(at);
        }
        self.command = table::command_of(word);
        match self.command {
            Some(_) => Ok(()),
            None => Err(Stop::Wrong("unknown command ", word.as_bytes())),
        }
    }

    fn add_file(&mut self, at: usize) -> Result<(), Stop<'static>> {
        match self.files.push(at) {
            Ok(()) => Ok(()),
            Err(_) => Err(Stop::OutOfMemory),
        }
    }

    // Reads an option by its name, with what stands behind a `=`.
    fn read_long<'a>(&mut self, word: &'a str) -> Result<(), Stop<'a>> {
        let end = word.as_bytes().iter().position(|byte| *byte == b'=');
        let name = word.get(2..end.unwrap_or(word.len())).unwrap_or("");
        let flag = table::flag_named(name) & table::flags_of(self.command);
        if flag == 0 {
            return Err(Stop::Wrong("unknown option ", word.as_bytes()));
        }
        match end {
            None => self.meet(flag),
            Some(end) if flag & table::WITH_WORD != 0 => {
                self.read_value(flag, word.get(end.saturating_add(1)..).unwrap_or(""))
            }
            Some(_) => Err(Stop::Wrong("no word may follow this option ", word.as_bytes())),
        }
    }

    // Reads options by their letters. What follows one that takes a word is that word.
    fn read_short<'a>(&mut self, word: &'a str) -> Result<(), Stop<'a>> {
        for at in 1..word.len() {
            let next = at.saturating_add(1);
            let flag = table::flag_lettered(word.as_bytes()[at]) & table::flags_of(self.command);
            if flag == 0 {
                let shown = word.get(at..next).or(word.get(1..)).unwrap_or("");
                return Err(Stop::Wrong("unknown option -", shown.as_bytes()));
            }
            let value = word.get(next..).unwrap_or("");
            if flag & table::WITH_WORD != 0 && !value.is_empty() {
                return self.read_value(flag, value);
            }
            self.meet(flag)?;
        }
        Ok(())
    }

    // Meets an option. One that takes a word waits for it.
    fn meet(&mut self, flag: Flag) -> Result<(), Stop<'static>> {
        match (flag, self.command) {
            (table::HELP, Some(command)) => Err(Stop::Asked(Asked::Text(table::help_of(command)))),
            (table::HELP, None) => Err(Stop::Asked(Asked::Text(table::HELP_TEXT))),
            (table::VERSION, _) => Err(Stop::Asked(Asked::Text(table::VERSION_TEXT))),
            (table::MODE | table::FORMAT, _) => {
                self.waiting = flag;
                Ok(())
            }
            _ => {
                self.settings.met |= flag;
                Ok(())
            }
        }
    }

    // Notes the word behind an option.
    fn read_value<'a>(&mut self, flag: Flag, value: &'a str) -> Result<(), Stop<'a>> {
        self.waiting = 0;
        if flag == table::MODE {
            let Some(mode) = Mode::from_word(value) else {
                let what = "--mode is langid, locale or data, and not ";
                return Err(Stop::Wrong(what, value.as_bytes()));
            };
            self.settings.mode = mode;
            return Ok(());
        }
        self.settings.is_json = match value {
            "tsv" => false,
            "json" => true,
            _ => {
                let what = "--format is tsv or json, and not ";
                return Err(Stop::Wrong(what, value.as_bytes()));
            }
        };
        Ok(())
    }
}

// Says what is wrong with the arguments, and what is shown of them.
fn wrong(rt: &impl Eprint, what: &str, shown: &[u8]) -> Asked {
    complain(rt, what, shown);
    Asked::Nothing
}
