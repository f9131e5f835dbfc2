//! What the program takes, and how it says so. tools/write_options writes this from tools/locid_options.txt.

/// What becomes of each line.
#[derive(Clone, Copy)]
pub enum Command {
    Normalize,
    Check,
    Parts,
}

/// Options, a bit for each.
pub type Flag = u16;

pub const MODE: Flag = 1 << 0;

pub const CLEAN: Flag = 1 << 1;

pub const NULL: Flag = 1 << 2;

pub const WHERE: Flag = 1 << 3;

pub const LINE_NUMBER: Flag = 1 << 4;

pub const ONLY_REFUSED: Flag = 1 << 5;

pub const SHOW: Flag = 1 << 6;

pub const FORMAT: Flag = 1 << 7;

pub const EXIT_STATUS: Flag = 1 << 8;

pub const QUIET: Flag = 1 << 9;

pub const COUNT: Flag = 1 << 10;

pub const HELP: Flag = 1 << 11;

pub const VERSION: Flag = 1 << 12;

/// The options behind which a word stands.
pub const WITH_WORD: Flag = MODE | FORMAT;

/// The command of that name.
pub fn command_of(word: &str) -> Option<Command> {
    match word {
        "normalize" => Some(Command::Normalize),
        "check" => Some(Command::Check),
        "parts" => Some(Command::Parts),
        _ => None,
    }
}

/// The option of that name, if there is one.
pub fn flag_named(name: &str) -> Flag {
    match name {
        "mode" => MODE,
        "clean" => CLEAN,
        "null" => NULL,
        "where" => WHERE,
        "line-number" => LINE_NUMBER,
        "only-refused" => ONLY_REFUSED,
        "show" => SHOW,
        "format" => FORMAT,
        "exit-status" => EXIT_STATUS,
        "quiet" => QUIET,
        "count" => COUNT,
        "help" => HELP,
        "version" => VERSION,
        _ => 0,
    }
}

/// The option of that letter, if there is one.
pub fn flag_lettered(letter: u8) -> Flag {
    match letter {
        b'm' => MODE,
        b'c' => CLEAN,
        b'0' => NULL,
        b'w' => WHERE,
        b'n' => LINE_NUMBER,
        b'o' => ONLY_REFUSED,
        b's' => SHOW,
        b'f' => FORMAT,
        b'e' => EXIT_STATUS,
        b'q' => QUIET,
        b'h' => HELP,
        b'V' => VERSION,
        _ => 0,
    }
}

/// The options of the command. Before a command there are --help and --version.
pub fn flags_of(command: Option<Command>) -> Flag {
    match command {
        None => HELP | VERSION,
        Some(Command::Normalize) => NORMALIZE_FLAGS,
        Some(Command::Check) => CHECK_FLAGS,
        Some(Command::Parts) => PARTS_FLAGS,
    }
}

const NORMALIZE_FLAGS: Flag = !(SHOW | FORMAT);

const CHECK_FLAGS: Flag = !(WHERE | LINE_NUMBER | ONLY_REFUSED | FORMAT | EXIT_STATUS);

const PARTS_FLAGS: Flag = !(WHERE | LINE_NUMBER | ONLY_REFUSED | SHOW | QUIET | COUNT);

/// What --help says of a command.
pub fn help_of(command: Command) -> &'static str {
    match command {
        Command::Normalize => NORMALIZE_HELP,
        Command::Check => CHECK_HELP,
        Command::Parts => PARTS_HELP,
    }
}

/// The version.
pub const VERSION_TEXT: &str = "locid 1.0.0\n";

/// What --help says without a command.
pub const HELP_TEXT: &str = "\
Usage: locid COMMAND [OPTION ..] [FILE ..]
Unicode locale identifiers, line by line.

  normalize  Writes the normal form of each line, or `! ` and why the line is refused.
  check      Writes where and why lines are refused, as FILE:LINE:COLUMN: REASON: SUBTAG: ADVICE.
  parts      Writes the parts of each line, in columns or as JSON.

locid COMMAND --help says what a command takes, and locid --version which version this is.
";

const NORMALIZE_HELP: &str = "\
Usage: locid normalize [OPTION ..] [FILE ..]
Writes the normal form of each line, or `! ` and why the line is refused.

With no FILE, or for a FILE -, it reads standard input.

  -m, --mode MODE      what a line is: an identifier of a language (langid), a
                       locale with its extensions (locale, if nothing is said) or a
                       locale by which data is found (data)
  -c, --clean          clean each line first: leave out a byte order mark at the
                       start, blanks around the line, a CR at its end and what
                       follows a dot; read _ as -; take @latin as a script and
                       @valencia as a variant
  -0, --null           lines end with a zero byte, in the input and in answers
  -w, --where          write after a refusal a tab, the range of the bytes at which
                       the fault stands, from 0 on, a tab, and these bytes
  -n, --line-number    write the number of the line and a tab before a refusal, and
                       the file if there are several
  -o, --only-refused   write nothing for lines that are accepted
  -e, --exit-status    end with status 1 if a line was refused
  -q, --quiet          write nothing of lines: the status says whether one was
                       refused
      --count          write nothing of lines but for each input its name, how many
                       lines it has and how many are refused, with tabs between
  -h, --help           say this, and end
  -V, --version        say the version, and end
  --                   end the options: what follows are files

Status: 0 if all is answered; 1 with --exit-status or --quiet if a line was refused;
2 if an argument is wrong, an input cannot be read or the output cannot be written;
141 if nobody reads the output any more.

Example: printf 'EN-us\\nen-US-foo\\n' | locid normalize -now
prints:  2\t! Invalid subtag\t6..9\tfoo
";

const CHECK_HELP: &str = "\
Usage: locid check [OPTION ..] [FILE ..]
Writes where and why lines are refused, as FILE:LINE:COLUMN: REASON: SUBTAG: ADVICE.

With no FILE, or for a FILE -, it reads standard input.

  -m, --mode MODE      what a line is: an identifier of a language (langid), a
                       locale with its extensions (locale, if nothing is said) or a
                       locale by which data is found (data)
  -c, --clean          clean each line first: leave out a byte order mark at the
                       start, blanks around the line, a CR at its end and what
                       follows a dot; read _ as -; take @latin as a script and
                       @valencia as a variant
  -0, --null           lines end with a zero byte, in the input and in answers
  -s, --show           write below each refusal the line, with a caret below each
                       byte of the fault
  -q, --quiet          write nothing of lines: the status says whether one was
                       refused
      --count          write nothing of lines but for each input its name, how many
                       lines it has and how many are refused, with tabs between
  -h, --help           say this, and end
  -V, --version        say the version, and end
  --                   end the options: what follows are files

COLUMN is that of a byte, from 1 on. With --clean it is one of the cleaned line.
ADVICE says what may stand there, and what is usually meant by a line such as en_US.

Status: 0 if no line is refused, 1 if one is; 2 if an argument is wrong, an input cannot
be read or the output cannot be written; 141 if nobody reads the output any more.

Example: printf 'EN-us\\nen-US-foo\\n' | locid check
prints:  -:2:7: Invalid subtag: foo: a variant or an extension may stand here
";

const PARTS_HELP: &str = "\
Usage: locid parts [OPTION ..] [FILE ..]
Writes the parts of each line, in columns or as JSON.

With no FILE, or for a FILE -, it reads standard input.

  -m, --mode MODE      what a line is: an identifier of a language (langid), a
                       locale with its extensions (locale, if nothing is said) or a
                       locale by which data is found (data)
  -c, --clean          clean each line first: leave out a byte order mark at the
                       start, blanks around the line, a CR at its end and what
                       follows a dot; read _ as -; take @latin as a script and
                       @valencia as a variant
  -0, --null           lines end with a zero byte, in the input and in answers
  -f, --format FORMAT  how parts are written: in columns (tsv, if nothing is said)
                       or as a JSON object a line (json)
  -e, --exit-status    end with status 1 if a line was refused
  -h, --help           say this, and end
  -V, --version        say the version, and end
  --                   end the options: what follows are files

Columns: language, script, region, variants, keywords and extensions.

Status: 0 if all is answered; 1 with --exit-status if a line was refused; 2 if an argument
is wrong, an input cannot be read or the output cannot be written; 141 if nobody reads the
output any more.

Example: printf 'EN-latn-us-u-ca-buddhist\\n' | locid parts
prints:  en\tLatn\tUS\t\tca=buddhist\tu-ca-buddhist
";
