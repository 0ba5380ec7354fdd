//! What the words of the command line are, and which of them is wrong.

use crate::help::Help;
use crate::slot::{CHECK, LAST, MADE, RUN, Slot, WATCH};

/// What the commands are.
const USAGE: &str = "\
usage: bin/scotty COMMAND WORD..
  run DEFS SHARDS FEED SOURCE..        the report of 1 to 16 sources
  run2 DEFS SHARDS FEED SOURCE..       the same, with what stood before each update and retraction
  watch DEFS READERS READS SOURCE..    the report of one shard, and what readers saw of it meanwhile
  last N PERIOD FUNC LATENESS SHARDS SOURCE..
                                       what the last N tuples of each key come to, period by period
  check DEFS SHARDS REPORT SOURCE..    whether a report is lawful, by the definitions and the sources
  made SEED ROWS SOURCES SHARDS FEED   a summary of records generated from a seed
DEFS is a file of window definitions in TOML; each SOURCE is a file of records in CSV, t,TIME,VALUE,KEY.
SHARDS is 1 to 16, and FEED is turns or mail: the report is lawful in the same way with any of them.
READERS is 1 to 8, and each of them reads READS times, 0 to 1000, and once more at the end.
N is 1 to 4194304, PERIOD 1 to 10^15, LATENESS 0 to 10^15, and FUNC one of count, sum, min, max, mean, first,
last, rises and trace.
bin/scotty --summary COMMAND .. says on standard error what a run came to, and --version what is run.
for example: bin/scotty run examples/calls-per-minute.toml 1 turns examples/calls.csv
README.md says what it is for, and docs/FORMATS.md what the files are.
";

/// What is wrong with words that are no command, and all commands where the words ask for help.
pub fn put_usage(words: &[String], help: &mut Help) {
    match words {
        [] => help.say(&[USAGE]),
        [command, rest @ ..] => put_command(command.as_str(), rest, help),
    }
}

fn put_command(command: &str, rest: &[String], help: &mut Help) {
    match command {
        "-h" | "--help" | "help" => help.say(&[USAGE]),
        "--version" => help.say(&[
            "scotty: bin/scotty --version says which program is run, and what built it\n",
        ]),
        "run" | "run2" => put_reading(command, &RUN, rest, help),
        "check" => put_reading(command, &CHECK, rest, help),
        "watch" => put_reading(command, &WATCH, rest, help),
        "last" => put_reading(command, &LAST, rest, help),
        "made" => put_made(rest, help),
        _ => put_unknown(command, help),
    }
}

fn put_unknown(command: &str, help: &mut Help) {
    help.say(&["scotty: "]);
    help.quote(command.as_bytes());
    help.say(&[
        " is no command: the commands are run, run2, check, made, watch and last, and --help shows them\n",
    ]);
}

// The words of a command that reads sources.
fn put_reading(command: &str, slots: &[Slot], words: &[String], help: &mut Help) {
    if put_first_wrong(command, slots, words, help) {
        return;
    }
    let sources = if words.len() > slots.len() {
        &words[slots.len()..]
    } else {
        &[]
    };
    put_sources(command, sources, help);
}

fn put_sources(command: &str, sources: &[String], help: &mut Help) {
    help.say(&["scotty: "]);
    if sources.is_empty() {
        help.say(&[
            command,
            " needs at least one SOURCE, behind the other words",
        ]);
    } else if sources.len() > 16 {
        help.number(sources.len());
        help.say(&[" sources are too many: ", command, " reads 1 to 16"]);
    } else {
        help.say(&["the name of a SOURCE is empty: it is a file of records"]);
    }
    put_form(command, help);
}

fn put_made(words: &[String], help: &mut Help) {
    if put_first_wrong("made", &MADE, words, help) {
        return;
    }
    help.say(&["scotty: made takes five words behind its name, and here are "]);
    help.number(words.len());
    put_form("made", help);
}

// Says which word is the first that is missing or not allowed, if there is one.
fn put_first_wrong(command: &str, slots: &[Slot], words: &[String], help: &mut Help) -> bool {
    for i in 0..slots.len() {
        let slot = slots[i];
        match words.get(i) {
            None => {
                put_missing(command, slot, help);
                return true;
            }
            Some(word) => {
                if !slot.rule.fits(word.as_str()) {
                    put_wrong(command, slot, word.as_str(), help);
                    return true;
                }
            }
        }
    }
    false
}

fn put_missing(command: &str, slot: Slot, help: &mut Help) {
    help.say(&["scotty: ", command, " needs "]);
    help.say(&[slot.name, ": ", slot.rule.allowed()]);
    put_form(command, help);
}

fn put_wrong(command: &str, slot: Slot, word: &str, help: &mut Help) {
    help.say(&["scotty: "]);
    help.quote(word.as_bytes());
    help.say(&[" is no ", slot.name, ": ", slot.rule.allowed()]);
    put_form(command, help);
}

// The end of a sentence, with the form of the command.
fn put_form(command: &str, help: &mut Help) {
    let words = match command {
        "check" => " DEFS SHARDS REPORT SOURCE..",
        "made" => " SEED ROWS SOURCES SHARDS FEED",
        "watch" => " DEFS READERS READS SOURCE..",
        "last" => " N PERIOD FUNC LATENESS SHARDS SOURCE..",
        _ => " DEFS SHARDS FEED SOURCE..",
    };
    help.say(&[" (", command, words, ")\n"]);
}
