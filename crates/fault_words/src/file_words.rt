//! Files that can't be opened or read, or that are too long.

use crate::again::{Again, Look};
use crate::help::Help;
use source_feed::SOURCE_MAX;

/// Why a file couldn't be opened.
pub fn put_unopened<A: Again>(what: &str, name: &str, again: &mut A, help: &mut Help) {
    help.say(&["scotty: "]);
    put_file(what, name, help);
    help.say(&[
        " couldn't be opened: ",
        match again.look(name) {
            Look::Missing => "there is no such file",
            Look::Folder => "it is a folder",
            Look::Regular => "the file is there, but you may not read it",
            Look::Passing | Look::Hidden =>
                "you may not read it, or not go through a folder on the way",
        },
        "\n",
    ]);
}

/// Why a file couldn't be read.
pub fn put_unread<A: Again>(what: &str, name: &str, again: &mut A, help: &mut Help) {
    help.say(&["scotty: "]);
    put_file(what, name, help);
    help.say(&[
        " couldn't be read to its end: ",
        match again.look(name) {
            Look::Folder => "it is a folder, and a file is wanted",
            _ => "the system answered a read with an error",
        },
        "\n",
    ]);
}

/// What to do where a source is too long.
pub fn put_full_source(name: &str, help: &mut Help) {
    help.say(&["scotty: "]);
    put_file("source", name, help);
    help.say(&[" has more than "]);
    help.number(SOURCE_MAX);
    help.say(&[" bytes: part it into several sources, of which a run reads up to 16\n"]);
}

/// What to do where a report is too long to be checked.
pub fn put_full_report(name: &str, help: &mut Help) {
    help.say(&["scotty: "]);
    put_file("report", name, help);
    help.say(&[" has more than "]);
    help.number(SOURCE_MAX);
    help.say(&[" bytes, and can't be checked: run the sources in parts, by their keys or times\n"]);
}

/// What to do where a shard is full.
pub fn put_full_shard(shard: u16, shards: &str, help: &mut Help) {
    help.say(&["scotty: shard "]);
    help.number(shard);
    help.say(&[
        " would have more than 4194304 entries, with ",
        shards,
        " as SHARDS: take more shards, up to 16, ",
    ]);
    help.say(&[
        "or run the sources in parts; a single key, and all watermarks, stay in one shard\n",
    ]);
}

/// What to do where the one shard of a watch is full.
pub fn put_full_watch(help: &mut Help) {
    help.say(&[
        "scotty: a watch has one shard, and it would have more than 4194304 entries: ",
        "watch the sources in parts, by their keys or times\n",
    ]);
}

/// What to do where memory ran out.
pub fn put_memory(help: &mut Help) {
    help.say(&[
        "scotty: memory ran out. It follows the records and the lines of the report, which are kept until it ",
    ]);
    help.say(&[
        "is written: run the sources in parts, by their keys or times, or with fewer or shorter windows\n",
    ]);
}

/// A file, by what it is to the program and by its name.
pub fn put_file(what: &str, name: &str, help: &mut Help) {
    help.say(&["the ", what, " "]);
    help.quote(name.as_bytes());
}
