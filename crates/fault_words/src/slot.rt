use crate::rule::Rule;

// A word of a command: what it is called, and what is allowed for it.
#[derive(Clone, Copy)]
pub struct Slot {
    pub name: &'static str,
    pub rule: Rule,
}

// The words of a run, in front of its sources.
pub const RUN: [Slot; 3] = [
    Slot {
        name: "DEFS",
        rule: Rule::Name,
    },
    Slot {
        name: "SHARDS",
        rule: Rule::Few,
    },
    Slot {
        name: "FEED",
        rule: Rule::Feed,
    },
];

pub const CHECK: [Slot; 3] = [
    Slot {
        name: "DEFS",
        rule: Rule::Name,
    },
    Slot {
        name: "SHARDS",
        rule: Rule::Few,
    },
    Slot {
        name: "REPORT",
        rule: Rule::Name,
    },
];

pub const MADE: [Slot; 5] = [
    Slot {
        name: "SEED",
        rule: Rule::Seed,
    },
    Slot {
        name: "ROWS",
        rule: Rule::Rows,
    },
    Slot {
        name: "SOURCES",
        rule: Rule::Few,
    },
    Slot {
        name: "SHARDS",
        rule: Rule::Few,
    },
    Slot {
        name: "FEED",
        rule: Rule::Feed,
    },
];

pub const WATCH: [Slot; 3] = [
    Slot {
        name: "DEFS",
        rule: Rule::Name,
    },
    Slot {
        name: "READERS",
        rule: Rule::Readers,
    },
    Slot {
        name: "READS",
        rule: Rule::Reads,
    },
];

pub const LAST: [Slot; 5] = [
    Slot {
        name: "N",
        rule: Rule::Many,
    },
    Slot {
        name: "PERIOD",
        rule: Rule::Period,
    },
    Slot {
        name: "FUNC",
        rule: Rule::Func,
    },
    Slot {
        name: "LATENESS",
        rule: Rule::Lateness,
    },
    Slot {
        name: "SHARDS",
        rule: Rule::Few,
    },
];
