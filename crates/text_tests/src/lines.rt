use crate::said::{Said, key_of, what_of};
use crate::sinks::sink;
use emission_text::{Fault, Pending, SinkFault, put_change, put_entry, write_fault, write_finding};
use outside::MemSink;
use report_check::Finding;
use report_lines::ReportForm;
use source_feed::RowWhy;
use std::process::Abort;
use stream_base::{Change, Entry, FINAL, Former, Row, Shown, TIME_MAX};
use window_defs::DefsFault;

// A row of window 31 from time 0 on.
#[derive(Drop)]
struct Told {
    key: &'static str,
    high: u64,
    number: u64,
    shown: Shown,
}

// What a line tells.
#[derive(Drop)]
enum Line {
    Fault(Fault),
    Finding(Finding),
    Entry(u16, Said),
    New(ReportForm, Told),
    Again(ReportForm, Told, Former),
    Gone(ReportForm, Told),
    Dropped(ReportForm),
}

const MEAN: Told = Told {
    key: "a",
    high: 5,
    number: 2,
    shown: Shown::Ratio { sum: -7, count: 2 },
};

const LEAST: Told = Told {
    key: "a,b",
    high: FINAL,
    number: u64::MAX,
    shown: Shown::Whole(i128::MIN),
};

const FORMER: Former = Former {
    number: 1,
    shown: Shown::Ratio { sum: 3, count: 1 },
};

const ONE: ReportForm = ReportForm::One;

const TWO: ReportForm = ReportForm::Two;

const FAULTS: [(Line, &str); 21] = [
    (Line::Fault(Fault::Usage), "fault usage\n"),
    (
        Line::Fault(Fault::Defs(DefsFault::Long)),
        "fault defs long\n",
    ),
    (
        Line::Fault(Fault::Defs(DefsFault::Toml)),
        "fault defs toml\n",
    ),
    (
        Line::Fault(Fault::Defs(DefsFault::Many)),
        "fault defs many\n",
    ),
    (
        Line::Fault(Fault::Defs(DefsFault::Shape { window: None })),
        "fault defs shape top\n",
    ),
    (
        Line::Fault(Fault::Defs(DefsFault::Shape { window: Some(3) })),
        "fault defs shape 3\n",
    ),
    (
        Line::Fault(Fault::Defs(DefsFault::Limit { window: None })),
        "fault defs limit top\n",
    ),
    (
        Line::Fault(Fault::Defs(DefsFault::Limit { window: Some(0) })),
        "fault defs limit 0\n",
    ),
    (
        Line::Fault(Fault::Defs(DefsFault::NoMemory)),
        "fault memory\n",
    ),
    (
        Line::Fault(Fault::Unopened { place: None }),
        "fault open defs\n",
    ),
    (
        Line::Fault(Fault::Unopened { place: Some(1) }),
        "fault open 1\n",
    ),
    (
        Line::Fault(Fault::Row {
            source: 1,
            number: 2,
            why: RowWhy::Kind,
        }),
        "fault row 1 2 kind\n",
    ),
    (
        Line::Fault(Fault::Row {
            source: 1,
            number: 2,
            why: RowWhy::Fields,
        }),
        "fault row 1 2 fields\n",
    ),
    (
        Line::Fault(Fault::Row {
            source: 1,
            number: 2,
            why: RowWhy::Time,
        }),
        "fault row 1 2 time\n",
    ),
    (
        Line::Fault(Fault::Row {
            source: 1,
            number: 2,
            why: RowWhy::Value,
        }),
        "fault row 1 2 value\n",
    ),
    (
        Line::Fault(Fault::Row {
            source: 1,
            number: 2,
            why: RowWhy::Key,
        }),
        "fault row 1 2 key\n",
    ),
    (
        Line::Fault(Fault::Read { place: None }),
        "fault read defs\n",
    ),
    (
        Line::Fault(Fault::Read { place: Some(0) }),
        "fault read 0\n",
    ),
    (
        Line::Fault(Fault::FullSource { source: 1 }),
        "fault full source 1\n",
    ),
    (
        Line::Fault(Fault::FullShard { shard: 0 }),
        "fault full shard 0\n",
    ),
    (Line::Fault(Fault::NoMemory), "fault memory\n"),
];

const FINDINGS: [(Line, &str); 4] = [
    (Line::Finding(Finding::Lawful), "lawful\n"),
    (
        Line::Finding(Finding::Text { line: 4 }),
        "unlawful text 4\n",
    ),
    (
        Line::Finding(Finding::Shards { found: 1 }),
        "unlawful shards 1\n",
    ),
    (
        Line::Finding(Finding::Journal {
            shard: 0,
            source: 16,
        }),
        "unlawful journal 0 16\n",
    ),
];

const ENTRIES: [(Line, &str); 7] = [
    (Line::Entry(0, Said::Tuple("a", 1, 5)), "j 0 t 1 5 a\n"),
    (
        Line::Entry(65_535, Said::Tuple("new york", TIME_MAX, i64::MIN)),
        "j 65535 t 1000000000000000 -9223372036854775808 new york\n",
    ),
    (
        Line::Entry(3, Said::Tuple("a", 0, i64::MAX)),
        "j 3 t 0 9223372036854775807 a\n",
    ),
    (
        Line::Entry(1, Said::Mark("new york", 12)),
        "j 1 m 12 new york\n",
    ),
    (Line::Entry(2, Said::Water(0)), "j 2 w 0\n"),
    (Line::Entry(4, Said::Idle), "j 4 i\n"),
    (Line::Entry(15, Said::End), "j 15 e\n"),
];

const CHANGES: [(Line, &str); 8] = [
    (Line::New(ONE, MEAN), "+ 31 0 5 2 -7/2 a\n"),
    (Line::New(TWO, MEAN), "+ 31 0 5 2 -7/2 a\n"),
    (Line::Again(ONE, MEAN, FORMER), "~ 31 0 5 2 -7/2 a\n"),
    (Line::Again(TWO, MEAN, FORMER), "~ 31 0 5 2 -7/2 1 3/1 a\n"),
    (Line::Gone(ONE, LEAST), "- 31 0 end a,b\n"),
    (
        Line::Gone(TWO, LEAST),
        "- 31 0 end 18446744073709551615 -170141183460469231731687303715884105728 a,b\n",
    ),
    (Line::Dropped(ONE), "x\n"),
    (Line::Dropped(TWO), "x\n"),
];

fn row(rt: &impl Abort, told: &Told) -> Row {
    Row {
        window: 31,
        key: key_of(rt, told.key),
        low: 0,
        high: told.high,
        number: told.number,
        shown: told.shown,
    }
}

fn put_line(
    rt: &impl Abort,
    line: &Line,
    out: &mut Pending,
    sink: &mut MemSink,
) -> Result<(), SinkFault> {
    let (form, change) = match line {
        Line::Fault(fault) => return write_fault(fault, sink),
        Line::Finding(finding) => return write_finding(finding, sink),
        Line::Entry(source, said) => {
            let entry = Entry {
                source: *source,
                what: what_of(rt, said),
            };
            return put_entry(&entry, out, sink);
        }
        Line::New(form, told) => (form, Change::New(row(rt, told))),
        Line::Again(form, told, former) => (
            form,
            Change::Again {
                row: row(rt, told),
                former: *former,
            },
        ),
        Line::Gone(form, told) => (form, Change::Gone(row(rt, told))),
        Line::Dropped(form) => (form, Change::Dropped),
    };
    put_change(*form, &change, out, sink)
}

// All that goes out of a line to a sink with so much room is its text.
fn has_text(rt: &(impl AllocGlobal + Abort), line: &Line, text: &str, room: u64) {
    let mut sink = sink(rt, room, 8);
    let mut out = Pending::new();
    assert!(rt; put_line(rt, line, &mut out, &mut sink).is_ok(), "{text}");
    assert!(rt; out.flush(&mut sink).is_ok(), "{text}");
    assert_eq!(rt; sink.bytes(), text.as_bytes(), "{text}");
}

fn have_texts(rt: &(impl AllocGlobal + Abort), lines: &[(Line, &str)], room: u64) {
    for (line, text) in lines {
        has_text(rt, line, text, room);
    }
}

#[test]
fn faults_findings_entries_and_changes_have_their_lines(rt: HostRuntime) {
    have_texts(&rt, &FAULTS, 40);
    have_texts(&rt, &FINDINGS, 40);
    have_texts(&rt, &ENTRIES, 80);
    have_texts(&rt, &CHANGES, 200);
}
