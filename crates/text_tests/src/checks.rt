use crate::said::{Said, what_of};
use agg_laws::Steps;
use report_check::{Finding, check_report};
use std::process::Abort;
use stream_base::{Def, Defs, Entry, Func, Kind};

// The report of one source, under sessions that end after 5 and reopen up to 5 behind the
// watermark.
const REOPENED: &str = "shard 0
j 0 t 0 1 a
j 0 w 5
+ 0 0 5 1 1 a
j 0 t 3 2 a
- 0 0 5 a
j 0 w 8
+ 0 0 8 2 3 a
j 0 e
end
";

// The same in the other form, which tells what stood.
const IN_FULL: &str = "report 2
shard 0
j 0 t 0 1 a
j 0 w 5
+ 0 0 5 1 1 a
j 0 t 3 2 a
- 0 0 5 1 1 a
j 0 w 8
+ 0 0 8 2 3 a
j 0 e
end
";

// The first of these with a wrong value.
const VALUE: &str = "shard 0
j 0 t 0 1 a
j 0 w 5
+ 0 0 5 1 2 a
j 0 t 3 2 a
- 0 0 5 a
j 0 w 8
+ 0 0 8 2 3 a
j 0 e
end
";

// The first of these with an entry twice.
const TWICE: &str = "shard 0
j 0 t 0 1 a
j 0 t 0 1 a
j 0 w 5
+ 0 0 5 1 1 a
j 0 t 3 2 a
- 0 0 5 a
j 0 w 8
+ 0 0 8 2 3 a
j 0 e
end
";

// A journal that no shard would take: a source that nobody named, entries behind an end, and
// another end.
const ODD: &str = "shard 0
j 65535 t 0 1 a
j 0 e
+ 0 0 5 1 1 a
j 0 t 1 2 a
x
j 0 e
end
";

// What the source said, and the same without its last watermark.
const WHOLE: [Said; 5] = [
    Said::Tuple("a", 0, 1),
    Said::Water(5),
    Said::Tuple("a", 3, 2),
    Said::Water(8),
    Said::End,
];

const LESS: [Said; 4] = [
    Said::Tuple("a", 0, 1),
    Said::Water(5),
    Said::Tuple("a", 3, 2),
    Said::End,
];

const JOURNAL: Finding = Finding::Journal {
    shard: 0,
    source: 0,
};

// What a report is; the number of shards of its run, and whether the source said the whole; the
// report, and what is found of it.
type Case = (&'static str, u16, bool, &'static str, Finding);

const CASES: [Case; 8] = [
    ("lawful", 1, true, REOPENED, Finding::Lawful),
    ("lawful, in full", 1, true, IN_FULL, Finding::Lawful),
    ("a wrong value", 1, true, VALUE, Finding::Text { line: 4 }),
    ("an entry twice", 1, true, TWICE, Finding::Text { line: 5 }),
    ("of a source that said less", 1, false, REOPENED, JOURNAL),
    (
        "for two shards",
        2,
        true,
        REOPENED,
        Finding::Shards { found: 1 },
    ),
    ("nothing left", 1, true, "", Finding::Text { line: 1 }),
    ("any journal", 1, true, ODD, JOURNAL),
];

fn entries(rt: &(impl AllocGlobal + Abort), said: &[Said]) -> Vec<Entry> {
    let mut entries = Vec::new(rt.alloc());
    for it in said {
        let entry = Entry {
            source: 0,
            what: what_of(rt, it),
        };
        assert!(rt; entries.push(entry).is_ok());
    }
    entries
}

fn sessions(rt: &(impl AllocGlobal + Abort)) -> Defs {
    let gap = Def {
        kind: Kind::Session { gap: 5 },
        func: Func::Sum,
    };
    let Ok(windows) = vec![in rt.alloc(); gap] else {
        panic!(rt; "out of memory");
    };
    let Ok(defs) = Defs::new(windows, 5, 0, 0) else {
        panic!(rt; "no definitions");
    };
    defs
}

fn is_found(
    rt: &(impl AllocGlobal + Abort),
    defs: &Defs,
    sources: &[Vec<Entry>; 1],
    case: &Case,
    steps: &mut Steps<()>,
) {
    let (shows, shards, _, report, finding) = *case;
    assert!(rt; shards <= 16);
    let found = check_report(rt.alloc(), defs, shards, sources, report.as_bytes(), steps);
    assert_eq!(rt; found, Ok(finding), "{shows}");
}

#[test]
fn each_report_has_its_finding(rt: HostRuntime) {
    let defs = sessions(&rt);
    let whole = [entries(&rt, &WHOLE)];
    let less = [entries(&rt, &LESS)];
    let mut steps = Steps::start(&rt);
    for case in &CASES {
        let sources = if case.2 { &whole } else { &less };
        is_found(&rt, &defs, sources, case, &mut steps);
    }
}
