use crate::counted::CountedSource;
use source_feed::{
    Feed, FeedFault, FileFeed, RowFault, RowWhy, Rows, WholeFault, read_pieces, read_whole, route,
};
use std::alloc::{AllocError, Global};
use std::process::Abort;
use std::str;
use std::test::Fail;
use stream_base::{Def, Defs, Entry, Func, KeyText, Kind, What};

fn key_shown(key: &KeyText) -> &str {
    str::from_utf8(key.bytes()).unwrap_or("?")
}

pub fn entry_shown(alloc: Global, entry: &Entry) -> Result<String, AllocError> {
    match entry.what {
        What::Tuple { key, time, value } => {
            format!(in alloc; "t {time} {value} {}; ", key_shown(&key))
        }
        What::Mark { key, time } => format!(in alloc; "m {time} {}; ", key_shown(&key)),
        What::Water { time } => format!(in alloc; "w {time}; "),
        What::Idle => format!(in alloc; "i; "),
        What::End => format!(in alloc; "e; "),
    }
}

// All that rows answer, up to the first answer that isn't an entry.
fn push_answers(alloc: Global, text: &mut String, rows: &mut Rows) -> Result<(), AllocError> {
    for _ in 0..20 {
        match rows.next() {
            Ok(Some(entry)) => text.push_str(entry_shown(alloc, &entry)?.as_str())?,
            Ok(None) => return text.push_str("none"),
            Err(fault) => return text.push_str(format!(in alloc; "{fault:?}")?.as_str()),
        }
    }
    Ok(())
}

// The rows of a source answer so. A watermark is made after so many tuples, and so far behind.
fn answers<R: AllocGlobal + Abort>(
    rt: &R,
    source: &str,
    made: (u64, u64),
    want: &str,
) -> Result<(), Fail> {
    let alloc = rt.alloc();
    let bytes = Vec::from_slice(alloc, source.as_bytes())?;
    let mut rows = Rows::new(alloc, bytes, 0, made.0, made.1)?;
    let mut text = String::new(alloc);
    push_answers(alloc, &mut text, &mut rows)?;
    assert_eq!(rt; text.as_str(), want, "{source}");
    Ok(())
}

// A source of one record, and all that its rows answer.
const RECORDS: [(&str, &str); 34] = [
    ("t,0001,-0,a\n", "t 1 0 a; e; none"),
    (
        "t,0001000000000000000,+5,a\n",
        "t 1000000000000000 5 a; e; none",
    ),
    (
        "t,1000000000000001,1,a\n",
        "Refused { number: 1, why: Time }",
    ),
    (
        "t,12345678901234567890,5,a\n",
        "Refused { number: 1, why: Time }",
    ),
    ("t,,5,a\n", "Refused { number: 1, why: Time }"),
    ("t,+1,5,a\n", "Refused { number: 1, why: Time }"),
    (
        "t,1,9223372036854775807,a\n",
        "t 1 9223372036854775807 a; e; none",
    ),
    (
        "t,1,9223372036854775808,a\n",
        "Refused { number: 1, why: Value }",
    ),
    (
        "t,1,-9223372036854775808,a\n",
        "t 1 -9223372036854775808 a; e; none",
    ),
    (
        "t,1,-9223372036854775809,a\n",
        "Refused { number: 1, why: Value }",
    ),
    ("t,1,--5,a\n", "Refused { number: 1, why: Value }"),
    ("t,1,-,a\n", "Refused { number: 1, why: Value }"),
    ("t,1, 5,a\n", "Refused { number: 1, why: Value }"),
    ("t,1,,a\n", "Refused { number: 1, why: Value }"),
    ("t,1,5,\n", "Refused { number: 1, why: Key }"),
    ("t,1,5,a\tb\n", "Refused { number: 1, why: Key }"),
    ("m,5,,\n", "Refused { number: 1, why: Key }"),
    ("m,5,,a\n", "m 5 a; e; none"),
    ("w,5\n", "w 5; e; none"),
    ("w,5,,\n", "w 5; e; none"),
    ("w,1,5\n", "Refused { number: 1, why: Fields }"),
    ("w,5,1,\n", "Refused { number: 1, why: Fields }"),
    ("w,1,,x\n", "Refused { number: 1, why: Fields }"),
    ("m,1,7,a\n", "Refused { number: 1, why: Fields }"),
    ("t,1,5\n", "Refused { number: 1, why: Fields }"),
    ("t,1,5,a,\n", "Refused { number: 1, why: Fields }"),
    ("T,1,5,a\n", "Refused { number: 1, why: Kind }"),
    ("i\n", "i; e; none"),
    ("i,,,\n", "i; e; none"),
    ("i,x\n", "Refused { number: 1, why: Fields }"),
    ("i,\n", "Refused { number: 1, why: Fields }"),
    ("i,,\n", "Refused { number: 1, why: Fields }"),
    ("i,,,x\n", "Refused { number: 1, why: Fields }"),
    ("I\n", "Refused { number: 1, why: Kind }"),
];

#[test]
fn judges_each_record_by_its_first_fault(rt: HostRuntime) -> Result<(), Fail> {
    for (text, want) in &RECORDS {
        answers(&rt, text, (0, 0), want)?;
    }
    Ok(())
}

// A source, and all that its rows answer.
const NUMBERED: [(&str, &str); 22] = [
    ("", "e; none"),
    ("\n\r\n\r", "e; none"),
    ("kind,time,value,key\n", "e; none"),
    ("\n\nkind,time,value,key\nt,1,5,a\n", "t 1 5 a; e; none"),
    (
        "\"kind\",time,\"value\",key\r\nt,1,5\r\n",
        "Refused { number: 2, why: Fields }",
    ),
    (
        "t,1,5,a\nkind,time,value,key\n",
        "t 1 5 a; Refused { number: 2, why: Kind }",
    ),
    (
        "kind,time,value,key\nkind,time,value,key\n",
        "Refused { number: 2, why: Kind }",
    ),
    ("kind,time,value\n", "Refused { number: 1, why: Kind }"),
    ("kind,time,value,key,\n", "Refused { number: 1, why: Kind }"),
    (
        "\n\nw,1\n\n\nq,1\n",
        "w 1; Refused { number: 2, why: Kind }",
    ),
    ("\"\"\n", "Refused { number: 1, why: Kind }"),
    ("\u{FEFF}t,1,5,a\n", "t 1 5 a; e; none"),
    (
        "\u{FEFF}\u{FEFF}t,1,5,a\n",
        "Refused { number: 1, why: Kind }",
    ),
    (
        "w,1\n\u{FEFF}t,1,5,a\n",
        "w 1; Refused { number: 2, why: Kind }",
    ),
    ("t,1,5,\"a,b\"\n", "t 1 5 a,b; e; none"),
    ("t,1,5,\"a\"b\n", "t 1 5 ab; e; none"),
    ("t,1,5,a\"b\n", "t 1 5 a\"b; e; none"),
    ("t,1,\"-\"5,a\n", "t 1 -5 a; e; none"),
    ("t,1,5,\"a", "t 1 5 a; e; none"),
    ("t,1,5,\"a\n", "Refused { number: 1, why: Key }"),
    ("t,1,5", "Refused { number: 1, why: Fields }"),
    ("w,1\rw,2\nw,3\r\nw,4", "w 1; w 2; w 3; w 4; e; none"),
];

#[test]
fn numbers_the_records_of_the_bytes(rt: HostRuntime) -> Result<(), Fail> {
    for (text, want) in &NUMBERED {
        answers(&rt, text, (0, 0), want)?;
    }
    Ok(())
}

// A source, after how many tuples a watermark is made, how far it is behind, and all that its rows answer.
const MADE: [(&str, u64, u64, &str); 4] = [
    (
        "t,5,1,a\nt,4,2,a\nt,12,4,a\nt,9,8,a\n",
        2,
        3,
        "t 5 1 a; t 4 2 a; w 2; t 12 4 a; t 9 8 a; w 9; e; none",
    ),
    (
        "t,5,1,a\nm,90,,a\nw,80\nt,4,2,b\nt,6,3,a\n",
        2,
        5,
        "t 5 1 a; m 90 a; w 80; t 4 2 b; w 0; t 6 3 a; e; none",
    ),
    (
        "t,5,1,a\nq\n",
        1,
        0,
        "t 5 1 a; w 5; Refused { number: 2, why: Kind }",
    ),
    ("t,5,1,a\n", 0, 0, "t 5 1 a; e; none"),
];

#[test]
fn makes_a_watermark_after_every_so_many_tuples(rt: HostRuntime) -> Result<(), Fail> {
    for (text, every, disorder, want) in &MADE {
        answers(&rt, text, (*every, *disorder), want)?;
    }
    Ok(())
}

// The same of sources that wake.
const WOKEN: [(&str, u64, u64, &str); 5] = [
    (
        "t,1,5,a\ni\nt,4,7,a\nw,10\n",
        0,
        0,
        "t 1 5 a; i; w 0; t 4 7 a; w 10; e; none",
    ),
    (
        "w,7\nw,3\ni\ni\nm,2,,a\nt,4,7,a\n",
        0,
        0,
        "w 7; w 3; i; i; w 7; m 2 a; t 4 7 a; e; none",
    ),
    (
        "w,7\ni\nw,3\nt,4,7,a\ni\n",
        0,
        0,
        "w 7; i; w 3; t 4 7 a; i; e; none",
    ),
    (
        "t,5,1,a\ni\nt,9,2,a\ni\nt,6,3,a\n",
        1,
        2,
        "t 5 1 a; w 3; i; w 3; t 9 2 a; w 7; i; w 7; t 6 3 a; w 7; e; none",
    ),
    ("i\nt,5,1\n", 0, 0, "i; Refused { number: 2, why: Fields }"),
];

#[test]
fn wakes_a_source_before_its_next_tuple_or_mark(rt: HostRuntime) -> Result<(), Fail> {
    for (text, every, disorder, want) in &WOKEN {
        answers(&rt, text, (*every, *disorder), want)?;
    }
    Ok(())
}

#[test]
fn takes_keys_of_any_bytes_but_control_characters(rt: HostRuntime) -> Result<(), Fail> {
    let longest = [b'k'; 64];
    for key in [
        b"\xFF\x80 ".as_slice(),
        b"\xC3\xA4".as_slice(),
        longest.as_slice(),
    ] {
        let mut bytes = Vec::from_slice(rt.alloc(), b"t,1,5,".as_slice())?;
        bytes.extend_from_slice(key)?;
        let mut rows = Rows::new(rt.alloc(), bytes, 3, 0, 0)?;
        let want = Entry {
            source: 3,
            what: What::Tuple {
                key: KeyText::from_bytes(key)?,
                time: 1,
                value: 5,
            },
        };
        assert_eq!(rt; rows.next()?, Some(want));
    }
    let mut bytes = Vec::from_slice(rt.alloc(), b"t,1,5,".as_slice())?;
    bytes.extend_from_slice([b'k'; 65].as_slice())?;
    let fault = RowFault::Refused {
        number: 1,
        why: RowWhy::Key,
    };
    assert_eq!(rt; Rows::new(rt.alloc(), bytes, 3, 0, 0)?.next(), Err(fault));
    Ok(())
}

#[test]
fn reads_a_source_whole_up_to_its_limit(rt: HostRuntime) -> Result<(), Fail> {
    for piece in 1..7 {
        let mut source = CountedSource::new(b"12345", &[], piece);
        let whole = read_whole(rt.alloc(), &mut source, 5);
        assert_eq!(rt; source.into_faults(), 0);
        assert_eq!(rt; whole?.as_slice(), b"12345".as_slice());

        let mut source = CountedSource::new(b"12345", &[], piece);
        let pieces = read_pieces(rt.alloc(), &mut source, 5);
        assert_eq!(rt; source.into_faults(), 0);
        let mut pieces = pieces?;
        assert_eq!(rt; pieces.len(), 5);
        let first = pieces.next_piece();
        assert_eq!(rt;
            first.unwrap_or(Vec::new(rt.alloc())).as_slice(),
            b"12345".as_slice()
        );

        let mut source = CountedSource::new(b"123456789", &[], piece);
        let long = read_whole(rt.alloc(), &mut source, 4);
        let rest = read_whole(rt.alloc(), &mut source, 4);
        assert_eq!(rt; source.into_faults(), 0);
        assert!(rt; matches!(long, Err(WholeFault::TooLong)));
        assert_eq!(rt; rest?.as_slice(), b"6789".as_slice());
    }
    for call in 0..5 {
        let failing = [call];
        let mut source = CountedSource::new(b"12345678", &failing, 2);
        let read = read_whole(rt.alloc(), &mut source, 8);
        assert_eq!(rt; source.into_faults(), 1);
        assert!(rt; matches!(read, Err(WholeFault::Read)));
    }
    Ok(())
}

fn made_never(alloc: Global) -> Result<Defs, Fail> {
    let mut windows = Vec::new(alloc);
    windows.push(Def {
        kind: Kind::Marks,
        func: Func::Count,
    })?;
    match Defs::new(windows, 0, 0, 0) {
        Ok(defs) => Ok(defs),
        Err(fault) => Err(fault)?,
    }
}

fn water(time: u64) -> Entry {
    Entry {
        source: 0,
        what: What::Water { time },
    }
}

#[test]
fn feeds_a_source_whatever_its_pieces(rt: HostRuntime) -> Result<(), Fail> {
    let defs = made_never(rt.alloc())?;
    for piece in 1..13 {
        let tuple = Entry {
            source: 0,
            what: What::Tuple {
                key: KeyText::from_bytes(b"a")?,
                time: 1,
                value: 5,
            },
        };
        let end = Entry {
            source: 0,
            what: What::End,
        };
        let source = CountedSource::new(b"t,1,5,a\nw,2\n", &[], piece);
        let mut feed = FileFeed::new(rt.alloc(), source, 0, &defs);
        for want in [Some(tuple), Some(water(2)), Some(end), None, None] {
            assert_eq!(rt; feed.next(), Ok(want));
        }
        assert_eq!(rt; feed.into_source().into_faults(), 0);
    }
    Ok(())
}

#[test]
fn answers_a_failed_read_again(rt: HostRuntime) -> Result<(), Fail> {
    let defs = made_never(rt.alloc())?;
    for call in 0..5 {
        let failing = [call];
        let source = CountedSource::new(b"t,1,5,a\nw,2\n", &failing, 3);
        let mut feed = FileFeed::new(rt.alloc(), source, 0, &defs);
        assert_eq!(rt; feed.next(), Err(FeedFault::Read));
        assert_eq!(rt; feed.next(), Err(FeedFault::Read));
        assert_eq!(rt; feed.into_source().into_faults(), 1);
    }
    Ok(())
}

#[test]
fn answers_a_refused_record_again(rt: HostRuntime) -> Result<(), Fail> {
    let defs = made_never(rt.alloc())?;
    let source = CountedSource::new(b"w,1\nt,1,5\nw,2\n", &[], 8);
    let mut feed = FileFeed::new(rt.alloc(), source, 0, &defs);
    let fault = FeedFault::Row {
        number: 2,
        why: RowWhy::Fields,
    };
    assert_eq!(rt; feed.next(), Ok(Some(water(1))));
    assert_eq!(rt; feed.next(), Err(fault));
    assert_eq!(rt; feed.next(), Err(fault));
    assert_eq!(rt; feed.into_source().into_faults(), 0);
    Ok(())
}

#[test]
fn routes_keys_by_their_bytes(rt: HostRuntime) -> Result<(), Fail> {
    assert_eq!(rt; route(&KeyText::from_bytes(b"a")?, 2), 1);
    assert_eq!(rt; route(&KeyText::from_bytes(b"b")?, 2), 0);
    assert_eq!(rt; route(&KeyText::from_bytes(b"ab")?, 7), 4);
    assert_eq!(rt; route(&KeyText::from_bytes(b"k25")?, 8), 6);
    Ok(())
}

pub fn is_sent<T: Send>(_value: &T) {}

#[test]
fn goes_to_another_thread(rt: HostRuntime) -> Result<(), Fail> {
    let defs = made_never(rt.alloc())?;
    let feed = FileFeed::new(rt.alloc(), CountedSource::new(b"", &[], 1), 0, &defs);
    is_sent(&feed);
    assert_eq!(rt; feed.into_source().into_faults(), 0);
    Ok(())
}

#[test]
fn says_each_fault(rt: HostRuntime) -> Result<(), Fail> {
    let fault = FeedFault::Row {
        number: 7,
        why: RowWhy::Fields,
    };
    let text = format!(in rt.alloc(); "{fault}")?;
    assert_eq!(rt;
        text.as_str(),
        "record 7: a record has its kind's number of fields"
    );
    Ok(())
}
