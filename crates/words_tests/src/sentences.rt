use crate::kept::Kept;
use answer_words::explain;
use std::alloc::Global;
use std::process::Abort;
use std::test::Fail;
use std::thread::Threads;

// A file of each kind: definitions with a misspelled key, records with a date, and a report.
const FILES: [(&str, &str); 3] = [
    (
        "d",
        "[[window]]\nkind = \"tumbling\"\nlenght = 60\nfunc = \"sum\"\n",
    ),
    ("s", "kind,time,value,key\n\nt,1,5,a\nt,2024-05-01,5,a\n"),
    ("r", "shard 0\nj 0 e\nend\n"),
];

// Words, the line that is answered, and what is said of it.
const SAID: [(&str, &str, &str); 28] = [
    (
        "run d 1 turn s",
        "fault usage",
        "scotty: `turn` is no FEED: it is turns, or mail (run DEFS SHARDS FEED SOURCE..)\n",
    ),
    (
        "made 7 10 2",
        "fault usage",
        "scotty: made needs SHARDS: it is a number from 1 to 16, with no sign and no leading zero (made SEED ROWS SOURCES SHARDS FEED)\n",
    ),
    (
        "run d 1 turns s",
        "fault defs shape 0",
        "scotty: the definitions `d`, window 0: `lenght` is no key of a tumbling window: its keys are kind, func, length\n",
    ),
    (
        "run . 1 turns s",
        "fault defs many",
        "scotty: the definitions `.` can't be read a second time, so that it isn't told what is wrong in them\n",
    ),
    (
        "run d 1 turns s",
        "fault row 0 3 time",
        "scotty: the source `s`, line 4 (record 3): `t,2024-05-01,5,a` is refused: TIME is 1 to 19 digits: `2024-05-01` has others; times are whole numbers, for example seconds since 1970\n",
    ),
    (
        "run d 1 turns x s",
        "fault row 1 9 time",
        "scotty: the source `s` has changed since it was read\n",
    ),
    (
        "run d 1 turns p.",
        "fault row 0 2 key",
        "scotty: the source `p.`, record 2 is refused, and can't be shown, since it can't be read a second time: KEY is 1 to 64 bytes, without control characters\n",
    ),
    (
        "run d 1 turns s x",
        "fault open 1",
        "scotty: the source `x` couldn't be opened: there is no such file\n",
    ),
    (
        "check d 1 r s",
        "fault read report",
        "scotty: the report `r` couldn't be read to its end: the system answered a read with an error\n",
    ),
    (
        "run d 3 turns s",
        "fault full shard 2",
        "scotty: shard 2 would have more than 4194304 entries, with 3 as SHARDS: take more shards, up to 16, or run the sources in parts; a single key, and all watermarks, stay in one shard\n",
    ),
    (
        "check d 1 r s",
        "unlawful text 2",
        "scotty: the report `r`, line 2: there stands `j 0 e`, which isn't what the definitions call for\n",
    ),
    (
        "check d 1 r s",
        "unlawful journal 0 1",
        "scotty: the report `r`, shard 0 has entries of more sources than were given: give those that the run had\n",
    ),
    ("run d 1 turns s", "shard 0", ""),
    (
        "rum d 1 turns s",
        "fault usage",
        "scotty: `rum` is no command: the commands are run, run2, check, made, watch and last, and --help shows them\n",
    ),
    (
        "last 0 10 sum 0 1 s",
        "fault usage",
        "scotty: `0` is no N: it is a number from 1 to 4194304, with no sign and no leading zero (last N PERIOD FUNC LATENESS SHARDS SOURCE..)\n",
    ),
    (
        "last 4194304 0 sum 0 1 s",
        "fault usage",
        "scotty: `0` is no PERIOD: it is a number from 1 to 10^15, in the time unit of the records, with no sign and no leading zero (last N PERIOD FUNC LATENESS SHARDS SOURCE..)\n",
    ),
    (
        "last 3 1000000000000000 avg 0 1 s",
        "fault usage",
        "scotty: `avg` is no FUNC: it is one of count, sum, min, max, mean, first, last, rises and trace (last N PERIOD FUNC LATENESS SHARDS SOURCE..)\n",
    ),
    (
        "last 3 10 trace 1000000000000001 1 s",
        "fault usage",
        "scotty: `1000000000000001` is no LATENESS: it is a number from 0 to 10^15, in the time unit of the records, with no sign and no leading zero (last N PERIOD FUNC LATENESS SHARDS SOURCE..)\n",
    ),
    (
        "last 3 10 last 0 16",
        "fault usage",
        "scotty: last needs at least one SOURCE, behind the other words (last N PERIOD FUNC LATENESS SHARDS SOURCE..)\n",
    ),
    (
        "last 3 10 sum 0 1 s x",
        "fault open 1",
        "scotty: the source `x` couldn't be opened: there is no such file\n",
    ),
    (
        "last 3 10 sum 0 1 s",
        "fault row 0 3 time",
        "scotty: the source `s`, line 4 (record 3): `t,2024-05-01,5,a` is refused: TIME is 1 to 19 digits: `2024-05-01` has others; times are whole numbers, for example seconds since 1970\n",
    ),
    (
        "last 3 10 sum 0 7 s",
        "fault full shard 6",
        "scotty: shard 6 would have more than 4194304 entries, with 7 as SHARDS: take more shards, up to 16, or run the sources in parts; a single key, and all watermarks, stay in one shard\n",
    ),
    (
        "watch d 9 0 s",
        "fault usage",
        "scotty: `9` is no READERS: it is a number from 1 to 8, with no sign and no leading zero (watch DEFS READERS READS SOURCE..)\n",
    ),
    (
        "watch d 1 1001 s",
        "fault usage",
        "scotty: `1001` is no READS: it is a number from 0 to 1000, with no sign and no leading zero (watch DEFS READERS READS SOURCE..)\n",
    ),
    (
        "watch d 8 1000",
        "fault usage",
        "scotty: watch needs at least one SOURCE, behind the other words (watch DEFS READERS READS SOURCE..)\n",
    ),
    (
        "watch d 1 0 x s",
        "fault open 0",
        "scotty: the source `x` couldn't be opened: there is no such file\n",
    ),
    (
        "watch x 1 0 s",
        "fault open defs",
        "scotty: the definitions `x` couldn't be opened: there is no such file\n",
    ),
    (
        "watch d 1 0 s",
        "fault full shard 0",
        "scotty: a watch has one shard, and it would have more than 4194304 entries: watch the sources in parts, by their keys or times\n",
    ),
];

#[test]
fn each_line_is_explained(rt: HostRuntime) -> Result<(), Fail> {
    for (words, line, wanted) in &SAID {
        says(&rt, &rt, rt.alloc(), words, line, wanted)?;
    }
    Ok(())
}

// Of a command with these words, parted by blanks, and of this line of its answer, this is said.
fn says<P: Abort, R: Threads>(
    rt: &P,
    leave: &R,
    alloc: Global,
    words: &str,
    line: &str,
    wanted: &str,
) -> Result<(), Fail> {
    let words = words_of(alloc, words)?;
    let mut kept = Kept {
        alloc,
        files: FILES,
    };
    let help = explain(alloc, leave, &words, line.as_bytes(), &mut kept);
    assert_eq!(rt; help.as_str(), wanted, "{line}");
    Ok(())
}

fn words_of(alloc: Global, text: &str) -> Result<Vec<String>, Fail> {
    let mut words = Vec::new(alloc);
    for word in text.split(' ') {
        words.push(String::from_str(alloc, word)?)?;
    }
    Ok(words)
}
