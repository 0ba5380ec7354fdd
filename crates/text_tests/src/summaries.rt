use crate::said::key_of;
use crate::sinks::sink;
use emission_text::write_summary;
use std::process::Abort;
use stream_base::{FINAL, Row, Shown};

// A window, a key, a start and an end, a number, and what is shown.
type Told = (u32, &'static str, u64, u64, u64, Shown);

const ROWS: [Told; 5] = [
    (0, "a", 0, 5, 2, Shown::Whole(9)),
    (2, "a", 0, FINAL, 1, Shown::Ratio { sum: -7, count: 2 }),
    (0, "b", 5, 10, 3, Shown::Whole(-1)),
    (3, "b", 0, 2, u64::MAX, Shown::Whole(0)),
    (3, "b", 2, 4, u64::MAX, Shown::Whole(0)),
];

const SUMMARY: &str = "made 12
window 0 2 5
+ 0 5 10 3 -1 b
window 1 0 0
window 2 1 1
+ 2 0 end 1 -7/2 a
window 3 2 36893488147419103230
+ 3 2 4 18446744073709551615 0 b
end
";

fn row(rt: &impl Abort, told: &Told) -> Row {
    let (window, key, low, high, number, shown) = *told;
    Row {
        window,
        key: key_of(rt, key),
        low,
        high,
        number,
        shown,
    }
}

#[test]
fn each_window_has_its_rows_their_numbers_and_its_last_row(rt: HostRuntime) {
    let rows = ROWS.each_ref().map(|told| row(&rt, told));
    let mut sink = sink(&rt, 200, 7);
    assert!(rt; write_summary(12, 4, &rows, &mut sink).is_ok());
    assert_eq!(rt; sink.bytes(), SUMMARY.as_bytes());
}
