use std::process::Abort;
use std::test::Fail;
use window_defs::{BYTES_MAX, DefsFault, first_in_trouble_is_named, read_defs};

const SHAPE: DefsFault = DefsFault::Shape { window: None };

const SHAPE_0: DefsFault = DefsFault::Shape { window: Some(0) };

const SHAPE_1: DefsFault = DefsFault::Shape { window: Some(1) };

const LIMIT: DefsFault = DefsFault::Limit { window: None };

const LIMIT_0: DefsFault = DefsFault::Limit { window: Some(0) };

const LIMIT_1: DefsFault = DefsFault::Limit { window: Some(1) };

fn refuses(rt: &(impl AllocGlobal + Abort), text: &str, fault: DefsFault) {
    let answer = read_defs(rt.alloc(), text.as_bytes()).err();
    assert_eq!(rt; answer, Some(fault), "{text}");
}

// The same of a text of these windows.
fn refuses_windows(rt: &(impl AllocGlobal + Abort), windows: &str, fault: DefsFault) {
    let Ok(text) = format!(in rt.alloc(); "window = [{windows}]") else {
        panic!(rt; "out of memory");
    };
    refuses(rt, text.as_str(), fault);
}

// A text, and the first of its faults in the order of causes.
const ORDER: [(&str, DefsFault); 26] = [
    ("lateness =", DefsFault::Toml),
    ("late = 1\nlateness =", DefsFault::Toml),
    (
        "lateness = 9223372036854775808\nwindow = []",
        DefsFault::Toml,
    ),
    ("window = []\nwindow = []", DefsFault::Toml),
    (
        "window.x = 1\n[[window]]\nkind = 'marks'\nfunc = 'sum'",
        DefsFault::Toml,
    ),
    ("", SHAPE),
    ("lateness = 0", SHAPE),
    ("window = 3", SHAPE),
    ("[window]", SHAPE),
    ("Window = [{kind = 'marks', func = 'sum'}]", SHAPE),
    ("late = 1\nwindow = [{kind = 'marks', func = 'sum'}]", SHAPE),
    (
        "lateness = 1.5\nwindow = [{kind = 'marks', func = 'sum'}]",
        SHAPE,
    ),
    (
        "lateness = 1e3\nwindow = [{kind = 'marks', func = 'sum'}]",
        SHAPE,
    ),
    (
        "lateness = 1.0\nwindow = [{kind = 'marks', func = 'sum'}]",
        SHAPE,
    ),
    (
        "lateness = '1'\nwindow = [{kind = 'marks', func = 'sum'}]",
        SHAPE,
    ),
    (
        "every = true\nwindow = [{kind = 'marks', func = 'sum'}]",
        SHAPE,
    ),
    (
        "disorder = 1979-05-27\nwindow = [{kind = 'marks', func = 'sum'}]",
        SHAPE,
    ),
    ("lateness = 1.5\nwindow = []", SHAPE),
    ("window = []", DefsFault::Many),
    ("lateness = -1\nwindow = []", DefsFault::Many),
    (
        "lateness = -1\nwindow = [{kind = 'marks', func = 'sum'}]",
        LIMIT,
    ),
    ("lateness = -1\nwindow = [1]", LIMIT),
    (
        "lateness = 1000000000000001\nwindow = [{kind = 'marks', func = 'sum'}]",
        LIMIT,
    ),
    (
        "every = 1000001\nwindow = [{kind = 'marks', func = 'sum'}]",
        LIMIT,
    ),
    (
        "every = -1\nwindow = [{kind = 'marks', func = 'sum'}]",
        LIMIT,
    ),
    (
        "disorder = 1000000000000001\nwindow = [{kind = 'marks', func = 'sum'}]",
        LIMIT,
    ),
];

#[test]
fn each_fault_is_the_first_in_the_order(rt: HostRuntime) {
    for (text, fault) in &ORDER {
        refuses(&rt, text, *fault);
    }
}

// Windows, and the first fault of the first one in trouble.
const WINDOWS: [(&str, DefsFault); 31] = [
    ("1", SHAPE_0),
    ("{func = 'sum'}", SHAPE_0),
    ("{kind = 'marks'}", SHAPE_0),
    ("{kind = 1, func = 'sum'}", SHAPE_0),
    ("{kind = 'marks', func = 1}", SHAPE_0),
    ("{kind = 'Marks', func = 'sum'}", SHAPE_0),
    ("{kind = 'marks', func = 'SUM'}", SHAPE_0),
    ("{kind = 'tumbling', length = 10, func = 'median'}", SHAPE_0),
    ("{kind = 'tumbling', func = 'sum'}", SHAPE_0),
    ("{kind = 'tumbling', length = '10', func = 'sum'}", SHAPE_0),
    ("{kind = 'tumbling', length = 10.0, func = 'sum'}", SHAPE_0),
    ("{kind = 'tumbling', length = 1e3, func = 'sum'}", SHAPE_0),
    ("{kind = 'tumbling', length = true, func = 'sum'}", SHAPE_0),
    (
        "{kind = 'tumbling', length = 10, slide = 5, func = 'sum'}",
        SHAPE_0,
    ),
    ("{kind = 'sliding', length = 10, func = 'sum'}", SHAPE_0),
    ("{kind = 'session', length = 10, func = 'sum'}", SHAPE_0),
    ("{kind = 'marks', count = 10, func = 'sum'}", SHAPE_0),
    ("{kind = 'events', func = 'sum'}", SHAPE_0),
    ("{kind = 'tumbling', length = 0, func = 'sum'}", LIMIT_0),
    ("{kind = 'tumbling', length = -1, func = 'sum'}", LIMIT_0),
    (
        "{kind = 'tumbling', length = 1000000000000001, func = 'sum'}",
        LIMIT_0,
    ),
    (
        "{kind = 'sliding', length = 2001, slide = 2, func = 'count'}",
        LIMIT_0,
    ),
    (
        "{kind = 'sliding', length = 2, slide = 3, func = 'sum'}",
        LIMIT_0,
    ),
    (
        "{kind = 'sliding', length = 2, slide = 0, func = 'sum'}",
        LIMIT_0,
    ),
    ("{kind = 'session', gap = 0, func = 'sum'}", LIMIT_0),
    ("{kind = 'events', count = 0, func = 'sum'}", LIMIT_0),
    ("{kind = 'events', count = 4194305, func = 'sum'}", LIMIT_0),
    (
        "{kind = 'tumbling', length = 0, func = 'sum'}, {kind = 'hopping', func = 'sum'}",
        LIMIT_0,
    ),
    (
        "{kind = 'hopping', func = 'sum'}, {kind = 'session', gap = 0, func = 'sum'}",
        SHAPE_0,
    ),
    ("{kind = 'marks', func = 'sum'}, 1", SHAPE_1),
    (
        "{kind = 'marks', func = 'sum'}, {kind = 'session', gap = 0, func = 'sum'}",
        LIMIT_1,
    ),
];

#[test]
fn the_first_window_in_trouble_is_named(rt: HostRuntime) {
    first_in_trouble_is_named();
    for (windows, fault) in &WINDOWS {
        refuses_windows(&rt, windows, *fault);
    }
}

#[test]
fn keys_below_a_window_belong_to_it(rt: HostRuntime) {
    for more in ["lateness = 3", "[window.x]"] {
        let Ok(text) = format!(in rt.alloc(); "[[window]]\nkind = 'marks'\nfunc = 'sum'\n{more}\n")
        else {
            panic!(rt; "out of memory");
        };
        refuses(&rt, text.as_str(), SHAPE_0);
    }
}

#[test]
fn more_than_32_windows_are_too_many_whatever_the_numbers(rt: HostRuntime) -> Result<(), Fail> {
    let window = "[[window]]\nkind = 'marks'\nfunc = 'sum'\n";
    let mut text = String::from_str(rt.alloc(), "lateness = -1\n")?;
    for _ in 0..32 {
        text.push_str(window)?;
    }
    refuses(&rt, text.as_str(), LIMIT);
    text.push_str(window)?;
    refuses(&rt, text.as_str(), DefsFault::Many);
    Ok(())
}

#[test]
fn bytes_beyond_the_limit_are_long_whatever_they_hold(rt: HostRuntime) -> Result<(), Fail> {
    let mut bytes = vec![in rt.alloc(); b'\n'; BYTES_MAX]?;
    assert_eq!(rt; read_defs(rt.alloc(), &bytes).err(), Some(SHAPE));
    bytes.push(b'=')?;
    assert_eq!(rt; read_defs(rt.alloc(), &bytes).err(), Some(DefsFault::Long));
    assert_eq!(rt; read_defs(rt.alloc(), b"\xFF").err(), Some(DefsFault::Toml));
    Ok(())
}

#[test]
fn a_fault_is_told_in_words(rt: HostRuntime) -> Result<(), Fail> {
    let text = format!(in rt.alloc(); "{}; {}", DefsFault::Many, SHAPE_0)?;
    assert_eq!(rt;
        text.as_str(),
        "there must be 1 to 32 windows; the keys or values of the definitions are wrong"
    );
    Ok(())
}
