use part_text::part_defs_bytes;
use std::alloc::Global;
use std::process::Abort;
use std::test::Fail;
use stream_base::{Def, Defs, Func, Kind};
use window_defs::read_defs;

const KINDS: [Kind; 9] = [
    Kind::Tumbling { length: 1 },
    Kind::Tumbling {
        length: 1_000_000_000_000_000,
    },
    Kind::Sliding {
        length: 1_000,
        slide: 1,
    },
    Kind::Sliding {
        length: 1_000_000_000_000_000,
        slide: 1_000_000_000_000_000,
    },
    Kind::Session { gap: 1 },
    Kind::Session {
        gap: 1_000_000_000_000_000,
    },
    Kind::Marks,
    Kind::Events { count: 1 },
    Kind::Events { count: 4_194_304 },
];

const FUNCS: [Func; 9] = [
    Func::Count,
    Func::Sum,
    Func::Min,
    Func::Max,
    Func::Mean,
    Func::First,
    Func::Last,
    Func::Rises,
    Func::Trace,
];

// The text of the definitions with these windows is read back, with all but `every`.
fn are_read_back<R: Abort>(
    rt: &R,
    alloc: Global,
    windows: Vec<Def>,
    number: u64,
) -> Result<(), Fail> {
    let defs = Defs::new(windows, number, number.min(1_000_000), number)?;
    let text = part_defs_bytes(alloc, &defs)?;
    let read = read_defs(alloc, &text)?;
    assert_eq!(rt; read.windows(), defs.windows());
    assert_eq!(rt; read.lateness(), number);
    assert_eq!(rt; read.every(), 0);
    assert_eq!(rt; read.disorder(), number);
    Ok(())
}

#[test]
fn definitions_of_each_kind_and_function_are_read_back(rt: HostRuntime) -> Result<(), Fail> {
    let alloc = rt.alloc();
    for kind in &KINDS {
        let mut windows = Vec::new(alloc);
        for func in &FUNCS {
            windows.push(Def {
                kind: *kind,
                func: *func,
            })?;
        }
        are_read_back(&rt, alloc, windows, 1_000_000_000_000_000)?;
    }
    Ok(())
}

#[test]
fn as_many_windows_as_there_may_be_are_read_back(rt: HostRuntime) -> Result<(), Fail> {
    let alloc = rt.alloc();
    let mut windows = Vec::new(alloc);
    for _ in 0..32 {
        windows.push(Def {
            kind: Kind::Marks,
            func: Func::Sum,
        })?;
    }
    are_read_back(&rt, alloc, windows, 0)
}
