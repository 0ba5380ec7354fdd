use std::test::Fail;
use stream_base::{Def, Func, Kind};
use window_defs::{FUNCS, KINDS, func_named, is_kind, read_defs};

const IN_ORDER: [Def; 2] = [
    Def {
        kind: Kind::Tumbling { length: 60000 },
        func: Func::Mean,
    },
    Def {
        kind: Kind::Session { gap: 1_800_000 },
        func: Func::Count,
    },
];

#[test]
fn a_document_gives_its_windows_in_order(rt: HostRuntime) -> Result<(), Fail> {
    let text =
        "lateness = 30000\n\n[[window]]\nkind = \"tumbling\"\nlength = 60000\nfunc = \"mean\"\n\n[[window]]\nkind = \"session\"\ngap = 1800000\nfunc = \"count\"\n";
    let defs = read_defs(rt.alloc(), text.as_bytes())?;
    assert_eq!(rt; defs.windows(), IN_ORDER.as_slice());
    assert_eq!(rt;
        (defs.lateness(), defs.every(), defs.disorder()),
        (30000, 0, 0)
    );
    Ok(())
}

const AT_LIMITS: [Def; 7] = [
    Def {
        kind: Kind::Tumbling {
            length: 1_000_000_000_000_000,
        },
        func: Func::Sum,
    },
    Def {
        kind: Kind::Sliding {
            length: 2000,
            slide: 2,
        },
        func: Func::Min,
    },
    Def {
        kind: Kind::Sliding {
            length: 1,
            slide: 1,
        },
        func: Func::Max,
    },
    Def {
        kind: Kind::Session { gap: 1 },
        func: Func::First,
    },
    Def {
        kind: Kind::Marks,
        func: Func::Last,
    },
    Def {
        kind: Kind::Events { count: 4_194_304 },
        func: Func::Rises,
    },
    Def {
        kind: Kind::Events { count: 1 },
        func: Func::Trace,
    },
];

#[test]
fn numbers_at_their_limits_are_taken(rt: HostRuntime) -> Result<(), Fail> {
    let text = "lateness = 1_000_000_000_000_000\nevery = 0xF4240\ndisorder = 1000000000000000\n\
        window = [{kind = 'tumbling', length = 1000000000000000, func = 'sum'},\
        {kind = 'sliding', length = 2000, slide = 2, func = 'min'},\
        {kind = 'sliding', length = 1, slide = 1, func = 'max'},\
        {kind = 'session', gap = 1, func = 'first'},\
        {kind = 'marks', func = 'last'},\
        {kind = 'events', count = 4194304, func = 'rises'},\
        {kind = 'events', count = 1, func = 'trace'}]";
    let defs = read_defs(rt.alloc(), text.as_bytes())?;
    assert_eq!(rt; defs.windows(), AT_LIMITS.as_slice());
    assert_eq!(rt;
        (defs.lateness(), defs.every(), defs.disorder()),
        (1_000_000_000_000_000, 1_000_000, 1_000_000_000_000_000)
    );
    Ok(())
}

#[test]
fn each_listed_word_names_a_kind_or_a_function(rt: HostRuntime) -> Result<(), Fail> {
    for word in &KINDS {
        assert!(rt; is_kind(word));
    }
    for word in &FUNCS {
        assert!(rt; func_named(word).is_some());
    }
    Ok(())
}
