use slice_runs::cut_between;
use std::test::Fail;
use stream_base::{Def, Defs, Func, Kind, TIME_MAX};

#[test]
fn starts_ends_and_gaps_cut(rt: HostRuntime) -> Result<(), Fail> {
    let tumbling = Kind::Tumbling { length: 10 };
    let sliding = Kind::Sliding {
        length: 5,
        slide: 3,
    };
    let cases = [
        (tumbling, 0, 9, false),
        (tumbling, 9, 10, true),
        (tumbling, 10, 10, false),
        (tumbling, 10, 19, false),
        (tumbling, 0, 1000, true),
        (sliding, 0, 2, false),
        (sliding, 2, 3, true),
        (sliding, 3, 4, false),
        (sliding, 4, 5, true),
        (sliding, 6, 7, false),
        (sliding, 7, 8, true),
        (Kind::Session { gap: 5 }, 0, 4, false),
        (Kind::Session { gap: 5 }, 0, 5, true),
        (Kind::Marks, 0, TIME_MAX, false),
        (Kind::Events { count: 1 }, 0, TIME_MAX, false),
    ];
    for (kind, low, high, cut) in cases {
        let window = Def {
            kind,
            func: Func::Sum,
        };
        let defs = Defs::new(vec![in rt.alloc(); window]?, 0, 0, 0)?;
        assert!(rt; low <= high && high <= TIME_MAX);
        assert_eq!(rt; cut_between(&defs, low, high), cut, "{kind:?} {low} {high}");
    }
    Ok(())
}
