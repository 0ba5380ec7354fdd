use std::test::Fail;
use stream_base::FINAL;
use watermark_table::{Verdict, Waters};

// Source 1 is idle, wakes below the watermark, and is idle again; then source 0 is idle too, wakes
// and ends.
#[test]
fn idle_sources_hold_nothing_back_and_the_watermark_never_falls(
    rt: HostRuntime,
) -> Result<(), Fail> {
    let mut waters = Waters::new(rt.alloc(), 2, 0)?;
    assert_eq!(rt; waters.water(), 0);
    assert_eq!(rt; waters.raise(0, 20), 0);
    assert_eq!(rt; waters.after_idle(1), 20);
    assert_eq!(rt; waters.water(), 0);
    assert_eq!(rt; waters.idle(1), 20);
    assert_eq!(rt; waters.raise(1, 3), 20);
    assert_eq!(rt; waters.verdict(15), Verdict::Late);
    assert_eq!(rt; waters.verdict(20), Verdict::Accepted);
    assert_eq!(rt; waters.idle(1), 20);
    assert_eq!(rt; waters.idle(0), 20);
    assert_eq!(rt; waters.after(0, 30), 30);
    assert_eq!(rt; waters.raise(0, 30), 30);
    assert_eq!(rt; waters.end(0), 30);
    assert_eq!(rt; waters.has_ended(0), true);
    assert_eq!(rt; waters.has_ended(1), false);
    assert_eq!(rt; waters.after(1, FINAL), FINAL);
    assert_eq!(rt; waters.end(1), FINAL);
    Ok(())
}

#[test]
fn a_tuple_may_be_late_by_the_lateness(rt: HostRuntime) -> Result<(), Fail> {
    let mut waters = Waters::new(rt.alloc(), 2, 5)?;
    assert_eq!(rt; waters.raise(0, 20), 0);
    assert_eq!(rt; waters.raise(1, 10), 10);
    assert_eq!(rt; waters.verdict(5), Verdict::Accepted);
    assert_eq!(rt; waters.verdict(4), Verdict::Late);
    assert_eq!(rt; waters.end(1), 20);
    assert_eq!(rt; waters.end(0), FINAL);
    Ok(())
}
