// Days along a recording.
use crate::words::{job, made, stamped};
use host::{FileView, Host, Refusal};
use replay::{Fault, Replay};
use std::alloc::Global;
use std::test::Fail;

fn replay(heap: Global, recording: &[u8]) -> Result<Replay, Fail> {
    Replay::new(heap, recording).map_err(|_| Fail::new("no replay"))
}

fn is_malformed(heap: Global, recording: &[u8]) -> bool {
    matches!(Replay::new(heap, recording), Err(Fault::Malformed))
}

#[test]
fn forms_of_a_recording(rt: HostRuntime) {
    assert!(rt; is_malformed(rt.alloc(), b""));
    assert!(rt; is_malformed(rt.alloc(), b"NJ"));
    assert!(rt; is_malformed(rt.alloc(), b"NJS"));
    assert!(rt; is_malformed(rt.alloc(), b"NJR\x80"));
    assert!(rt; is_malformed(rt.alloc(), &[78; 600]));
    assert!(rt; !is_malformed(rt.alloc(), b"NJR"));
    assert!(rt; !is_malformed(rt.alloc(), b"NJR\x00\x7f"));
}

#[test]
fn recorded_order(rt: HostRuntime) -> Result<(), Fail> {
    let mut day = replay(rt.alloc(), b"NJR\x05\x03\x05")?;
    assert_eq!(rt; day.start(job(3, b"a", &[], &[3])), Ok(1));
    assert_eq!(rt; day.start(job(5, b"a long one", &[], &[5])), Ok(2));
    assert_eq!(rt; day.poll(), made(5));
    assert_eq!(rt; day.start(job(5, b"again", &[], &[5])), Ok(4));
    assert_eq!(rt; day.poll(), made(3));
    assert_eq!(rt; day.poll(), made(5));
    assert_eq!(rt; day.endings_left().len(), 0);
    Ok(())
}

#[test]
fn lowest_where_none_is_listed(rt: HostRuntime) -> Result<(), Fail> {
    let mut day = replay(rt.alloc(), b"NJR\x01\x02")?;
    assert_eq!(rt; day.start(job(7, b"a", &[], &[3])), Ok(1));
    assert_eq!(rt; day.start(job(4, b"b", &[], &[4])), Ok(2));
    assert_eq!(rt; day.poll(), made(4));
    assert_eq!(rt; day.endings_left().len(), 2);
    assert_eq!(rt; day.start(job(2, b"c", &[], &[5])), Ok(4));
    assert_eq!(rt; day.poll(), made(2));
    assert_eq!(rt; day.endings_left().len(), 0);
    Ok(())
}

#[test]
fn always_writes(rt: HostRuntime) -> Result<(), Fail> {
    let mut day = replay(rt.alloc(), b"NJR")?;
    assert_eq!(rt; day.start(job(3, b"ab", &[], &[3])), Ok(1));
    assert_eq!(rt; day.poll(), made(3));
    assert_eq!(rt; day.start(job(3, b"ab", &[], &[3])), Ok(3));
    assert_eq!(rt; day.poll(), made(3));
    assert_eq!(rt; day.tell(3), Ok(stamped(4, 994581758)));
    Ok(())
}

#[test]
fn eight_at_once(rt: HostRuntime) -> Result<(), Fail> {
    let mut day = replay(rt.alloc(), b"NJR")?;
    for edge in 0..8usize {
        assert!(rt; day.start(job(edge, b"x", &[], &[edge])).is_ok());
    }
    assert_eq!(rt; day.start(job(8, b"x", &[], &[8])), Err(Refusal::Busy));
    Ok(())
}
