// Days on the simulator.
use crate::words::{failed, job, made, stamped};
use host::{FileView, Host, Refusal};
use simulator::Simulator;
use std::test::Fail;

#[test]
fn shorter_text_ends_first(rt: HostRuntime) -> Result<(), Fail> {
    let mut sim = Simulator::new(rt.alloc())?;
    assert_eq!(rt; sim.outside_write(0, Some(7)), Ok(1));
    assert_eq!(rt; sim.start(job(5, b"sum\0x", &[0], &[1, 2])), Ok(2));
    assert_eq!(rt; sim.start(job(3, b"ab", &[], &[3])), Ok(3));
    assert_eq!(rt; sim.poll(), made(3));
    assert_eq!(rt; sim.tick(), 2);
    assert_eq!(rt; sim.tell(3), Ok(stamped(4, 994581758)));
    assert_eq!(rt; sim.poll(), made(5));
    assert_eq!(rt; sim.tick(), 3);
    assert_eq!(rt; sim.tell(1), Ok(stamped(5, 1490459733)));
    assert_eq!(rt; sim.tell(2), Ok(stamped(6, 1473682114)));
    Ok(())
}

#[test]
fn equal_mark_keeps_its_stamp(rt: HostRuntime) -> Result<(), Fail> {
    let mut sim = Simulator::new(rt.alloc())?;
    assert_eq!(rt; sim.start(job(3, b"ab", &[], &[3])), Ok(1));
    assert_eq!(rt; sim.poll(), made(3));
    assert_eq!(rt; sim.start(job(3, b"ab", &[], &[3])), Ok(3));
    assert_eq!(rt; sim.poll(), made(3));
    assert_eq!(rt; sim.tell(3), Ok(stamped(2, 994581758)));
    assert_eq!(rt; sim.clock(), 3);
    Ok(())
}

#[test]
fn low_byte_of_a_mark_first(rt: HostRuntime) -> Result<(), Fail> {
    let mut sim = Simulator::new(rt.alloc())?;
    assert_eq!(rt; sim.outside_write(9, Some(0x0102_0304)), Ok(1));
    assert_eq!(rt; sim.start(job(1, b"z", &[9], &[10])), Ok(2));
    assert_eq!(rt; sim.poll(), made(1));
    assert_eq!(rt; sim.tell(10), Ok(stamped(3, 773962887)));
    Ok(())
}

#[test]
fn failure_and_break_off_remove(rt: HostRuntime) -> Result<(), Fail> {
    let mut sim = Simulator::new(rt.alloc())?;
    assert_eq!(rt; sim.outside_write(1, Some(4)), Ok(1));
    assert_eq!(rt; sim.start(job(9, b"fail now", &[], &[1])), Ok(2));
    assert_eq!(rt; sim.poll(), failed(9));
    assert_eq!(rt; sim.tell(1), Ok(None));
    assert_eq!(rt; sim.outside_write(2, Some(4)), Ok(3));
    assert_eq!(rt; sim.start(job(8, b"cut", &[], &[2])), Ok(4));
    assert_eq!(rt; sim.break_off(8), Ok(true));
    assert_eq!(rt; sim.tell(2), Ok(None));
    assert_eq!(rt; sim.break_off(8), Ok(false));
    assert_eq!(rt; sim.poll(), None);
    assert_eq!(rt; sim.clock(), 4);
    Ok(())
}

#[test]
fn absent_read_fails(rt: HostRuntime) -> Result<(), Fail> {
    let mut sim = Simulator::new(rt.alloc())?;
    assert_eq!(rt; sim.start(job(0, b"sum", &[4], &[5])), Ok(1));
    assert_eq!(rt; sim.outside_write(4, Some(1)), Ok(2));
    assert_eq!(rt; sim.poll(), failed(0));
    Ok(())
}

#[test]
fn tie_goes_to_the_lower_edge(rt: HostRuntime) -> Result<(), Fail> {
    let mut sim = Simulator::new(rt.alloc())?;
    assert_eq!(rt; sim.start(job(8, b"xy", &[], &[1])), Ok(1));
    assert_eq!(rt; sim.start(job(2, b"ab", &[], &[2])), Ok(2));
    assert_eq!(rt; sim.poll(), made(2));
    assert_eq!(rt; sim.poll(), made(8));
    Ok(())
}

#[test]
fn sixteen_at_once(rt: HostRuntime) -> Result<(), Fail> {
    let mut sim = Simulator::new(rt.alloc())?;
    for edge in 0..16usize {
        assert!(rt; sim.start(job(edge, b"x", &[], &[edge])).is_ok());
    }
    assert_eq!(rt; sim.start(job(16, b"x", &[], &[16])), Err(Refusal::Busy));
    assert_eq!(rt;
        sim.start(job(128, b"x", &[], &[16])),
        Err(Refusal::BadCall)
    );
    assert_eq!(rt; sim.start(job(3, b"x", &[], &[16])), Err(Refusal::BadCall));
    assert_eq!(rt; sim.clock(), 16);
    Ok(())
}

#[test]
fn bad_calls(rt: HostRuntime) -> Result<(), Fail> {
    let mut sim = Simulator::new(rt.alloc())?;
    assert_eq!(rt; sim.start(job(0, b"x", &[], &[])), Err(Refusal::BadCall));
    assert_eq!(rt;
        sim.start(job(0, b"x", &[], &[1, 2, 1])),
        Err(Refusal::BadCall)
    );
    assert_eq!(rt;
        sim.start(job(0, b"x", &[256], &[1])),
        Err(Refusal::BadCall)
    );
    assert_eq!(rt; sim.start(job(0, b"x", &[], &[256])), Err(Refusal::BadCall));
    assert_eq!(rt;
        sim.start(job(0, b"x", &[1; 65], &[1])),
        Err(Refusal::BadCall)
    );
    assert_eq!(rt;
        sim.start(job(0, &[120; 1025], &[], &[1])),
        Err(Refusal::BadCall)
    );
    assert_eq!(rt; sim.outside_write(256, Some(1)), Err(Refusal::BadCall));
    assert_eq!(rt; sim.tell(256), Err(Refusal::BadCall));
    assert_eq!(rt; sim.break_off(128), Err(Refusal::BadCall));
    assert_eq!(rt; sim.clock(), 0);
    Ok(())
}
