// The end of a trace in both forms: its file stays with it, or comes back.
use super::*;
use std::process::Abort;
use std::test::Fail;

// The end as one calls it who knows of the file only that octets go into it, and so may not drop it.
fn trace_ended<F: Write>(trace: &mut Trace<F>) -> io::Result<()> {
    trace.finish()
}

fn clock_ended<F: Write>(clock: &mut Clock<F>) -> io::Result<()> {
    clock.finish()
}

// A file has three blocks with so many records, and the check of each is right.
fn has_blocks(rt: &impl Abort, file: &[u8], records: [u16; 3]) {
    let (blocks, rest) = file.as_chunks::<{ block::OCTETS }>();
    assert!(rt; rest.is_empty());
    assert_eq!(rt; blocks.len(), records.len());
    for (b, n) in blocks.iter().zip(records) {
        assert_eq!(rt; block::count(b), n);
        assert_eq!(rt; block::sums::remainder(b), 0);
    }
}

#[test]
fn file_of_a_trace(rt: HostRuntime) -> Result<(), Fail> {
    let mut file = Vec::new(rt.alloc());
    let mut trace = Trace::new(Some(&mut file));
    trace_ended(&mut trace)?;
    trace.record(1, 5, &[7; 64])?;
    trace_ended(&mut trace)?;
    trace.record(2, 6, &[8; 64])?;
    trace_ended(&mut trace)?;
    assert!(rt; trace.release()?.is_some());
    trace.record(3, 7, &[9; 64])?;
    assert!(rt; trace.release()?.is_none());
    // nothing, one record, two, and the same two again; the third went nowhere
    has_blocks(&rt, &file, [1, 2, 2]);
    Ok(())
}

#[test]
fn file_of_the_clock(rt: HostRuntime) -> Result<(), Fail> {
    let mut file = Vec::new(rt.alloc());
    let mut clock = Clock::new(Some(&mut file));
    clock.beat(DAWN)?;
    clock_ended(&mut clock)?;
    clock_ended(&mut clock)?;
    assert!(rt; clock.release()?.is_some());
    clock_ended(&mut clock)?;
    // two masters, the boundary clock and the tenant's
    has_blocks(&rt, &file, [4, 4, 4]);
    Ok(())
}
