use crate::{
    Gate, GatePoint, MemSink, MemSource, OpenGate, Pull, Push, ReadSource, Sink, Source, SureSink,
    SureSource, WriteSink,
};
use std::alloc::Global;
use std::io::Cursor;
use std::test::Fail;

// What reads of three bytes at most give, one after another.
fn reads<S: Source>(source: &mut S, count: usize, alloc: Global) -> Result<Vec<Pull>, Fail> {
    let mut buf = [0u8; 3];
    let mut pulls = Vec::new(alloc);
    for _ in 0..count {
        pulls.push(source.read(&mut buf))?;
    }
    Ok(pulls)
}

#[test]
fn sources_give_pieces_and_fail_where_told(rt: HostRuntime) -> Result<(), Fail> {
    let alloc = rt.alloc();
    let bytes = b"abcd".as_slice();

    let mut source = MemSource::new(bytes.to_vec(alloc)?, 2, vec![in alloc; 2]?);
    let pulls = reads(&mut source, 4, alloc)?;
    let want = [Pull::Got(2), Pull::Failed, Pull::Got(2), Pull::Got(0)];
    assert_eq!(rt; pulls.as_slice(), want.as_slice());

    let mut source = MemSource::new(bytes.to_vec(alloc)?, 0, Vec::new(alloc));
    let pulls = reads(&mut source, 1, alloc)?;
    assert_eq!(rt; pulls.as_slice(), [Pull::Got(1)].as_slice());

    let mut source = SureSource::new(bytes.to_vec(alloc)?);
    let pulls = reads(&mut source, 3, alloc)?;
    let want = [Pull::Got(3), Pull::Got(1), Pull::Got(0)];
    assert_eq!(rt; pulls.as_slice(), want.as_slice());

    let mut source = ReadSource::new(Cursor::new(bytes));
    let pulls = reads(&mut source, 3, alloc)?;
    assert_eq!(rt; pulls.as_slice(), want.as_slice());
    Ok(())
}

#[test]
fn sinks_take_pieces_and_fail_where_told(rt: HostRuntime) -> Result<(), Fail> {
    let alloc = rt.alloc();
    let mut sink = MemSink::new(alloc, vec![in alloc; 2]?);
    for (piece, want) in [
        (b"ab".as_slice(), Push::Took(2)),
        (b"cd".as_slice(), Push::Failed),
        (b"ef".as_slice(), Push::Took(2)),
    ] {
        assert_eq!(rt; sink.write(piece), want);
        assert!(rt; !sink.is_starved());
    }
    assert_eq!(rt; sink.written(), b"abef".as_slice());

    let mut sink = SureSink::new(vec![in alloc; 0u8; 3]?);
    for (piece, want) in [
        (b"ab".as_slice(), Push::Took(2)),
        (b"cd".as_slice(), Push::Took(1)),
        (b"e".as_slice(), Push::Failed),
        (b"".as_slice(), Push::Took(0)),
    ] {
        assert_eq!(rt; sink.write(piece), want);
    }
    assert_eq!(rt; sink.written(), b"abc".as_slice());

    let mut sink = WriteSink::new(Vec::<u8>::new(alloc));
    assert_eq!(rt; sink.write(b"ab"), Push::Took(2));
    OpenGate.at(0, GatePoint::Start);
    Ok(())
}
