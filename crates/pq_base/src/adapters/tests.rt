use super::{ReadSource, WriteSink};
use crate::{Pull, Push, Sink, Source};
use std::io;
use std::test::Fail;

/// How often each reader and writer is called.
const CALLS: u64 = 5;

// A reader whose calls give a byte each, but for the one of this number, counted from 1.
#[derive(Drop)]
struct Reader {
    calls: u64,
    fails_at: u64,
}

impl io::Read for Reader {
    fn read(&mut self, buf: &mut [u8]) -> io::Result<usize> {
        self.calls = self.calls.saturating_add(1);
        if self.calls == self.fails_at {
            return Err(io::Error::from(io::ErrorKind::ConnectionReset));
        }
        match buf.first_mut() {
            Some(byte) => {
                *byte = b'x';
                Ok(1)
            }
            None => Ok(0),
        }
    }
}

// A writer that takes two bytes of a piece at most, but at one call fails or takes nothing.
#[derive(Drop)]
struct Writer {
    calls: u64,
    fails_at: u64,
    takes_nothing: bool,
}

impl io::Write for Writer {
    fn write(&mut self, piece: &[u8]) -> io::Result<usize> {
        self.calls = self.calls.saturating_add(1);
        if self.calls != self.fails_at {
            return Ok(piece.len().min(2));
        }
        if self.takes_nothing {
            return Ok(0);
        }
        Err(io::Error::from(io::ErrorKind::BrokenPipe))
    }

    fn flush(&mut self) -> io::Result<()> {
        Ok(())
    }
}

#[test]
fn an_error_of_a_reader_is_a_fault_of_its_call_alone(rt: HostRuntime) -> Result<(), Fail> {
    for fails_at in 1..=CALLS {
        let mut source = ReadSource::new(Reader { calls: 0, fails_at });
        for call in 1..=CALLS {
            let want = if call == fails_at {
                Pull::Failed
            } else {
                Pull::Got(1)
            };
            let mut buf = [0u8; 3];
            assert_eq!(rt; source.read(&mut buf), want, "call {call} of {fails_at}");
            assert_eq!(rt;
                source.faults,
                u64::from(call >= fails_at),
                "call {call} of {fails_at}"
            );
        }
    }
    Ok(())
}

#[test]
fn an_error_of_a_writer_is_a_fault_of_its_call_alone(rt: HostRuntime) -> Result<(), Fail> {
    for (fails_at, takes_nothing) in [
        (1, false),
        (3, false),
        (CALLS, false),
        (1, true),
        (4, true),
    ] {
        let mut sink = WriteSink::new(Writer {
            calls: 0,
            fails_at,
            takes_nothing,
        });
        for call in 1..=CALLS {
            let want = if call == fails_at {
                Push::Failed
            } else {
                Push::Took(2)
            };
            assert_eq!(rt; sink.write(b"abc"), want, "call {call} of {fails_at}");
            assert_eq!(rt;
                sink.faults,
                u64::from(call >= fails_at),
                "call {call} of {fails_at}"
            );
        }
        assert_eq!(rt; sink.write(b""), Push::Took(0));
    }
    Ok(())
}
