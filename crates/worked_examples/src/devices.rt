//! The calls of devices: which parts they give and take, and what a failure leaves.
ghost use Rattle.std.specs.Prelude.{◌≤◌, IfOk};

use std::io::{Error, ErrorKind, Read, Write};
use std::test::Fail;
use trace_core::devices::{ArraySink, TapeSource};
use trace_core::{DeviceFault, FromRead, Sink, Source, ToWrite, write_all};

#[test]
fn a_tape_gives_parts_and_fails_once(rt: HostRuntime) -> Result<(), Fail> {
    let mut source = TapeSource::new(b"abcdefgh", 4, 2);
    let mut into = [b'-'; 3];
    assert!(rt; source.read(&mut into) == Ok(3));
    assert!(rt; into == *b"abc");
    assert!(rt; source.read(&mut into) == Err(DeviceFault));
    let mut into = [b'-'; 6];
    assert!(rt; source.read(&mut into) == Ok(4));
    assert!(rt; into == *b"defg--");
    assert!(rt; source.read(&mut []) == Ok(0));
    assert!(rt; source.read(&mut into) == Ok(1));
    assert!(rt; into[0] == b'h');
    assert!(rt; source.read(&mut into) == Ok(0));
    assert!(rt; source.calls() == 6);
    Ok(())
}

#[test]
fn an_array_takes_parts_and_fails_once(rt: HostRuntime) -> Result<(), Fail> {
    let mut sink = ArraySink::new(4, 2);
    let writes = [
        (b"abcdef".as_slice(), Ok(4)),
        (b"ef".as_slice(), Err(DeviceFault)),
        (b"ef".as_slice(), Ok(2)),
        (b"".as_slice(), Ok(0)),
    ];
    for (i, (bytes, answer)) in writes.into_iter().enumerate() {
        assert!(rt; sink.write(bytes) == answer, "at write {i}");
    }
    assert!(rt; sink.held() == b"abcdef".as_slice());
    assert!(rt; sink.calls() == 4);
    Ok(())
}

#[test]
fn a_flush_of_an_array_is_a_call(rt: HostRuntime) -> Result<(), Fail> {
    let mut sink = ArraySink::new(4, 2);
    assert!(rt; sink.flush() == Ok(()));
    assert!(rt; sink.flush() == Err(DeviceFault));
    assert!(rt; sink.calls() == 2);
    Ok(())
}

#[test]
fn a_full_array_fails(rt: HostRuntime) -> Result<(), Fail> {
    let mut sink = ArraySink::new(usize::MAX, 0);
    let bytes = [b'x'; 1024];
    assert!(rt; write_all(&mut sink, &bytes[1..]) == Ok(()));
    assert!(rt; sink.write(b"yz") == Ok(1));
    assert!(rt; sink.write(b"z") == Err(DeviceFault));
    assert!(rt; sink.write(b"") == Ok(0));
    assert!(rt; sink.flush() == Ok(()));
    assert!(rt; sink.held().len() == 1024);
    assert!(rt; &sink.held()[1022..] == b"xy".as_slice());
    Ok(())
}

#[test]
fn writing_all_takes_one_call_a_part_and_no_flush(rt: HostRuntime) -> Result<(), Fail> {
    for (most, calls) in [(1, 5), (2, 3), (4, 2), (5, 1), (9, 1)] {
        let mut sink = ArraySink::new(most, 0);
        assert!(rt; write_all(&mut sink, b"hello") == Ok(()));
        assert!(rt; sink.held() == b"hello".as_slice());
        assert!(rt; sink.calls() == calls);
    }
    let mut sink = ArraySink::new(1, 1);
    assert!(rt; write_all(&mut sink, b"") == Ok(()));
    assert!(rt; sink.calls() == 0);
    Ok(())
}

#[test]
fn writing_all_leaves_a_failed_sink_alone(rt: HostRuntime) -> Result<(), Fail> {
    let text = b"hello";
    for call in 1..6usize {
        let mut sink = ArraySink::new(1, call as u64);
        assert!(rt; write_all(&mut sink, text) == Err(DeviceFault));
        assert!(rt; sink.held() == &text[..call - 1]);
        assert!(rt; sink.calls() == call as u64);
    }
    Ok(())
}

/// A reader and writer that moves a byte a call, and at one call fails or moves nothing.
#[derive(Drop)]
struct Halting {
    calls: u64,
    flushes: u64,
    halts_at: u64,
    error: Option<ErrorKind>,
    last: u8,
}

impl Halting {
    fn at(call: u64, error: Option<ErrorKind>) -> Halting {
        Halting {
            calls: 0,
            flushes: 0,
            halts_at: call,
            error,
            last: b'a',
        }
    }

    /// How many bytes the next call moves, of so many.
    fn turn(&mut self, most: usize) -> std::io::Result<usize>
        ensures { IfOk result (λ n. n ≤ most) }
    {
        self.calls = self.calls.saturating_add(1);
        match self.error {
            _ if self.calls != self.halts_at => Ok(most.min(1)),
            Some(kind) => Err(Error::from(kind)),
            None => Ok(0),
        }
    }
}

impl Read for Halting {
    fn read(&mut self, buf: &mut [u8]) -> std::io::Result<usize> {
        let count = self.turn(buf.len())?;
        buf[..count].fill(b'a');
        Ok(count)
    }
}

impl Write for Halting {
    fn write(&mut self, buf: &[u8]) -> std::io::Result<usize> {
        let count = self.turn(buf.len())?;
        if let Some(byte) = buf[..count].first() {
            self.last = *byte;
        }
        Ok(count)
    }

    fn flush(&mut self) -> std::io::Result<()> {
        self.flushes = self.flushes.saturating_add(1);
        self.turn(0)?;
        Ok(())
    }
}

#[test]
fn a_reader_is_asked_once_where_it_fails(rt: HostRuntime) -> Result<(), Fail> {
    for kind in [
        ErrorKind::Interrupted,
        ErrorKind::WouldBlock,
        ErrorKind::Other,
    ] {
        let mut reader = Halting::at(2, Some(kind));
        let mut source = FromRead::new(&mut reader);
        let mut into = [b'-'; 4];
        assert!(rt; source.read(&mut into) == Ok(1));
        assert!(rt; into == *b"a---");
        assert!(rt; source.read(&mut into) == Err(DeviceFault));
        assert!(rt; source.read(&mut into) == Ok(1));
        assert!(rt; source.read(&mut []) == Ok(0));
        assert!(rt; reader.calls == 4);
    }
    let mut reader = Halting::at(1, None);
    let mut source = FromRead::new(&mut reader);
    assert!(rt; source.read(&mut [0; 4]) == Ok(0));
    assert!(rt; reader.calls == 1);
    Ok(())
}

#[test]
fn a_writer_is_asked_once_where_it_fails(rt: HostRuntime) -> Result<(), Fail> {
    let kinds = [
        Some(ErrorKind::Interrupted),
        Some(ErrorKind::StorageFull),
        None,
    ];
    for error in kinds {
        let mut writer = Halting::at(2, error);
        let mut sink = ToWrite::new(&mut writer);
        assert!(rt; sink.write(b"xyz") == Ok(1));
        assert!(rt; sink.write(b"yz") == Err(DeviceFault));
        assert!(rt; sink.write(b"yz") == Ok(1));
        assert!(rt; sink.write(b"") == Ok(0));
        assert!(rt; writer.calls == 4);
        assert!(rt; writer.last == b'y');
        assert!(rt; writer.flushes == 0);
    }
    Ok(())
}

#[test]
fn a_flush_reaches_the_writer_once(rt: HostRuntime) -> Result<(), Fail> {
    let mut writer = Halting::at(2, Some(ErrorKind::Interrupted));
    let mut sink = ToWrite::new(&mut writer);
    assert!(rt; sink.flush() == Ok(()));
    assert!(rt; sink.flush() == Err(DeviceFault));
    assert!(rt; sink.flush() == Ok(()));
    assert!(rt; writer.flushes == 3);
    assert!(rt; writer.calls == 3);
    Ok(())
}
