use az_outside::{
    Fault, MemorySink, MemorySource, ReadAll, StdSink, StdSource, SureSink, SureSource, read_all,
    write_all,
};
use std::alloc::Global;
use std::io::{Error, ErrorKind, Read, Result as IoResult, Write};
use std::test::*;

/// A text of so many bytes, which doesn't repeat within any chunk.
fn text(alloc: Global, length: u32) -> Option<Vec<u8>> {
    let mut bytes = Vec::new(alloc);
    for i in 0..length {
        bytes.push((i % 251) as u8).ok()?;
    }
    Some(bytes)
}

/// What reading up to a limit gives of a source of so many bytes, in pieces, whose read of this number fails; None where
/// other bytes come.
fn reading(
    alloc: Global,
    length: u32,
    piece: usize,
    fail: u64,
    limit: usize,
) -> Option<Result<(), ReadAll>> {
    let whole = text(alloc, length)?;
    let bytes = text(alloc, length)?;
    let mut source = MemorySource::new(bytes, piece, vec![in alloc; fail].ok()?);
    match read_all(alloc, &mut source, limit) {
        Ok(read) => {
            if read.as_slice() == whole.as_slice() {
                Some(Ok(()))
            } else {
                None
            }
        }
        Err(refused) => Some(Err(refused)),
    }
}

/// Each source is read with this outcome.
fn are_read(alloc: Global, rows: &[(u32, usize, u64, usize, Result<(), ReadAll>)]) -> bool {
    for (length, piece, fail, limit, want) in rows {
        if reading(alloc, *length, *piece, *fail, *limit) != Some(*want) {
            return false;
        }
    }
    true
}

#[test]
fn reads_to_the_end_or_to_the_limit(rt: HostRuntime) {
    let agree = are_read(
        rt.alloc(),
        &[
            (0, 1, 0, 0, Ok(())),
            (10, 1, 0, 100, Ok(())),
            (10, 3, 0, 10, Ok(())),
            (10, 3, 0, 9, Err(ReadAll::TooLong)),
            (10, 3, 2, 10, Err(ReadAll::Fault)),
            (5000, 5000, 0, 5000, Ok(())),
            (5000, 5000, 0, 4999, Err(ReadAll::TooLong)),
            (5000, 5000, 3, 5000, Err(ReadAll::Fault)),
            (9000, 0, 0, usize::MAX, Ok(())),
        ],
    );
    assert!(rt; agree);
}

/// After the fault the rest comes.
fn reads_on(alloc: Global) -> Option<bool> {
    let bytes = Vec::from_slice(alloc, b"words and bytes").ok()?;
    let mut source = MemorySource::new(bytes, 6, vec![in alloc; 2].ok()?);
    let fault = read_all(alloc, &mut source, 100).err()?;
    let rest = read_all(alloc, &mut source, 100).ok()?;
    Some(fault == ReadAll::Fault && rest.as_slice() == b"and bytes".as_slice())
}

#[test]
fn reads_on_after_a_fault(rt: HostRuntime) {
    let agree = reads_on(rt.alloc());
    assert!(rt; agree == Some(true));
}

/// What writing 25 bytes gives, at a sink whose write of this number fails, and how many bytes it holds then; None where
/// it holds other bytes.
fn writing(
    alloc: Global,
    piece: usize,
    fail: u64,
    room: usize,
) -> Option<(Result<(), Fault>, usize)> {
    let whole = text(alloc, 25)?;
    let mut sink = MemorySink::new(alloc, piece, vec![in alloc; fail].ok()?, room).ok()?;
    let outcome = write_all(&mut sink, &whole);
    let held = sink.bytes().len();
    if whole.get(..held) == Some(sink.bytes()) {
        Some((outcome, held))
    } else {
        None
    }
}

/// Each sink is written to with this outcome.
fn are_written(alloc: Global, rows: &[(usize, u64, usize, Result<(), Fault>, usize)]) -> bool {
    for (piece, fail, room, want, held) in rows {
        if writing(alloc, *piece, *fail, *room) != Some((*want, *held)) {
            return false;
        }
    }
    true
}

#[test]
fn writes_all_or_a_front(rt: HostRuntime) {
    let agree = are_written(
        rt.alloc(),
        &[
            (1, 0, 25, Ok(()), 25),
            (10, 0, 25, Ok(()), 25),
            (5000, 0, 30, Ok(()), 25),
            (10, 2, 30, Err(Fault), 10),
            (10, 4, 30, Ok(()), 25),
            (10, 0, 24, Err(Fault), 20),
            (5000, 0, 24, Err(Fault), 0),
        ],
    );
    assert!(rt; agree);
}

/// The sure ends never fail, and a sink that went past its room takes nothing more into its bytes.
fn are_sure(alloc: Global) -> Option<bool> {
    let mut source = SureSource::new(Vec::from_slice(alloc, b"a few words").ok()?, 4);
    let bytes = read_all(alloc, &mut source, 11).ok()?;
    let mut sink = SureSink::new(alloc, 8).ok()?;
    write_all(&mut sink, b"a few").ok()?;
    write_all(&mut sink, b" words").ok()?;
    write_all(&mut sink, b"!").ok()?;
    Some(bytes.as_slice() == b"a few words".as_slice() && sink.bytes() == b"a few".as_slice())
}

#[test]
fn sure_ends_never_fail(rt: HostRuntime) {
    let agree = are_sure(rt.alloc());
    assert!(rt; agree == Some(true));
}

/// Fails so many times with errors of a kind, and then gives nothing, and takes all.
#[derive(Drop)]
struct Flaky {
    times: u32,
    kind: ErrorKind,
}

impl Flaky {
    fn next(&mut self) -> IoResult<()> {
        if self.times == 0 {
            return Ok(());
        }
        self.times -= 1;
        Err(Error::from(self.kind))
    }
}

impl Read for Flaky {
    fn read(&mut self, _buf: &mut [u8]) -> IoResult<usize> {
        self.next()?;
        Ok(0)
    }
}

impl Write for Flaky {
    fn write(&mut self, buf: &[u8]) -> IoResult<usize> {
        self.next()?;
        Ok(buf.len())
    }

    fn flush(&mut self) -> IoResult<()> {
        Ok(())
    }
}

/// Whether reading and writing succeed where the first calls fail so.
fn outlasts(alloc: Global, times: u32, kind: ErrorKind) -> (bool, bool) {
    let mut source = StdSource::new(Flaky { times, kind });
    let mut sink = StdSink::new(Flaky { times, kind });
    (
        read_all(alloc, &mut source, 1).is_ok(),
        write_all(&mut sink, b"bytes").is_ok(),
    )
}

#[test]
fn interruptions_are_tried_again(rt: HostRuntime) {
    let alloc = rt.alloc();
    let thousand = outlasts(alloc, 1000, ErrorKind::Interrupted) == (true, true);
    let one_more = outlasts(alloc, 1001, ErrorKind::Interrupted) == (false, false);
    let other = outlasts(alloc, 1, ErrorKind::TimedOut) == (false, false);
    assert!(rt; thousand && one_more && other);
}

/// Bytes go through the adapters as they are.
fn adapts(alloc: Global) -> Option<bool> {
    let mut source = StdSource::new(b"standard input".as_slice());
    let bytes = read_all(alloc, &mut source, 14).ok()?;
    let mut written = Vec::new(alloc);
    write_all(&mut StdSink::new(&mut written), b"standard output").ok()?;
    let mut full = [0u8; 4];
    let refused = write_all(&mut StdSink::new(full.as_mut_slice()), b"output");
    Some(
        bytes.as_slice() == b"standard input".as_slice()
            && written.as_slice() == b"standard output".as_slice()
            && refused == Err(Fault),
    )
}

#[test]
fn adapts_readers_and_writers(rt: HostRuntime) {
    let agree = adapts(rt.alloc());
    assert!(rt; agree == Some(true));
}
