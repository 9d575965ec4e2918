//! Each public call on streams once, and what the standard streams' adapters do at an error.

use crate::holding::hold;
use rx_core::{
    BytesSource, List, NeverSink, NeverSource, ReadFail, StdSink, StdSource, VecSink, WriteFail,
    read_all, write_all_of,
};
use rx_tests_tables::Outcome;
use std::alloc::Global;
use std::io;
use std::io::{ErrorKind, Read, Write};

#[derive(Drop)]
struct Broken;

impl Read for Broken {
    fn read(&mut self, _buf: &mut [u8]) -> io::Result<usize> {
        Err(io::Error::from(ErrorKind::Other))
    }
}

impl Write for Broken {
    fn write(&mut self, _buf: &[u8]) -> io::Result<usize> {
        Err(io::Error::from(ErrorKind::Other))
    }

    fn flush(&mut self) -> io::Result<()> {
        Ok(())
    }
}

/// Whether a source of 7 bytes is read whole, and is too long for 6.
fn is_read_up_to_its_length(alloc: Global) -> Outcome {
    let mut source = NeverSource::new(List::from_slice(alloc, b"fn main")?);
    let is_all = match read_all(alloc, &mut source, 7) {
        Ok(all) => all.as_slice() == b"fn main".as_slice(),
        Err(_) => false,
    };
    let mut source = NeverSource::new(List::from_slice(alloc, b"fn main")?);
    let long = read_all(alloc, &mut source, 6);
    Ok(is_all && matches!(long, Err(ReadFail::TooLong)))
}

#[test]
fn all_is_read_up_to_the_limit(rt: HostRuntime) {
    hold(&rt, is_read_up_to_its_length(rt.alloc()), "7 and 6");
}

/// Whether a sink with room for 5 bytes takes 4, and then one of two.
fn is_written_to_the_end(alloc: Global) -> Outcome {
    let mut sink = NeverSink::new(alloc, 5)?;
    let is_written = write_all_of(&mut sink, b"let ").is_ok();
    let stuck = write_all_of(&mut sink, b"xy");
    let is_stuck = matches!(stuck, Err(WriteFail::Stuck { left: 1 }));
    let is_held = sink.held() == b"let x".as_slice();
    Ok(is_written && is_stuck && is_held)
}

#[test]
fn all_is_written_while_there_is_room(rt: HostRuntime) {
    hold(&rt, is_written_to_the_end(rt.alloc()), "5");
}

/// Whether a source that gives 7 bytes in pieces of 3 is read whole, and fails where its second call does.
fn is_read_in_pieces(alloc: Global) -> Outcome {
    let bytes = List::from_slice(alloc, b"fn main")?;
    let mut source = BytesSource::new(bytes, 3, List::new(alloc));
    let is_all = match read_all(alloc, &mut source, 7) {
        Ok(all) => all.as_slice() == b"fn main".as_slice(),
        Err(_) => false,
    };
    let bytes = List::from_slice(alloc, b"fn main")?;
    let mut source = BytesSource::new(bytes, 3, List::from_slice(alloc, &[1u64])?);
    let failed = read_all(alloc, &mut source, 7);
    Ok(is_all && matches!(failed, Err(ReadFail::ReadFault)))
}

#[test]
fn a_source_in_pieces_is_read_until_a_call_fails(rt: HostRuntime) {
    hold(&rt, is_read_in_pieces(rt.alloc()), "pieces of 3");
}

/// Whether a sink that takes pieces of 10 bytes holds one where its second call fails, and one with room for 5 bytes
/// holds these.
fn is_cut_where_told(alloc: Global) -> Outcome {
    let mut sink = VecSink::new(alloc, 100, 10, List::from_slice(alloc, &[1u64])?)?;
    let failed = write_all_of(&mut sink, b"fn main() {}");
    let is_piece = sink.held() == b"fn main() ".as_slice();
    let is_failed = matches!(failed, Err(WriteFail::WriteFault));
    let mut sink = VecSink::new(alloc, 5, 10, List::new(alloc))?;
    let stuck = write_all_of(&mut sink, b"fn main() {}");
    let is_stuck = matches!(stuck, Err(WriteFail::Stuck { left: 7 }));
    let is_front = sink.held() == b"fn ma".as_slice();
    Ok(is_piece && is_failed && is_stuck && is_front)
}

#[test]
fn a_sink_in_pieces_is_written_until_a_call_fails(rt: HostRuntime) {
    hold(&rt, is_cut_where_told(rt.alloc()), "pieces of 10");
}

fn is_passed_by_a_reader(alloc: Global) -> bool {
    let mut reader = StdSource::new(b"mod rt;".as_slice());
    match read_all(alloc, &mut reader, 100) {
        Ok(all) => all.as_slice() == b"mod rt;".as_slice(),
        Err(_) => false,
    }
}

fn is_passed_by_a_writer(alloc: Global) -> bool {
    let mut out = Vec::new(alloc);
    let is_written = write_all_of(&mut StdSink::new(&mut out), b"mod rt;").is_ok();
    is_written && out.as_slice() == b"mod rt;".as_slice()
}

#[test]
fn readers_and_writers_pass_their_bytes(rt: HostRuntime) {
    hold(&rt, Ok(is_passed_by_a_reader(rt.alloc())), "a reader");
    hold(&rt, Ok(is_passed_by_a_writer(rt.alloc())), "a writer");
}

#[test]
fn errors_of_readers_and_writers_are_faults(rt: HostRuntime) {
    let read = read_all(rt.alloc(), &mut StdSource::new(Broken), 100);
    hold(
        &rt,
        Ok(matches!(read, Err(ReadFail::ReadFault))),
        "a reader",
    );
    let written = write_all_of(&mut StdSink::new(Broken), b"x");
    hold(
        &rt,
        Ok(matches!(written, Err(WriteFail::WriteFault))),
        "a writer",
    );
}
