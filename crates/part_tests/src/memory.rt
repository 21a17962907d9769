// Libraries and sinks in memory, and no pace.
use outside::{
    Failed, FailingWrite, Library, LoadFault, MapLibrary, NamedFile, NoPace, Pace, Sink, VecSink,
    WillingLibrary, WillingSink,
};
use std::alloc::Global;
use std::process::Abort;
use tlm_types::{Bytes, Memory, Text};

// A file with this name and these bytes.
fn file_of(alloc: Global, name: &str, bytes: &[u8]) -> Result<NamedFile, Memory> {
    let name = Text::from_text(alloc, name)?;
    let bytes = Bytes::from_slice(alloc, bytes)?;
    Ok(NamedFile { name, bytes })
}

fn one_file(rt: &impl Abort, alloc: Global) -> Vec<NamedFile> {
    let file = file_of(alloc, "a", b"abc").expect(rt, "memory");
    vec![in alloc; file].expect(rt, "memory")
}

// Whether a load gives these bytes.
fn gives<L: Library>(library: &mut L, alloc: Global, name: &str, limit: u64, bytes: &[u8]) -> bool {
    match library.load(alloc, name, limit) {
        Ok(found) => found.as_slice() == bytes,
        Err(_) => false,
    }
}

// Whether a load ends with this fault.
fn refuses<L: Library>(
    library: &mut L,
    alloc: Global,
    name: &str,
    limit: u64,
    fault: LoadFault,
) -> bool {
    match library.load(alloc, name, limit) {
        Ok(_) => false,
        Err(found) => found == fault,
    }
}

#[test]
fn a_map_library_fails_where_it_is_told_to(rt: HostRuntime) {
    let alloc = rt.alloc();
    let failing = vec![in alloc; 1u64].expect(&rt, "memory");
    let mut library = MapLibrary::new(one_file(&rt, alloc), failing);
    assert!(rt; gives(&mut library, alloc, "a", 3, b"abc"));
    assert!(rt; refuses(&mut library, alloc, "a", 3, LoadFault::Failed));
    assert!(rt; refuses(&mut library, alloc, "a", 2, LoadFault::TooLong));
    assert!(rt; library.loads() == 3 && library.faults() == 1);
}

#[test]
fn a_vec_sink_fails_where_it_is_told_to(rt: HostRuntime) {
    let alloc = rt.alloc();
    let failing = vec![in alloc; FailingWrite { write: 1, takes: 2 }].expect(&rt, "memory");
    let mut sink = VecSink::new(alloc, failing);
    assert!(rt; sink.write(b"abc").is_ok());
    assert!(rt; sink.write(b"def") == Err(Failed));
    assert!(rt; sink.bytes() == b"abcde".as_slice());
    assert!(rt; sink.writes() == 2 && sink.faults() == 1);
}

#[test]
fn a_willing_library_never_fails(rt: HostRuntime) {
    let alloc = rt.alloc();
    let mut library = WillingLibrary::new(one_file(&rt, alloc));
    assert!(rt; gives(&mut library, alloc, "a", 3, b"abc"));
    assert!(rt; gives(&mut library, alloc, "b", 3, b""));
    assert!(rt; refuses(&mut library, alloc, "a", 2, LoadFault::TooLong));
}

#[test]
fn a_willing_sink_and_no_pace_never_fail(rt: HostRuntime) {
    let mut sink = WillingSink::new(rt.alloc());
    assert!(rt; sink.write(b"ab").is_ok() && sink.write(b"c").is_ok());
    assert!(rt; sink.bytes() == Some(b"abc".as_slice()));
    NoPace.before(0, 1);
}
