// Libraries over folders, and sinks over files and streams.
use outside::{Failed, FolderLibrary, Library, LoadFault, STREAM_ROOM, Sink, StreamSink, Untold};
use std::alloc::Global;
use std::fs::File;
use std::{env, fs, io, process};

// A path in the folder for temporary files that no other test uses.
fn temporary(rt: &HostRuntime, name: &str) -> io::Result<String> {
    let folder = env::temp_dir(rt)?;
    let folder = folder.as_str();
    let id = process::id(rt.process());
    let path = format!(in rt.alloc(); "{folder}/tlm_outside_{id}_{name}")?;
    Ok(path)
}

// Whether a load with this limit gives the file's four bytes.
fn gives_four(library: &mut FolderLibrary<HostRuntime>, alloc: Global, path: &str) -> bool {
    match library.load(alloc, path, 4) {
        Ok(found) => found.as_slice() == b"four".as_slice(),
        Err(_) => false,
    }
}

// Whether a load ends with this fault.
fn refuses(
    library: &mut FolderLibrary<HostRuntime>,
    alloc: Global,
    path: &str,
    limit: u64,
    fault: LoadFault,
) -> bool {
    match library.load(alloc, path, limit) {
        Ok(_) => false,
        Err(found) => found == fault,
    }
}

#[test]
fn a_folder_library_reads_real_files(rt: HostRuntime) {
    let alloc = rt.alloc();
    let path = temporary(&rt, "folder").expect(&rt, "a path");
    let path = path.as_str();
    fs::write(&rt, path, b"four").expect(&rt, "a file");
    let mut library = FolderLibrary::new(&rt);
    let whole = gives_four(&mut library, alloc, path);
    let longer = refuses(&mut library, alloc, path, 3, LoadFault::TooLong);
    fs::remove_file(&rt, path).expect(&rt, "the file");
    assert!(rt; whole && longer && library.faults() == 0);
    assert!(rt; refuses(&mut library, alloc, path, 4, LoadFault::Failed));
    assert!(rt; library.faults() == 1);
    assert!(rt; refuses(&mut library, alloc, ".", 4, LoadFault::Failed));
    assert!(rt; library.faults() == 2);
}

// Writes a small piece, a larger one than the buffer and a small one.
fn write_three(sink: &mut StreamSink<Untold<File>>, large: &[u8]) -> bool {
    sink.write(b"abc").is_ok() && sink.write(large).is_ok() && sink.write(b"xyz").is_ok()
}

// Whether these are the small piece, the large one, and then this end.
fn are_pieces(bytes: &[u8], large: &[u8], end: &[u8]) -> bool {
    match bytes.strip_prefix(b"abc".as_slice()) {
        Some(rest) => rest.strip_prefix(large) == Some(end),
        None => false,
    }
}

// What doesn't fit into the buffer is handed on at once, and the last piece by `finish`.
#[test]
fn a_stream_sink_writes_a_real_file(rt: HostRuntime) {
    let path = temporary(&rt, "stream").expect(&rt, "a path");
    let large = vec![in rt.alloc(); 7u8; STREAM_ROOM + 1].expect(&rt, "memory");
    let file = fs::create(&rt, path.as_str()).expect(&rt, "a file");
    let mut sink = StreamSink::new(rt.alloc(), Untold::new(file)).expect(&rt, "memory");
    let written = write_three(&mut sink, large.as_slice());
    let before = fs::read(&rt, path.as_str()).expect(&rt, "the file");
    let finished = sink.finish().is_ok();
    let after = fs::read(&rt, path.as_str()).expect(&rt, "the file");
    fs::remove_file(&rt, path.as_str()).expect(&rt, "the file");
    assert!(rt; written && are_pieces(&before, &large, b""));
    assert!(rt; finished && are_pieces(&after, &large, b"xyz"));
}

#[test]
fn a_stream_sink_goes_over_standard_streams(rt: HostRuntime) {
    let mut out = StreamSink::new(rt.alloc(), Untold::new(rt.stdout())).expect(&rt, "memory");
    assert!(rt; out.finish().is_ok());
    let mut diag = StreamSink::new(rt.alloc(), Untold::new(rt.stderr())).expect(&rt, "memory");
    assert!(rt; diag.finish().is_ok());
}

#[test]
fn a_stream_sink_over_a_full_device_fails(rt: HostRuntime) {
    let full = File::options()
        .write(true)
        .open(&rt, "/dev/full")
        .expect(&rt, "the device");
    let mut sink = StreamSink::new(rt.alloc(), Untold::new(full)).expect(&rt, "memory");
    assert!(rt; sink.write(b"abc").is_ok() && sink.faults() == 0);
    assert!(rt; sink.finish() == Err(Failed) && sink.faults() == 1);
}
