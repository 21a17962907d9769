// The program over a runtime.
ghost use Rattle.tlm_top.specs.Serving.{IsExitNumber};

use crate::streams::serve;
use outside::{FolderLibrary, NoPace, StreamSink, Untold};
use plan_loads::Exit;
use std::env;
use std::io::{ErrorKind, Write};
use std::rt::Runtime;
use std::sync::Wait;
use std::thread::Threads;
use tlm_types::Memory;

// The words without the program's name. Where they can't be read as text there are none.
fn words_of<R: Runtime + AllocGlobal>(rt: &R) -> Result<Vec<String>, Memory> {
    let mut words = Vec::new(rt.alloc());
    let args = match env::args(rt) {
        Ok(args) => args,
        Err(e) if e.kind() == ErrorKind::OutOfMemory => return Err(Memory),
        Err(_) => return Ok(words),
    };
    for word in args.skip(1) {
        words.push(word)?;
    }
    Ok(words)
}

fn answer<R, O, D>(rt: &R, stdout: O, stderr: D) -> Result<Exit, Memory>
where
    R: Runtime + AllocGlobal + Threads + Wait + Sync,
    O: Write + Drop,
    D: Write + Drop,
{
    let alloc = rt.alloc();
    let words = words_of(rt)?;
    let mut library = FolderLibrary::new(rt);
    let mut out = StreamSink::new(alloc, Untold::new(stdout))?;
    let mut diag = StreamSink::new(alloc, Untold::new(stderr))?;
    Ok(serve(
        rt,
        alloc,
        &words,
        &mut library,
        &mut out,
        &mut diag,
        &NoPace,
    ))
}

/// The whole program: `serve` with the words of the command line, the files of the current folder and
/// these two streams. It answers the number to end with. Want of memory before the words are read is told
/// straight to the second stream.
pub fn program<R, O, D>(rt: &R, stdout: O, stderr: D) -> u8
where
    R: Runtime + AllocGlobal + Threads + Wait + Sync,
    O: Write + Drop,
    D: Write + Copy + Drop,
    ensures { IsExitNumber result }
{
    match answer(rt, stdout, stderr) {
        Ok(exit) => exit.number(),
        Err(Memory) => {
            let mut stderr = stderr;
            let _ = stderr.write_all(b"no memory\n");
            Exit::NoMemory.number()
        }
    }
}
