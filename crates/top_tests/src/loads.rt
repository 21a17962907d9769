// Which files are loaded, in which order.
use crate::bench::{answer, calm, fails_at_load};
use std::process::Abort;
use std::sync::Wait;
use std::thread::Threads;

// Three initiators, of which the first and the last name one script.
const THREE: &str = "version = 1
[[initiator]]
name = 'i0'
style = 'blocking'
script = 'a.txt'
bind = 'ram'
[[initiator]]
name = 'i1'
style = 'blocking'
script = 'b.txt'
bind = 'ram'
[[initiator]]
name = 'i2'
style = 'blocking'
script = 'a.txt'
bind = 'ram'
[[memory]]
name = 'ram'
size = 16
";

static FILES: [(&str, &str); 3] = [("p.toml", THREE), ("a.txt", "sync\n"), ("b.txt", "fence\n")];

// The line of the answer where the load of this number fails: it names the file that was to be loaded.
static FAULTS: [&str; 4] = [
    "read fault: p.toml\n",
    "read fault: a.txt\n",
    "read fault: b.txt\n",
    "read fault: a.txt\n",
];

// How many files are loaded for these words, which are done.
fn loads_of<R: AllocGlobal + Threads + Wait + Abort + Sync>(rt: &R, words: &str) -> u64 {
    let came = calm(rt, words, &FILES);
    assert!(rt; came.number == 0);
    came.loads
}

#[test]
fn each_file_is_loaded_as_often_as_it_is_named(rt: HostRuntime) {
    assert!(rt; loads_of(&rt, "run p.toml") == 4);
    assert!(rt; loads_of(&rt, "script a.txt") == 1);
}

#[test]
fn files_are_loaded_in_order(rt: HostRuntime) {
    for (load, line) in FAULTS.iter().enumerate() {
        fails_at_load(&rt, "run p.toml", &FILES, load as u64, line);
    }
}

// Where a script is refused, the next one isn't loaded.
#[test]
fn each_script_is_read_before_the_next_is_loaded(rt: HostRuntime) {
    let files = [("p.toml", THREE), ("a.txt", "syncs\n")];
    let line = "script refused: i0 line 1: unknown_operation\n";
    assert!(rt; answer(&rt, "run p.toml", &files, 3, "", line) == 2);
}
