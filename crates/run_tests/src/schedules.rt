// A blocking initiator that is stepped by a schedule.
use crate::step_bench::{Bench, Row};

/// One initiator on a memory of 256 bytes and 10 ps, without a quantum.
const ONE_ON_RAM: &str = "version = 1\nquantum = 0\n\
    [[initiator]]\nname = 'one'\nstyle = 'blocking'\nscript = 'a'\nbind = 'ram'\n\
    [[memory]]\nname = 'ram'\nsize = 256\nlatency = 10\n";

const TWO_ENTRIES: [Row; 2] = [("blocking", 0, 0, 0, 0, 0), ("blocking", 0, 0, 0, 1, 10)];

/// Three steps of the only initiator are its two accesses and its end. A memory makes no step of its own, and 2 is no
/// actor's number.
#[test]
fn a_run_is_complete_once_its_end_was_found(rt: HostRuntime) {
    let scripts = ["write 0x10 deadbeef\nread 0x10 4\n"];
    let bench = Bench::new(&rt, rt.alloc(), ONE_ON_RAM, &scripts);
    bench.expect_each(
        &[0, 0, 0],
        &TWO_ENTRIES,
        &[(2, 2, 20, 0)],
        0x10,
        &[0xde, 0xad, 0xbe, 0xef],
    );
    bench.expect(&[1, 0, 2, 1], &TWO_ENTRIES[..1], false);
}
