// A run of each style of initiators, with its whole report. More of them stand in `rows/`, which the built program runs.
use crate::bench::answer;

// What a blocking initiator writes and reads on the built-in platform.
const SCRIPT_REPORT: &str = "tlm-report 1
0 0 cpu.0 ram blocking write 0x10 4 be=- sw=4 deadbeef ok
1 10 cpu.1 ram blocking read 0x10 4 be=- sw=4 deadbeef ok
initiator cpu blocking transactions 2 refused 0 syncs 2 end 20
memory ram 256
00000010 deadbeef000000000000000000000000
end 2
";

// A four-phase initiator on a memory that completes at once.
const FOUR_PHASE: &str = "version = 1
[[initiator]]
name = 'dma'
style = 'fourphase'
script = 'd.txt'
bind = 'ram'
[[memory]]
name = 'ram'
size = 16
latency = 10
reply = 'complete'
";

const FOUR_PHASE_REPORT: &str = "tlm-report 1
0 0 dma.0 dma.pool take 0
1 0 dma.0 dma.pool acquire 0
2 0 dma.0 dma>ram BEGIN_REQ COMPLETED
3 0 dma.0 ram fourphase write 0x0 1 be=- sw=1 aa ok
4 10 dma.0 dma.pool release 0
5 10 dma.0 dma.pool release 0 freed
initiator dma fourphase transactions 1 refused 0 syncs 0 end 10
memory ram 16
00000000 aa000000000000000000000000000000
end 6
";

/// A direct initiator on a memory that gives two grants.
pub const LONE: &str = "version = 1
[[initiator]]
name = 'd'
style = 'direct'
script = 'd.txt'
bind = 'ram'
[[memory]]
name = 'ram'
size = 256
latency = 10
gates = 2
";

/// Its script, of two grants with an invalidation between them.
pub const LONE_SCRIPT: &str =
    "write 0x0 aa\nread 0x0 1\ninvalidate 0x80 0x80\nread 0x0 1\nread 0x0 1\n";

/// The report of its run.
pub const LONE_REPORT: &str = "tlm-report 1
0 0 d.0 ram blocking write 0x0 1 be=- sw=1 aa ok
1 10 d.0 ram granted 0 0x0-0xff both
2 10 d.1 ram direct:0 read 0x0 1 be=- sw=1 aa ok
3 20 d.2 ram invalidated 0x80-0xff
4 20 d.2 ram closed 0
5 20 d.3 ram blocking read 0x0 1 be=- sw=1 aa ok
6 30 d.3 ram granted 1 0x0-0xff both
7 30 d.4 ram direct:1 read 0x0 1 be=- sw=1 aa ok
initiator d direct transactions 5 refused 0 syncs 5 end 40
memory ram 256
00000000 aa000000000000000000000000000000
end 8
";

// Words, a platform, the script of its initiator, and the report of the run.
static RUNS: [(&str, &str, &str, &str); 3] = [
    (
        "script d.txt",
        "",
        "write 0x10 deadbeef\nread 0x10 4\n",
        SCRIPT_REPORT,
    ),
    (
        "run p.toml --workers 1",
        FOUR_PHASE,
        "write 0x0 aa\n",
        FOUR_PHASE_REPORT,
    ),
    ("run p.toml --workers 1", LONE, LONE_SCRIPT, LONE_REPORT),
];

#[test]
fn each_style_is_run(rt: HostRuntime) {
    for &(words, platform, script, report) in &RUNS {
        let files = [("p.toml", platform), ("d.txt", script)];
        answer(&rt, words, &files, 0, report, "");
    }
}
