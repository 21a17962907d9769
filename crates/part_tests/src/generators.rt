// Generated loads.
use traffic_gen::generate;

#[test]
fn texts_begin_and_end_by_the_number(rt: HostRuntime) {
    let alloc = rt.alloc();
    let made = generate(alloc, 7).expect(&rt, "memory");
    assert!(rt;
        made.platform.as_slice().starts_with(
            b"version = 1\nquantum = 1000\n[[initiator]]\nname = \"c0\"\n"
        )
    );
    assert!(rt; made.scripts.len() == 4);
    let first = made.scripts[0].as_slice();
    assert!(rt; first.len() == 165644 && first.starts_with(b"write 0xa2f0 7e4328bc0f7dfb8a\n"));
    let last = made.scripts[3].as_slice();
    assert!(rt; last.len() == 165674 && last.ends_with(b"\nread 0x6e50 8\n"));
}
