// What a memory keeps of what it is made of.
use region_object::Region;
use tlm_types::MemoryTraits;

const RAM: MemoryTraits = MemoryTraits {
    size: 3,
    latency: 10,
    readable: true,
    writable: true,
    fetch_add: true,
    enables: true,
    streaming: true,
    dmi: true,
    gates: 16,
};

#[test]
fn a_memory_keeps_what_it_was_made_of(rt: HostRuntime) {
    let region = Region::new(rt.alloc(), 3, RAM, 2, 64, 40).expect(&rt, "memory");
    assert!(rt; region.number() == 3 && *region.traits() == RAM && region.first_gate() == 40);
    let (log, bytes) = region.into_parts();
    assert!(rt; log.is_empty() && bytes.as_slice() == [0, 0, 0].as_slice());
}
