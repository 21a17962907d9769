// The queue of events.
use event_queue::EventQueue;
use std::process::Abort;

fn add(rt: &impl Abort, queue: &mut EventQueue<char>, item: char, at: u64) {
    assert!(rt; queue.len() < queue.room());
    queue.notify(item, at);
}

// What is given at these times.
static POPS: [(u64, Option<(u64, char)>); 6] = [
    (9, None),
    (10, Some((10, 'b'))),
    (10, Some((10, 'c'))),
    (10, None),
    (20, Some((20, 'a'))),
    (20, None),
];

#[test]
fn entries_are_given_in_the_order_of_their_times(rt: HostRuntime) {
    let mut queue = EventQueue::new(rt.alloc(), 3).expect(&rt, "memory");
    assert!(rt; queue.is_empty() && queue.next_time().is_none() && queue.room() == 3);
    add(&rt, &mut queue, 'a', 20);
    add(&rt, &mut queue, 'b', 10);
    add(&rt, &mut queue, 'c', 10);
    assert!(rt; queue.len() == 3 && queue.next_time() == Some(10));
    for (now, given) in &POPS {
        assert!(rt; queue.pop(*now) == *given, "at {now}");
    }
    assert!(rt; queue.is_empty());
}

/// How many items are added at times that look random.
const MANY: u32 = 100_000;

// Adds so many items, which are numbered.
fn add_many(rt: &impl Abort, queue: &mut EventQueue<u32>) {
    let mut number: u64 = 1;
    for item in 0..MANY {
        number = number
            .wrapping_mul(6_364_136_223_846_793_005)
            .wrapping_add(1_442_695_040_888_963_407);
        assert!(rt; queue.len() < queue.room());
        queue.notify(item, (number >> 33) % 1_000_000);
    }
}

// Takes so many items out, each later than the one before it, or of its time and notified after it.
fn take_many(rt: &impl Abort, queue: &mut EventQueue<u32>) {
    let mut last = (0, 0);
    for taken in 0..MANY {
        let Some(given) = queue.pop(u64::MAX) else {
            panic!(rt; "{taken} items alone");
        };
        assert!(rt; taken == 0 || last < given, "at {taken}");
        last = given;
    }
}

// A list that is kept in order would take ten thousand million steps.
#[test]
fn many_items_are_given_in_order(rt: HostRuntime) {
    let mut queue = EventQueue::new(rt.alloc(), MANY).expect(&rt, "memory");
    add_many(&rt, &mut queue);
    assert!(rt; queue.len() == MANY);
    take_many(&rt, &mut queue);
    assert!(rt; queue.is_empty());
}
