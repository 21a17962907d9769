// The quantum keeper.
use quantum_keeper::QuantumKeeper;

const GREATEST: u64 = u64::MAX;

// The quantum, the offsets before and after a sync, the current time, whether a sync is needed, and the next
// point.
type Row = (u64, u64, u64, u64, bool, u64);

static ROWS: [Row; 9] = [
    (0, 0, 0, 0, true, 0),
    (0, 30, 0, 30, true, 30),
    (100, 0, 99, 99, false, 100),
    (100, 0, 100, 100, true, 100),
    (100, 100, 0, 100, false, 200),
    (100, GREATEST, 10, GREATEST, true, GREATEST),
    (1, GREATEST, 0, GREATEST, true, GREATEST),
    (GREATEST, 0, GREATEST, GREATEST, true, GREATEST),
    (GREATEST, 5, 0, 5, false, GREATEST),
];

fn keeps(row: &Row) -> bool {
    let &(quantum, before, after, current, needed, next) = row;
    let mut keeper = QuantumKeeper::new(quantum);
    keeper.set_local(before);
    keeper.sync();
    keeper.set_local(after);
    keeper.local() == after
        && keeper.current() == current
        && keeper.need_sync() == needed
        && keeper.next_point() == next
}

#[test]
fn offsets_are_tested_against_the_next_point(rt: HostRuntime) {
    for place in 0..ROWS.len() {
        assert!(rt; keeps(&ROWS[place]), "at {place}");
    }
}
