// Runs of generated platforms: the line of their totals.
use crate::bench::answer;

// Words, and the line of their totals. The counts are worked out by hand: four initiators of 8,000 accesses each, of
// which the four-phase one takes a payload for each of its own; eight lines take 230 ps, and each of the 230
// multiples of the quantum gives the three others one sync.
static SEEDS: [(&str, &str); 3] = [
    (
        "gen 7 --workers 4",
        "gen 7 transactions 32000 accesses 32000 payloads 8000 syncs 690\n",
    ),
    (
        "gen 0",
        "gen 0 transactions 32000 accesses 32000 payloads 8000 syncs 690\n",
    ),
    (
        "gen --workers=2 18446744073709551615",
        "gen 18446744073709551615 transactions 32000 accesses 32000 payloads 8000 syncs 690\n",
    ),
];

// No file is loaded.
#[test]
fn each_seed_has_its_totals(rt: HostRuntime) {
    for &(words, line) in &SEEDS {
        assert!(rt; answer(&rt, words, &[], 0, line, "") == 0);
    }
}
