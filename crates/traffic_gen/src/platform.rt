// The platform of every number.
/// Two blocking initiators, a direct and a four-phase one, on a bus, with a memory there and two behind a
/// bridge. Sizes are in bytes, latencies and the quantum in picoseconds.
pub(crate) const PLATFORM: &str = "version = 1\n\
quantum = 1000\n\
[[initiator]]\n\
name = \"c0\"\n\
style = \"blocking\"\n\
script = \"c0.txt\"\n\
bind = \"bus\"\n\
[[initiator]]\n\
name = \"c1\"\n\
style = \"blocking\"\n\
script = \"c1.txt\"\n\
bind = \"bus\"\n\
[[initiator]]\n\
name = \"d0\"\n\
style = \"direct\"\n\
script = \"d0.txt\"\n\
bind = \"bus\"\n\
[[initiator]]\n\
name = \"f0\"\n\
style = \"fourphase\"\n\
script = \"f0.txt\"\n\
bind = \"bus\"\n\
[[router]]\n\
name = \"bus\"\n\
latency = 5\n\
[[router.window]]\n\
first = 0x0\n\
last = 0xffff\n\
to = \"ram\"\n\
[[router.window]]\n\
first = 0x100000\n\
last = 0x1fffff\n\
to = \"bridge\"\n\
[[router]]\n\
name = \"bridge\"\n\
latency = 10\n\
[[router.window]]\n\
first = 0x0\n\
last = 0xfff\n\
to = \"rom\"\n\
[[router.window]]\n\
first = 0x1000\n\
last = 0x1fff\n\
to = \"scratch\"\n\
[[memory]]\n\
name = \"ram\"\n\
size = 65536\n\
latency = 20\n\
[[memory]]\n\
name = \"rom\"\n\
size = 4096\n\
latency = 30\n\
write = false\n\
[[memory]]\n\
name = \"scratch\"\n\
size = 4096\n\
latency = 15\n";
