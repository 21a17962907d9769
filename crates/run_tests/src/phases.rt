// Runs of initiators of all styles by worker threads.
use crate::bench::plan_of;
use crate::paces::Pacing;
use crate::runs::run_of;

/// Two four-phase initiators and a blocking one before a router with two memories, and a direct one at a memory.
pub(crate) const MIXED: &str = "version = 1\nquantum = 50\n\
                     [[initiator]]\nname = 'a'\nstyle = 'fourphase'\nscript = 'a'\nbind = 'bus'\n\
                     [[initiator]]\nname = 'b'\nstyle = 'blocking'\nscript = 'b'\nbind = 'bus'\n\
                     [[initiator]]\nname = 'c'\nstyle = 'fourphase'\nscript = 'c'\nbind = 'bus'\n\
                     [[initiator]]\nname = 'd'\nstyle = 'direct'\nscript = 'd'\nbind = 'ram'\n\
                     [[router]]\nname = 'bus'\nlatency = 5\n\
                     [[router.window]]\nfirst = 0\nlast = 0xff\nto = 'ram'\n\
                     [[router.window]]\nfirst = 0x100\nlast = 0x1ff\nto = 'far'\n\
                     [[memory]]\nname = 'ram'\nsize = 16\nlatency = 10\n\
                     [[memory]]\nname = 'far'\nsize = 16\nlatency = 20\n";

/// Three accesses with a route and one without, and a debug read.
const SOME: &str = "write 0x0 aabb\nread 0x100 2\ndebug 0x0 2\nread 0x200 1\nwrite 0x104 01\n";

// A four-phase initiator behind the router makes 15 entries for each access with a window, seven for the one without, whose request
// ends by its response, and one for its debug read; a blocking one makes an entry for each that has a route, and at a memory each has
// one, and a direct one gets a grant once.
#[test]
fn initiators_of_all_styles(rt: HostRuntime) {
    let plan = plan_of(rt.alloc(), MIXED, &[SOME; 4]).expect(&rt, "a plan");
    let entries = 2 * (3 * 15 + 7 + 1) + 4 + (5 + 1);
    for workers in [1, 2, 4, 16] {
        let outcome = run_of(&rt, rt.alloc(), &plan, workers, Pacing::Free);
        assert!(rt; outcome.history.len() == entries);
    }
}
