// Whether a run keeps its logs.
ghost use Rattle.std.specs.Prelude.{◌≡◌, true};

use plat_net::{Net, Sharing, TlmLaw};
use route_plan::Plan;
use run_outcome::MergedLog;
use shared_object::Naming;
use std::sync::Wait;

/// Whether the logs of a run are kept until they are read.
#[derive(Clone, Copy)]
pub enum Logs {
    /// Whatever was logged is in store when the run has ended.
    Kept,
    /// Nobody reads what memories log, so they forget it while the run goes on: then their logs need but little memory, which
    /// is written again and again.
    Forgotten,
}

/// Lets the memories of a net forget from now on what they log, where nobody will read it.
pub(crate) fn forget_unless_kept<N: Naming<Plan, TlmLaw>, S: Sharing<N>, R: Wait>(
    rt: &R,
    net: &Net<N, S>,
    logs: Logs,
) {
    if matches!(logs, Logs::Forgotten) {
        net.forget_memories(rt);
    }
}

/// Waits for a history that is in store, where the logs are kept. It is one, since then no memory was told to forget: but objects that are kept
/// are known by their types alone, which say nothing of it. So it is looked up, and where it weren't so, this waits without end.
pub(crate) fn until_in_store<R: Wait>(rt: &R, history: &MergedLog, logs: Logs)
    ensures { logs ≡ Logs.Kept → history.now.whole ≡ true }
{
    if matches!(logs, Logs::Forgotten) || history.is_whole() {
        return;
    }
    for _ in rt.forever() {}
    unreachable!()
}
