// From a memory's log to the parts of a history.
ghost use Rattle.gate_logs.specs.Laws.{MemoriesKeepGateLogs, MemoriesTakeGatesInTurn};

/// The log of a memory of a plan keeps what a history of grants asks of it, and takes its gates in turn.
pub fn memories_keep_gate_logs()
    ensures keep { MemoriesKeepGateLogs }
    ensures turn { MemoriesTakeGatesInTurn }
{}
