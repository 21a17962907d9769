//! Laws over the lines of a report.
ghost use Rattle.trace_print.specs.GoodHistories.{NamesGoodHistories, NamesValidHistories};
ghost use Rattle.trace_print.specs.Naming.{AreNamed, NamesEntries, NamesHistories};
ghost use Rattle.tlm_model.specs.Worked.{readback, readback_plan};

/// The line of an entry names it: two entries of a run with one line are the same. The names of the
/// platform's components have visible bytes alone, and no `.` or `>`; no two initiators and no two
/// memories have one name; and no two hops have the same two ends.
pub fn lines_name_entries()
    ensures { NamesEntries }
{}

/// The report of a run with all its entries names its history: two histories with one report are the
/// same, over the same names.
pub fn reports_name_histories()
    ensures { NamesHistories }
{}

/// The report of a run with all its entries names its history, where the plan is valid: its names are
/// those of a platform file, plain and each of one component, and no two of its hops have the same two
/// ends, since no two paths lead to one component.
pub fn reports_of_valid_plans_name_histories()
    ensures { NamesValidHistories }
{}

/// The report of a run with all its entries names its history among the good ones of a valid plan: each
/// entry of one is an access, a grant, an invalidation or a closing at a memory, a call on a hop or a move
/// of a pool, with numbers and bytes as a run has them.
pub fn reports_name_good_histories()
    ensures { NamesGoodHistories }
{}

/// What the laws ask holds of a worked run.
pub fn a_worked_run_is_named()
    ensures { AreNamed readback_plan readback }
{}
