//! Worked scripts. Each is proved to be read so by computing the definition.
ghost use Rattle.std.specs.Prelude.{◌≡◌, [], ◌∷◌, ◌++◌, codes, Some, None, Ok};
ghost use Rattle.tlm_model.specs.declared.operation.Operation.TheVariants.{Write, Read, Ignore, Debug, Copy, Add, FetchAdd, Wait, Sync, Fence};
ghost use Rattle.traffic_script.specs.declared.fault.ScriptCode.TheVariants.{BadByte, UnknownOperation, Arity, BadNumber, BadHex, BadLength, BadOption, NestedRepeat, EndWithoutRepeat, EmptyRepeat, RepeatWithoutEnd};
ghost use Rattle.traffic_script.specs.Lines.{script_of};
ghost use Rattle.traffic_script.specs.Worked.{refused};

/// Scripts that are read.
#[tactic(auto, unfolding(crate::specs::Lines::script_of))]
pub fn read()
    ensures empty { script_of 1 [] ≡ Ok [] }
    ensures accesses { script_of 1 (codes "write 0x10 DEADbeef be=ff00 sw=2\nread 16 4 sw=0x1\nread 0 1")
        ≡ Ok (Write 16 (0xde ∷ 0xad ∷ 0xbe ∷ 0xef ∷ []) (255 ∷ 0 ∷ []) (Some 2) ∷ Read 16 4 [] (Some 1) ∷ Read 0 1 [] None ∷ []) }
    ensures others { script_of 1 (codes "ignore 1\ndebug 2 3\ncopy 4 5 6\nadd 7 8\nwait 9\nsync\nfence\n")
        ≡ Ok (Ignore 1 ∷ Debug 2 3 ∷ Copy 4 5 6 ∷ Add 7 8 ∷ Wait 9 ∷ Sync ∷ Fence ∷ []) }
    ensures version_2 { script_of 2 (codes "fetch_add 7 8\nadd 7 8\n")
        ≡ Ok (FetchAdd 7 8 ∷ Add 7 8 ∷ []) }
    ensures comments { script_of 1 (codes "# nothing\n\n\t sync  # and this\n")
        ≡ Ok (Sync ∷ []) }
    ensures returns { script_of 1 (codes "sync" ++ 13 ∷ 10 ∷ codes "fence" ++ 13 ∷ 10 ∷ [])
        ≡ Ok (Sync ∷ Fence ∷ []) }
    ensures repeats { script_of 1 (codes "wait 1\nrepeat 2\nsync\nfence\nend\nwait 2\n")
        ≡ Ok (Wait 1 ∷ Sync ∷ Fence ∷ Sync ∷ Fence ∷ Wait 2 ∷ []) }
{}

/// Scripts that are refused.
#[tactic(auto, unfolding(crate::specs::Lines::script_of))]
pub fn refused()
    ensures last_return { script_of 1 (codes "sync" ++ 13 ∷ []) ≡ refused 1 BadByte }
    ensures operation { script_of 1 (codes "sync\nSync\n") ≡ refused 2 UnknownOperation }
    ensures version_1 { script_of 1 (codes "fetch_add\n") ≡ refused 1 UnknownOperation }
    ensures operand { script_of 2 (codes "fetch_add 0 0x100000000\n") ≡ refused 1 BadNumber }
    ensures arity { script_of 1 (codes "debug x\n") ≡ refused 1 Arity }
    ensures number { script_of 1 (codes "write 0X1 a\n") ≡ refused 1 BadNumber }
    ensures hex { script_of 1 (codes "write 0 abc x\n") ≡ refused 1 BadHex }
    ensures length { script_of 1 (codes "read 0 4097 x\n") ≡ refused 1 BadLength }
    ensures option { script_of 1 (codes "read 0 1 be=00 be=1\n") ≡ refused 1 BadOption }
    ensures enable { script_of 1 (codes "read 0 1 be=01\n") ≡ refused 1 BadHex }
    ensures nested { script_of 1 (codes "repeat 2\nrepeat 2\n") ≡ refused 2 NestedRepeat }
    ensures no_repeat { script_of 1 (codes "end\n") ≡ refused 1 EndWithoutRepeat }
    ensures empty { script_of 1 (codes "repeat 2\n\nend\n") ≡ refused 3 EmptyRepeat }
    ensures no_end { script_of 1 (codes "repeat 2\nsync\n") ≡ refused 1 RepeatWithoutEnd }
    ensures span { script_of 1 (codes "invalidate 0 0\n") ≡ refused 1 BadLength }
{}
