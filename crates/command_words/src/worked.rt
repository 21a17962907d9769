//! Worked command lines. Each is proved to be read so by computing the definition.
ghost use Rattle.std.specs.Prelude.{◌≡◌, [], ◌∷◌, Some, None, codes};
ghost use Rattle.tlm_model.specs.declared.trace.Trace.TheVariants.{All as all_entries, Accesses as accesses_alone, None as no_entries};
ghost use Rattle.command_words.specs.Words.{command_of, run, script, gen};

/// Command lines, with options in both forms, before the file and after it.
pub fn asked()
    ensures script { command_of (codes "script" ∷ codes "a.txt" ∷ []) ≡ Some (script (codes "a.txt")) }
    ensures defaults { command_of (codes "run" ∷ codes "p.toml" ∷ []) ≡ Some (run (codes "p.toml") 4 all_entries) }
    ensures before { command_of (codes "run" ∷ codes "--workers" ∷ codes "16" ∷ codes "p.toml" ∷ [])
        ≡ Some (run (codes "p.toml") 16 all_entries) }
    ensures after { command_of (codes "run" ∷ codes "p.toml" ∷ codes "--trace=none" ∷ codes "--workers=1" ∷ [])
        ≡ Some (run (codes "p.toml") 1 no_entries) }
    ensures around { command_of (codes "run" ∷ codes "--workers=10" ∷ codes "p.toml" ∷ codes "--trace" ∷ codes "accesses" ∷ [])
        ≡ Some (run (codes "p.toml") 10 accesses_alone) }
{}

/// Command lines with a seed.
pub fn seeded()
    ensures seed { command_of (codes "gen" ∷ codes "7" ∷ []) ≡ Some (gen 7 4) }
    ensures zero_seed { command_of (codes "gen" ∷ codes "--workers" ∷ codes "1" ∷ codes "0" ∷ []) ≡ Some (gen 0 1) }
    ensures last_seed { command_of (codes "gen" ∷ codes "18446744073709551615" ∷ codes "--workers=16" ∷ [])
        ≡ Some (gen 18446744073709551615 16) }
{}

/// Seeds that are none: nothing, a zero before a digit, a sign, a number of more than 64 bits, and a trace beside one.
pub fn refused_seeds()
    ensures no_seed { command_of (codes "gen" ∷ []) ≡ None }
    ensures zero_before { command_of (codes "gen" ∷ codes "07" ∷ []) ≡ None }
    ensures seed_sign { command_of (codes "gen" ∷ codes "+7" ∷ []) ≡ None }
    ensures large_seed { command_of (codes "gen" ∷ codes "18446744073709551616" ∷ []) ≡ None }
    ensures seed_trace { command_of (codes "gen" ∷ codes "7" ∷ codes "--trace=all" ∷ []) ≡ None }
{}

/// Words that are no command line.
pub fn refused()
    ensures nothing { command_of [] ≡ None }
    ensures no_file { command_of (codes "run" ∷ []) ≡ None }
    ensures two_files { command_of (codes "run" ∷ codes "a" ∷ codes "b" ∷ []) ≡ None }
    ensures zero_workers { command_of (codes "run" ∷ codes "a" ∷ codes "--workers" ∷ codes "0" ∷ []) ≡ None }
    ensures many_workers { command_of (codes "run" ∷ codes "a" ∷ codes "--workers" ∷ codes "17" ∷ []) ≡ None }
    ensures leading_zero { command_of (codes "run" ∷ codes "a" ∷ codes "--workers=04" ∷ []) ≡ None }
    ensures sign { command_of (codes "run" ∷ codes "a" ∷ codes "--workers=+4" ∷ []) ≡ None }
    ensures repeated { command_of (codes "run" ∷ codes "a" ∷ codes "--workers=4" ∷ codes "--workers" ∷ codes "4" ∷ []) ≡ None }
    ensures dashes { command_of (codes "run" ∷ codes "--" ∷ codes "a" ∷ []) ≡ None }
    ensures help { command_of (codes "--help" ∷ []) ≡ None }
    ensures script_option { command_of (codes "script" ∷ codes "a" ∷ codes "--trace=all" ∷ []) ≡ None }
{}
