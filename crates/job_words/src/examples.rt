//! Small command lines, computed: functions that do nothing, whose contracts state what the definitions give.
ghost use Rattle.std.specs.Prelude.{◌≡◌, ◌∷◌, [], true, false, Some, None, codes};
ghost use Rattle.job_words.specs.declared.job.Job.TheVariants.{Solve, Check, Gen, Race};
ghost use Rattle.formula_kinds.specs.declared.kind.Kind.TheVariants.{Hole, Grid, Rand};
ghost use Rattle.job_words.specs.Job.{job_of, settings_with};

/// What small command lines ask for, and that others ask for nothing.
#[tactic(auto, unfolding(crate::specs::Commands::rows_of_words, clap::proofs::OnLiterals::clap_on_literals))]
pub fn law_small_command_lines()
    ensures plain { job_of (codes "solve" ∷ codes "f" ∷ []) ≡ Some (Solve (codes "f") (settings_with 4 300 8 10000000 0) 4 None false) }
    ensures before { job_of (codes "solve" ∷ codes "--cores" ∷ codes "2" ∷ codes "f" ∷ []) ≡ Some (Solve (codes "f") (settings_with 2 300 8 10000000 0) 4 None false) }
    ensures behind { job_of (codes "solve" ∷ codes "f" ∷ codes "--cores=2" ∷ []) ≡ Some (Solve (codes "f") (settings_with 2 300 8 10000000 0) 4 None false) }
    ensures options { job_of (codes "solve" ∷ codes "f" ∷ codes "--seed" ∷ codes "7" ∷ codes "--log" ∷ codes "g" ∷ codes "--limit" ∷ codes "030" ∷
        codes "--trace" ∷ codes "--workers" ∷ codes "0" ∷ codes "--share" ∷ codes "0" ∷ codes "--cores" ∷ codes "16" ∷ codes "--period" ∷ codes "5" ∷ []) ≡
        Some (Solve (codes "f") (settings_with 16 5 0 30 7) 0 (Some (codes "g")) true) }
    ensures no_words { job_of [] ≡ None }
    ensures no_file { job_of (codes "solve" ∷ []) ≡ None }
    ensures empty_file { job_of (codes "solve" ∷ codes "" ∷ []) ≡ None }
    ensures empty_log { job_of (codes "solve" ∷ codes "f" ∷ codes "--log=" ∷ []) ≡ None }
    ensures cores { job_of (codes "solve" ∷ codes "f" ∷ codes "--cores" ∷ codes "17" ∷ []) ≡ None }
    ensures unknown { job_of (codes "solve" ∷ codes "f" ∷ codes "--coers" ∷ codes "2" ∷ []) ≡ None }
    ensures twice { job_of (codes "solve" ∷ codes "f" ∷ codes "--log" ∷ codes "g" ∷ codes "--log" ∷ codes "h" ∷ []) ≡ None }
    ensures flag_twice { job_of (codes "solve" ∷ codes "f" ∷ codes "--trace" ∷ codes "--trace" ∷ []) ≡ None }
    ensures flag_with_value { job_of (codes "solve" ∷ codes "f" ∷ codes "--trace=true" ∷ []) ≡ None }
    ensures valueless { job_of (codes "solve" ∷ codes "f" ∷ codes "--limit" ∷ []) ≡ None }
    ensures digits_20 { job_of (codes "solve" ∷ codes "f" ∷ codes "--seed" ∷ codes "00000000000000000007" ∷ []) ≡
        Some (Solve (codes "f") (settings_with 4 300 8 10000000 7) 4 None false) }
    ensures digits_21 { job_of (codes "solve" ∷ codes "f" ∷ codes "--seed" ∷ codes "000000000000000000007" ∷ []) ≡ None }
    ensures signed { job_of (codes "solve" ∷ codes "f" ∷ codes "--seed" ∷ codes "+7" ∷ []) ≡ None }
    ensures help { job_of (codes "solve" ∷ codes "f" ∷ codes "--help" ∷ []) ≡ None }
    ensures check { job_of (codes "check" ∷ codes "f" ∷ codes "p" ∷ []) ≡ Some (Check (codes "f") (codes "p")) }
    ensures dashes { job_of (codes "check" ∷ codes "--" ∷ codes "-f" ∷ codes "--p" ∷ []) ≡ Some (Check (codes "-f") (codes "--p")) }
    ensures alone { job_of (codes "check" ∷ codes "f" ∷ []) ≡ None }
    ensures generated { job_of (codes "gen" ∷ codes "grid" ∷ codes "300" ∷ []) ≡ Some (Gen Grid 300 0) }
    ensures seeded { job_of (codes "gen" ∷ codes "rand" ∷ codes "4" ∷ codes "--seed" ∷ codes "7" ∷ []) ≡ Some (Gen Rand 4 7) }
    ensures above { job_of (codes "gen" ∷ codes "grid" ∷ codes "301" ∷ []) ≡ None }
    ensures tower { job_of (codes "gen" ∷ codes "tower" ∷ codes "3" ∷ []) ≡ None }
    ensures race { job_of (codes "race" ∷ codes "hole" ∷ codes "1" ∷ []) ≡ Some (Race Hole 1 (settings_with 4 300 8 10000000 0)) }
    ensures no_workers { job_of (codes "race" ∷ codes "hole" ∷ codes "1" ∷ codes "--workers" ∷ codes "1" ∷ []) ≡ None }
{}
