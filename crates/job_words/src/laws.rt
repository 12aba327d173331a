//! Laws of the definitions that contracts cite: functions that do nothing, whose contracts state them.
ghost use Rattle.std.specs.Prelude.{◌≡◌, ◌≤◌, ◌<◌, ℕ, List, ◌∷◌, length, Some, IfSome};
ghost use Rattle.job_words.specs.Numbers.{number_of};
ghost use Rattle.job_words.specs.Job.{job_of, command_word, IsInRange};

/// A number that is read is in its range.
pub fn law_numbers()
    ensures { (low high n : ℕ) (text : List ℕ) → number_of low high text ≡ Some n → (low ≤ n) × (n ≤ high) }
{}

/// A zero before a number of fewer than 20 digits changes nothing.
pub fn law_leading_zeros()
    ensures { (low high : ℕ) (text : List ℕ) → 0 < length text → length text < 20 → number_of low high (48 ∷ text) ≡ number_of low high text }
{}

/// The first word of a command line is its job's command, and the numbers of the job are in their ranges.
pub fn law_jobs()
    ensures command { (command : List ℕ) (arguments : List (List ℕ)) → IfSome (job_of (command ∷ arguments)) (λ job. command ≡ command_word job) }
    ensures range { (words : List (List ℕ)) → IfSome (job_of words) IsInRange }
{}
