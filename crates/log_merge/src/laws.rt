//! That the numbers of the log follow on: laws of the definitions, as functions that do nothing and
//! whose contracts state them.
ghost use Rattle.std.specs.Prelude.{◌≡◌, ◌+◌, ◌<◌, ◌≤◌, ℕ, List, All, length, slice_index};
ghost use Rattle.lit_base.specs.declared.name.Name.{Name};
ghost use Rattle.solo_core.specs.declared.lemma.Lemma.{Lemma};
ghost use Rattle.solo_core.specs.Log.{AreNumbered, NumbersOriginals};
ghost use Rattle.solo_core.specs.Soundness.{AreNamed};
ghost use Rattle.log_merge.specs.Numbering.{Numbering, with_period, counts_in, number_before, number_of, HasNumber};
ghost use Rattle.log_merge.specs.Log.{log_names, names_of_lemmas};

/// Originals are numbered from 1, and the lemmas of a core in a period from the number before its
/// first one. The first core of the first period begins behind the originals, each core where the one
/// before ended, and each period where the last core of the one before ended. So all lemmas of the log
/// have the numbers behind the originals, in their order and without a gap.
pub fn law_numbers_follow_on()
    ensures originals { (n : Numbering) → NumbersOriginals (number_of n) }
    ensures in_core { (n : Numbering) (period core : ℕ) (lemmas : List Lemma) → 1 ≤ period →
        AreNamed period core 0 lemmas → AreNumbered (number_of n) (number_before n period core + 1) lemmas }
    ensures first_core { (n : Numbering) → number_before n 1 0 ≡ n.originals }
    ensures next_core { (n : Numbering) (period core : ℕ) → core < length (counts_in n period) →
        number_before n period (core + 1) ≡ number_before n period core + slice_index (counts_in n period) core }
    ensures next_period { (n : Numbering) (period : ℕ) → 1 ≤ period → period ≤ length n.periods →
        number_before n (period + 1) 0 ≡ number_before n period (length (counts_in n period)) }
    ensures whole { (n : Numbering) (lemmas : List Lemma) → names_of_lemmas lemmas ≡ log_names n →
        AreNumbered (number_of n) (n.originals + 1) lemmas }
{}

/// What has a number keeps it while further periods end, and the lemmas of a core that stand in an
/// ended period have numbers.
pub fn law_numbers_stay()
    ensures same { (n : Numbering) (counts : List ℕ) (name : Name) → HasNumber n name →
        number_of (with_period counts n) name ≡ number_of n name }
    ensures still { (n : Numbering) (counts : List ℕ) (name : Name) → HasNumber n name →
        HasNumber (with_period counts n) name }
    ensures standing { (n : Numbering) (period core : ℕ) (lemmas : List Lemma) → 1 ≤ period → period ≤ length n.periods →
        core < n.cores → AreNamed period core 0 lemmas → length lemmas ≤ slice_index (counts_in n period) core →
        All (λ lemma. HasNumber n lemma.name) lemmas }
{}
