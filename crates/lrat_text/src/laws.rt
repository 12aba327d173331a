//! Laws of the definitions that contracts cite: functions that do nothing, whose contracts state them.
ghost use Rattle.std.specs.Prelude.{◌≡◌, ◌∷◌, [], codes, None, Some};
ghost use Rattle.lit_base.specs.Examples.{half, deletion};
ghost use Rattle.lrat_text.specs.declared.fault.LineFault.TheVariants.{BadToken, Unclosed, RatHint};
ghost use Rattle.lrat_text.specs.Reading.{proof_steps, early_steps, no_steps};
ghost use Rattle.lrat_text.specs.Examples.{without_fault, up_to, two_lemmas, two_additions, odd_lines, odd_steps};
ghost use Rattle.lrat_text.specs.Laws.{EarlyFaultStays, EndedLinesStay, ReadBytesAreSound, ReadBytesAreFew, WrittenIsRead};

/// A fault that stands before the end stands at the end too, whatever follows, behind the same lines.
pub fn early_fault_stays()
    ensures { EarlyFaultStays }
{}

/// Where there is no fault yet, the lines that have ended are the first of the whole, whatever follows.
pub fn ended_lines_stay()
    ensures { EndedLinesStay }
{}

/// The bytes that a reader has read have no fault so far, and it has handed out just the lines that have ended.
pub fn read_bytes_are_sound()
    ensures { ReadBytesAreSound }
{}

/// The bytes that a reader has read are within the limit.
pub fn read_bytes_are_few()
    ensures { ReadBytesAreFew }
{}

/// The text of any log within the limits is read as its lemmas, line by line.
pub fn written_is_read()
    ensures { WrittenIsRead }
{}

/// What small texts are read as.
pub fn small_proofs_are_read()
    ensures two_lemmas { proof_steps two_lemmas ≡ without_fault two_additions }
    ensures odd_lines { proof_steps odd_lines ≡ without_fault odd_steps }
    ensures not_ended { early_steps odd_lines ≡ without_fault (deletion 3 7 (1 ∷ 2 ∷ []) ∷ []) }
    ensures rat_hint { proof_steps (codes "5 1 0 -1 2 0\n") ≡ up_to [] (RatHint 1) }
    ensures minus_zero { proof_steps (codes "5 1 0 -0 2 0\n") ≡ up_to [] (BadToken 1) }
    ensures unclosed { proof_steps (codes "5 1 0 1 2\n") ≡ up_to [] (Unclosed 1) }
    ensures no_literal { proof_steps (codes "5 x 0 1 0\n") ≡ up_to [] (BadToken 1) }
    ensures behind_the_end { proof_steps (codes "5 1 0 1 2 0\n6 0 5 3 4 0 0\n") ≡ up_to (half 5 (1 ∷ 2 ∷ []) ∷ []) (BadToken 2) }
    ensures not_whole { early_steps (codes "5 1 0 -1") ≡ no_steps }
    ensures whole { early_steps (codes "5 1 0 -1 ") ≡ up_to [] (RatHint 1) }
{}
