//! Where a mailbox lies in the table, and what it shares a cache line with.
//!
//! A table has its words side by side, 8 bytes each, and its slots side by side elsewhere. It offers no padding: unused
//! words are the only way to keep two words out of one line, and words whose numbers are 16 apart lie 128 bytes apart, in
//! different lines wherever the table begins. Word 0, which every party changes when it arrives and reads while it waits,
//! is kept so from the mailboxes' words. Those of one sender lie together, 8 to a line of 64 bytes: the two banks of four
//! receivers, so workers that serve these may meet in a line. To keep each mailbox apart would take 16 words each, 279 KB
//! a board, for words that change four times in a period; it is not done. A slot is as large as a mail is, and only the
//! type that a board carries can pad it.
ghost use Rattle.std.specs.Prelude.{◌≡◌, ◌<◌};
ghost use Rattle.board_rule.specs.Mailbox.{bank_of, slot_of, word_of};

/// The word that counts the arrivals of all parties.
pub(crate) const ARRIVALS: usize = 0;

/// The words of a board. Word 0 counts arrivals, and 15 unused words keep those of the mailboxes out of its cache line.
pub(crate) const WORDS: usize = 2194;

/// The slots of a board: one for each sender, receiver and bank, for 33 parties, however many it has.
pub(crate) const SLOTS: usize = 2178;

const PARTIES: usize = 33;

const BANKS: usize = 2;

const FIRST_WORD: usize = 16;

/// The slot through which the mail of a period goes.
pub(crate) fn slot(from: u32, to: u32, period: u64) -> usize
    requires from { from < 33 }
    requires to { to < 33 }
    ensures slot { result ≡ slot_of from to (bank_of period) }
    ensures below { result < 2178 }
{
    (from as usize * PARTIES + to as usize) * BANKS + (period % BANKS as u64) as usize
}

/// The word of a slot.
pub(crate) fn word(slot: usize) -> usize
    requires { slot < 2178 }
    ensures { result ≡ word_of slot }
{
    slot + FIRST_WORD
}
