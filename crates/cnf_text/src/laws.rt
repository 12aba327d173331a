//! Laws of the definitions that contracts cite: functions that do nothing, whose contracts state them.
ghost use Rattle.cnf_text.specs.Laws.{EarlyFaultStays, EndEndsInput, ReadBytesAreSound, ReadBytesAreFew, WrittenIsRead, CommentsChangeNothing};

/// A fault that stands before the end stands at the end too, whatever follows.
pub fn early_fault_stays()
    ensures { EarlyFaultStays }
{}

/// What follows the line that ends the input changes nothing.
pub fn end_ends_input()
    ensures { EndEndsInput }
{}

/// The bytes that a reader has read have no fault so far.
pub fn read_bytes_are_sound()
    ensures { ReadBytesAreSound }
{}

/// The bytes that a reader has read are within the limit, unless a line of them ends the input.
pub fn read_bytes_are_few()
    ensures { ReadBytesAreFew }
{}

/// The text of any formula within the limits is read as that formula, each clause with its distinct literals.
pub fn written_is_read()
    ensures { WrittenIsRead }
{}

/// A comment line changes no formula, wherever it is put between two lines.
pub fn comments_change_nothing()
    ensures { CommentsChangeNothing }
{}
