// What is proved of dumps: each function promises one statement and does nothing.
ghost use Rattle.dump_format.specs.DumpFacts.{WordsStand, LineTells, DumpsBothWays, BytesExactly, SoundComesBack, ReportsWhole};

// A dump holds the place words, then the object words, each of four bytes, the lowest first.
pub fn words_stand()
    ensures { WordsStand }
{}

// The line tells the first fault, and the repaired dump follows it.
pub fn line_tells()
    ensures { LineTells }
{}

// Tables and their dump make each other.
pub fn dumps_both_ways()
    ensures { DumpsBothWays }
{}

// Repair of a dump changes the bytes of the places that are emptied, and no other.
pub fn bytes_exactly()
    ensures { BytesExactly }
{}

// A sound dump comes back unchanged, and so does a repaired one whose records and domain 0 were sound.
pub fn sound_comes_back()
    ensures { SoundComesBack }
{}

// A report is the whole output, or leaves the buffer.
pub fn reports_whole()
    ensures { ReportsWhole }
{}
