// What is proved of the definitions themselves: each function promises one statement and does nothing.
ghost use Rattle.hip_format.specs.Consequences.{ReadsBack, WrittenBack, TypesExactly, RefusedExactly, WriteRefusedExactly, GivenExactly, CountsByFields, DescriptorsStand, WordsCount, OneChecksumFits, FrontDecides};
ghost use Rattle.hip_format.specs.Examples.{PageExamples};

// What is written reads back equal.
pub fn reads_back()
    ensures { ReadsBack }
{}

// An accepted page is written back byte for byte.
pub fn written_back()
    ensures { WrittenBack }
{}

// The types that are allowed are six.
pub fn types_exactly()
    ensures { TypesExactly }
{}

// Each refusal of bytes has exactly its cause, behind the tests before it.
pub fn refused_exactly()
    ensures { RefusedExactly }
{}

// Each refusal to write has exactly its cause, behind the tests before it, and leaves the buffer.
pub fn write_refused_exactly()
    ensures { WriteRefusedExactly }
{}

// What the writer's bytes and lists give, and that they can give any contents.
pub fn given_exactly()
    ensures { GivenExactly }
{}

// The counts are those of equations 6.1 and 6.2.
pub fn counts_by_fields()
    ensures { CountsByFields }
{}

// The descriptors of an accepted page stand one after the other, and a refused page has none.
pub fn descriptors_stand()
    ensures { DescriptorsStand }
{}

// Every word counts in the sum.
pub fn words_count()
    ensures { WordsCount }
{}

// Exactly one checksum fits.
pub fn one_checksum_fits()
    ensures { OneChecksumFits }
{}

// Bytes after the first 65,536 change no judgement.
pub fn front_decides()
    ensures { FrontDecides }
{}

// The manual's example, and pages at the bounds.
pub fn page_examples()
    ensures { PageExamples }
{}
