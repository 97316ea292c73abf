// What is proved of the definitions themselves: each function promises its statement and does nothing.
ghost use Rattle.endian.specs.Numbers.{BothWays};
ghost use Rattle.endian.specs.Runs.{RunsBothWays};

// A number and its bytes make each other.
pub fn both_ways()
    ensures { BothWays }
{}

// Numbers one after the other and their bytes make each other.
pub fn runs_both_ways()
    ensures { RunsBothWays }
{}
