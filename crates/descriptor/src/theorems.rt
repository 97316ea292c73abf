// What is proved of the definitions themselves.
ghost use Rattle.descriptor.specs.Descriptors.{RoundTrips};

// A descriptor's word and its fields make each other.
pub fn round_trips()
    ensures { RoundTrips }
{}
