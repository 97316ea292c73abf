// What is proved of the definitions themselves: each function promises one statement and does nothing.
ghost use Rattle.words.specs.Sizes.{PlaceFact};
ghost use Rattle.words.specs.Permissions.{PermissionFacts};
ghost use Rattle.words.specs.Ranges.{AlignmentFact, RangeFact, HotspotFact};

// A base is aligned exactly when it has enough trailing zero bits, and base 0 always is.
pub fn alignment_fact()
    ensures { AlignmentFact }
{}

// A range that is aligned and begins in a space lies in it.
pub fn range_fact()
    ensures { RangeFact }
{}

// A base raised by the hotspot stays in its side's range.
pub fn hotspot_fact()
    ensures { HotspotFact }
{}

// Inclusion is an order, and delegation and revocation respect it.
pub fn permission_facts()
    ensures { PermissionFacts }
{}

// A place is a domain, a space and a selector.
pub fn place_fact()
    ensures { PlaceFact }
{}
