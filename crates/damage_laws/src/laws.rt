//! Laws of what is found and blamed by the bytes at entry, each the contract of a function that does nothing.

ghost use Rattle.damage_laws.specs.Counts.{CountedLaw};
ghost use Rattle.damage_laws.specs.Made.{BesideLaw, GatheredLaw, JoinsLaw, KeptLaw, LookedUpLaw, SealedLaw};
ghost use Rattle.damage_laws.specs.Places.{BodyLaw, EntryLaw, FoundLaw, PlaceLaw, RowLaw};

/// What a fetch blames of the parts that are there now is a bad place of a part at entry, where each of them is one of these, with the
/// bytes that it had, or is in the grammar. What is found in a part that is kept so is what is found by the bytes at entry.
pub fn place_law()
    ensures body { BodyLaw }
    ensures place { PlaceLaw }
    ensures found { FoundLaw }
    ensures row { RowLaw }
    ensures entry { EntryLaw }
{}

/// What the parts that are there now were made of: parts at entry, rows that were sealed since, and neighbours of these that were merged, or of which the rows stand one
/// behind the other. A part that is unchanged, was sealed or gathered is made so; so is one that was merged of two, whatever their bytes are, in each of which one list of rows is found.
pub fn made_law()
    ensures kept { KeptLaw }
    ensures sealed { SealedLaw }
    ensures looked_up { LookedUpLaw }
    ensures joins { JoinsLaw }
    ensures beside { BesideLaw }
    ensures gathered { GatheredLaw }
{}

/// Rows of which the versions of each node go up by one may stand as a partition, sorted by node and version.
pub fn counted_law()
    ensures { CountedLaw }
{}
