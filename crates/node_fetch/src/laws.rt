//! What fetches find and blame, in the words of the model.

ghost use Rattle.node_fetch.specs.Blames.{FoundLaw, RowLaw, EntryLaw, GoodLaw, ExactLaw, SoundLaw};

/// Where an eye tells its bytes, what a fetch finds is what a reader of the image finds, and what it blames is a bad place of the image.
/// Parts in the grammar have no bad place, and what is found in them is exact, so on a sound log no damage may be named.
pub fn damage_law()
    ensures found { FoundLaw }
    ensures row { RowLaw }
    ensures entry { EntryLaw }
    ensures good { GoodLaw }
    ensures exact { ExactLaw }
    ensures sound { SoundLaw }
{}
