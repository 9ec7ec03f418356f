//! What a report's text says, the contract of a function that does nothing.

ghost use Rattle.script_text.specs.Marks.{MapsStay, RunTells, TextTells};

/// Where no key or value holds a line feed, the text of a report fixes for each transaction whether it was committed and at
/// which place in which epoch, aborted, refused and why, or not run. A script holds none, so a map that holds none at entry
/// holds none after it.
pub fn text_law()
    ensures text { TextTells }
    ensures run { RunTells }
    ensures maps { MapsStay }
{}
