//! The theorem of readings.
ghost use Rattle.reader.specs.Readings.{ReadingsGiveTheTokens};

use stream::Source;

/// A reading over a source, call by call to the end, gives the tokens of the source's preprocessed code points.
/// The function does nothing: its contract says what has been proved.
#[tactic(auto, using(crate::proofs::Giving::reading_gives))]
pub fn readings_give_the_tokens<S: Source>()
    ensures { ReadingsGiveTheTokens S.Source.ahead S.Source.ending }
{}
