//! The preprocessing layer.
ghost use Rattle.codepoint.specs.Classes.{within};
ghost use Rattle.stream.specs.Preprocess.{PreprocessingSettles, behind, preprocessed, replaced};
ghost use Rattle.stream.specs.Within.{behind_within};
ghost use Rattle.std.specs.Prelude.{◌≡◌};

use crate::source::{Source, Step};
use refusal::Fault;

/// Stands over any source, and is itself a source: U+000D U+000A becomes one newline, any other U+000D and U+000C a
/// newline, U+0000 and surrogates U+FFFD. All else passes, the ending too.
#[derive(Drop)]
pub struct Preprocess<S> {
    below: S,
    // the last code point was U+000D, so that a U+000A coming next belongs to it
    after_cr: bool,
}

impl<S: Source> Preprocess<S> {
    pub fn new(below: S) -> Preprocess<S>
        ensures ahead { behind result.after_cr (S.Source.ahead result.below) ≡ preprocessed (S.Source.ahead below) }
        ensures ending { S.Source.ending result.below ≡ S.Source.ending below }
    {
        Preprocess {
            below,
            after_cr: false,
        }
    }
}

impl<S: Source> Source for Preprocess<S> {
    ghost ahead = { λ s. behind s.after_cr (S.Source.ahead s.below) };

    ghost ending = { λ s. S.Source.ending s.below };

    ghost within = { λ s. behind_within s.after_cr (S.Source.ahead s.below) (S.Source.within s.below) };

    ghost sourced = { λ s. S.Source.sourced s.below };

    fn next(&mut self) -> Result<Step, Fault> {
        loop {
            let step = self.below.next()?;
            let Step::Point((c, place)) = step else {
                return Ok(step);
            };
            if is_plain(c) {
                self.after_cr = false;
                return Ok(step);
            }
            let joins = self.after_cr && c == 0x0a;
            self.after_cr = c == 0x0d;
            if !joins {
                return Ok(Step::Point((replace(c), place)));
            }
        }
    }
}

/// The code points that pass as they are and end no line: nearly all of a sheet.
fn is_plain(c: u32) -> bool
    ensures { result ≡ within 0x0e 0xd7ff c }
{
    matches!(c, 0x0e..=0xd7ff)
}

/// What stands for one code point.
fn replace(c: u32) -> u32
    ensures { result ≡ replaced c }
{
    match c {
        0x0c | 0x0d => 0x0a,
        0 | 0xd800..=0xdfff => 0xfffd,
        _ => c,
    }
}

/// The theorem of preprocessing, held by this function's contract.
#[tactic(auto, using(crate::proofs::Preprocessing::preprocessing_settles))]
pub fn preprocessing_settles()
    ensures { PreprocessingSettles }
{}
