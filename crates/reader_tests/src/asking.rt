// How far a source is asked: its writer sees that.
use crate::tokens::token;
use reader::{Next, Reader};
use refusal::Fault;
use stream::{ArraySource, Source, Step};
use syntax::kind::Kind;

/// A source that counts how often it is asked.
#[derive(Drop)]
struct Counted<'a, S> {
    below: S,
    asked: &'a mut u32,
}

impl<S: Source> Source for Counted<'_, S> {
    ghost ahead = { λ s. S.Source.ahead s.below };

    ghost ending = { λ s. S.Source.ending s.below };

    ghost within = { λ s. S.Source.within s.below };

    ghost sourced = { λ s. S.Source.sourced s.below };

    fn next(&mut self) -> Result<Step, Fault> {
        *self.asked = self.asked.saturating_add(1);
        self.below.next()
    }
}

/// Whoever keeps a reader for later names no bound.
#[derive(Drop)]
struct Kept<S> {
    reader: Reader<S>,
}

// `a;b;c;d;`, and so on
const TEXT: &'static [u32] = &[
    0x61, 0x3b, 0x62, 0x3b, 0x63, 0x3b, 0x64, 0x3b, 0x65, 0x3b, 0x66, 0x3b, 0x67, 0x3b, 0x68, 0x3b,
];

/// The token, and the three behind it that decide whether a fault takes its place.
#[test]
fn a_source_is_asked_for_three_behind_the_token(rt: HostRuntime) {
    let mut asked = 0;
    let mut cells = [0; 4];
    let below = ArraySource::new(TEXT);
    let source = Counted {
        below,
        asked: &mut asked,
    };
    let mut kept = Kept {
        reader: Reader::new(source),
    };
    assert_eq!(rt;
        kept.reader.next_token(&mut cells),
        Ok(Next::Token(token(Kind::Ident, 1, 0, 0)))
    );
    assert_eq!(rt;
        kept.reader.next_token(&mut cells),
        Ok(Next::Token(token(Kind::Semicolon, 0, 0, 1)))
    );
    let _ = kept;
    assert_eq!(rt; asked, 5);
}
