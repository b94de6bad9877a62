// Tokens that the tests expect.
use reader::Located;
use syntax::kind::Kind;

pub(crate) fn token(kind: Kind, text: usize, unit: usize, place: usize) -> Located {
    Located {
        kind,
        mark: 0,
        text,
        unit,
        place,
    }
}
