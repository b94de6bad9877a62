//! The first code points of a name, held back until it is known whether the name goes into the cells.
ghost use Rattle.reader.specs.Holding.{held_text};
ghost use Rattle.scan.specs.Fills.{Puts};
ghost use Rattle.std.specs.Option.{option_to_list};
ghost use Rattle.syntax.specs.Reading.{is_url};
ghost use Rattle.std.specs.Prelude.{◌≡◌, ◌&&◌, ◌==◌};

use scan::Cells;
use syntax::name;

/// Up to three code points, as many as `url` has: in fixed memory, since the reader never allocates. Three fields,
/// since the definition of what is held names each.
#[derive(Clone, Copy)]
pub struct Held {
    pub first: Option<u32>,
    pub second: Option<u32>,
    pub third: Option<u32>,
}

/// The name is url, in any ASCII case, and its `(` comes next.
pub fn opens_url(next: u32, held: Held) -> bool
    ensures { result ≡ (next == 40 && is_url (held_text held)) }
{
    next == 0x28 && is_url(held)
}

fn is_url(held: Held) -> bool
    ensures { result ≡ is_url (held_text held) }
{
    let (Some(a), Some(b), Some(c)) = (held.first, held.second, held.third) else {
        return false;
    };
    name::is_url(&[a, b, c])
}

/// What is held, into the next cells.
pub fn put_held(cells: &mut Cells<'_>, held: Held)
    ensures { Puts cells.old (held_text held) cells.new }
{
    put_some(cells, held.first);
    put_some(cells, held.second);
    put_some(cells, held.third);
}

#[tactic(auto, unfolding(scan::specs::Fills::filled, scan::specs::Fills::laid))]
fn put_some(cells: &mut Cells<'_>, c: Option<u32>)
    ensures { Puts cells.old (option_to_list c) cells.new }
{
    if let Some(c) = c {
        cells.put(c);
    }
}
