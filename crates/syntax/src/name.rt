//! Names that the rules of reading and writing know.
ghost use Rattle.syntax.specs.Reading.{is_url};
ghost use Rattle.std.specs.Prelude.{◌≡◌};

/// The name `url` in any ASCII case.
pub fn is_url(name: &[u32]) -> bool
    ensures { result ≡ is_url name.now }
{
    matches!(name, [0x75 | 0x55, 0x72 | 0x52, 0x6c | 0x4c])
}
