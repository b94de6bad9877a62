ghost use Rattle.std.specs.Prelude.{◌≤◌};

/// The bytes of one code point: the first `len` of `bytes`. A fixed array and no `Vec`, since writing takes no heap.
#[derive(Clone, Copy)]
pub struct Encoded {
    pub(crate) bytes: [u8; 4],
    pub(crate) len: usize,
    ghost short: { len ≤ 4 },
}
