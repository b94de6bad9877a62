//! The writer's plain inner state. Its limits are ghost fields, so that close never lacks room.
ghost use Rattle.std.specs.Prelude.{◌+◌, ◌≤◌};

use crate::blocks::Blocks;
use syntax::neighbour::Left;
use syntax::waiting::Waiting;

#[derive(Clone, Copy)]
pub struct State {
    /// The number of accepted tokens.
    pub(crate) accepted: usize,
    /// The number of comments written between them.
    pub(crate) comments: usize,
    pub(crate) blocks: Blocks,
    /// The last token as a left neighbour.
    pub(crate) left: Left,
    pub(crate) waiting: Waiting,
    /// The place of the sink's refusal, once it refused.
    pub(crate) stuck: Option<usize>,
    /// Finish was not refused. Beside `stuck`, since the law names both; only one can be, as each refuses every call.
    pub(crate) finished: bool,
    ghost room: { accepted + blocks.depth ≤ 1000000 },
    // blocks promise it too; the state carries both limits
    ghost shallow: { blocks.depth ≤ 32 },
    ghost few: { comments ≤ accepted },
}
