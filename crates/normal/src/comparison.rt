//! Two lists of calls on two writers, under the normal-form law.
ghost use Rattle.normal.specs.Law.{NormalFormLaw, RunFrom};
ghost use Rattle.writer.specs.Runs.{call_of};
ghost use Rattle.std.specs.Prelude.{◌≡◌, ◌&&◌, map};

use stream::{Sink, Source};
use writer::{Call, Writer};

/// The two writers after their calls, and whether both have finished.
#[derive(Drop)]
pub struct Compared<A, B> {
    pub left: Writer<A>,
    pub right: Writer<B>,
    pub finished: bool,
}

/// Makes a list of calls on a new writer over one sink, and another list on a new writer over another. For these and
/// for all runs over such sinks, and for all readings and normal forms over sources of the two kinds, the normal-form
/// law holds.
pub fn compare<P: Source, Q: Source, S: Sink, T: Sink>(
    left: S,
    left_calls: &[Call<'_>],
    right: T,
    right_calls: &[Call<'_>],
) -> Compared<S, T>
    ensures law { NormalFormLaw P.Source.ahead P.Source.ending Q.Source.ahead Q.Source.ending S.Sink.held S.Sink.takes T.Sink.held T.Sink.takes }
    ensures left_run { RunFrom S.Sink.held S.Sink.takes left (map call_of left_calls.now) result.left }
    ensures right_run { RunFrom T.Sink.held T.Sink.takes right (map call_of right_calls.now) result.right }
    ensures found { result.finished ≡ (result.left.state.finished && result.right.state.finished) }
{
    let left = run(left, left_calls);
    let right = run(right, right_calls);
    let finished = left.is_finished() && right.is_finished();
    Compared {
        left,
        right,
        finished,
    }
}

/// A new writer over the sink, after these calls.
fn run<S: Sink>(sink: S, calls: &[Call<'_>]) -> Writer<S>
    ensures { RunFrom S.Sink.held S.Sink.takes sink (map call_of calls.now) result }
{
    let mut writer = Writer::new(sink);
    writer.replay(calls);
    writer
}
