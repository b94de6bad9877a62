//! Calls given as values and made one after another.
#![tactic(auto, using(crate::proofs::Replaying::calls_made))]

ghost use Rattle.writer.specs.Runs.{Makes, RunOf, call_of};
ghost use Rattle.std.specs.Prelude.{map};

use crate::calls::Call;
use crate::writing::{Slip, Writer};
use refusal::Fault;
use stream::Sink;

impl<S: Sink> Writer<S> {
    /// One call. A slip that it gives is spent here: close is called with the slip's numbers.
    pub fn call(&mut self, call: Call<'_>) -> Result<(), Fault>
        ensures { Makes S.Sink.held S.Sink.takes self.old (call_of call.entry) result self.new }
    {
        match call {
            Call::Put(token) => self.put(token),
            Call::Open(token) => {
                let mut slip = self.open(token)?;
                slip.depth = 0;
                Ok(())
            }
            Call::Close(depth, kind) => self.close(Slip { depth, kind }),
            Call::Finish => {
                self.finish()?;
                Ok(())
            }
        }
    }

    /// Makes the calls one after another, whatever each answers.
    pub fn replay(&mut self, calls: &[Call<'_>])
        ensures { RunOf S.Sink.held S.Sink.takes self.old (map call_of calls.now) self.new }
    {
        for call in calls {
            let _ = self.call(*call);
        }
    }
}
