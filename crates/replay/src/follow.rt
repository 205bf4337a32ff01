//! What an act makes of the open calls, in a whole replay and in a read of a stream.

ghost use Rattle.std.specs.Prelude.{◌≡◌};
ghost use Rattle.replay.specs.Private.{Fits, calls_behind};

use crate::acts::Act;
use crate::calls::Calls;

/// Behind a function record: a call is stored, or calls are closed. The open calls are lent and not handed on by value, since
/// a store at a variable index would copy all of them.
pub fn follow(calls: &mut Calls, act: Act)
    requires { Fits calls.old.depth act }
    ensures { calls.new ≡ calls_behind calls.old act }
{
    match act {
        Act::Push { row, depth, clock } => {
            let top = calls.depth;
            calls.row[top] = row;
            calls.since[top] = clock;
            calls.depth = depth;
            calls.clock = clock;
        }
        Act::Pop { depth, clock } => {
            calls.depth = depth;
            calls.clock = clock;
        }
    }
}
