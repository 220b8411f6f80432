//! What a stream says of the guard's steps, and of those of the replica inside.
ghost use Rattle.node_stream.specs.Running.{AnswersRun, FramesRun, PlainlyRun};

/// The answers to lines are those of `Guard::step` on the requests of the lines, one after the other, and the replica inside takes the
/// turns that its guard has it carry out; so `replica::laws::runs_mean` says what the segment then means inside one sound log.
pub fn answers_run()
    ensures { AnswersRun }
{}

/// The same of the answers to frames and the requests of the frames.
pub fn frames_run()
    ensures { FramesRun }
{}

/// A node that no engine has admitted answers requests of a replica as the replica alone, in lines and in frames.
pub fn plainly_run()
    ensures { PlainlyRun }
{}
