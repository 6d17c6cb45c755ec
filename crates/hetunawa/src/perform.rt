// A call is made on a host.
ghost use Rattle.hetunawa.specs.Grammar.{meaning};
ghost use Rattle.hetunawa.specs.Performs.{Performs};

use crate::answer::Answer;
use crate::call::Call;
use host::{Host, Job};

pub fn perform<B: Host>(host: &mut B, call: &Call) -> Answer
    ensures { Performs B.Host.CAPACITY B.Host.makes (meaning call.now) (B.Host.state host.old) result (B.Host.state host.new) }
{
    let answer = match call {
        Call::Write(file, mark) => host.outside_write(*file, Some(*mark)).map(Answer::Written),
        Call::Remove(file) => host.outside_write(*file, None).map(Answer::Removed),
        Call::Tell(file) => host
            .tell(*file)
            .map(|found| found.map_or(Answer::Absent, Answer::Present)),
        Call::Clock => Ok(Answer::Clock(host.clock())),
        Call::Start(start) => host
            .start(Job {
                edge: start.edge,
                question: &start.question,
                reads: &start.reads,
                outputs: &start.outputs,
            })
            .map(Answer::Started),
        Call::Poll => Ok(
            host.poll().map_or(Answer::NoEnding, |ended| {
                if ended.good {
                    Answer::Good(ended.edge)
                } else {
                    Answer::Failed(ended.edge)
                }
            }),
        ),
        Call::BreakOff(edge) => host.break_off(*edge).map(|broken| {
            if broken {
                Answer::BrokenOff
            } else {
                Answer::NothingPending
            }
        }),
    };
    answer.unwrap_or_else(Answer::Refused)
}
