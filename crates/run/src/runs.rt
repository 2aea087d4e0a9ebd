// The run: the first of a play.
ghost use Rattle.std.specs.Prelude.{◌≡◌};
ghost use Rattle.bytecode.specs.Lent.{run_on};
ghost use Rattle.run.specs.Answers.{answer_of};
ghost use Rattle.run.specs.Once.{eventless};

use crate::plays::{Outcome, go};
use crate::{Played, RanWith};
use machine_run::Answer;
use packing::ANSWER_BYTES;

fn ran(p: Played) -> Answer
    ensures { result ≡ eventless p }
{
    match p {
        Played::Spends(n, k) => Answer::Spends(n),
        Played::Finishes(c, n, k) => Answer::Finishes(c, n),
        Played::Fills(n, k) => Answer::Spends(n), // with room for one event its run is made
    }
}

pub fn run(code: &[u8], state: &mut [u8], readings: &[u8], allowance: u16) -> RanWith
    ensures { run_on code.now state.old readings.now allowance
        ≡ record { answer = answer_of result.answer; bytes = state.new; readings = result.readings } }
{
    let mut room = [0u8; ANSWER_BYTES]; // an event is let in only where there is room for it
    match go(code, state, readings, allowance, true, &mut room) {
        Err(refusal) => RanWith {
            answer: Err(refusal),
            readings: 0,
        },
        Ok(g) => {
            let outcome = g.outcome;
            let answer = match outcome {
                Outcome::Happens(e, n) => Answer::Happens(e, n),
                Outcome::Plays(p) => ran(p),
            };
            RanWith {
                answer: Ok(answer),
                readings: g.readings,
            }
        }
    }
}
