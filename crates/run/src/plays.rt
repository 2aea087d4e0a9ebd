// The play: 8, 9, 10, 11 in this order, tested once; then as many runs as fit, each event's answer packed into the bytes lent for it. A run is made here, too,
// as one that hands its first event back, so that the machine's loop has one caller: it is compiled into the loop over the runs.
ghost use Rattle.std.specs.Prelude.{◌≡◌, ◌≤◌, length};
ghost use Rattle.machine_run.specs.Held.{Found};
ghost use Rattle.bytecode.specs.Play.{play_on};
ghost use Rattle.run.specs.Answers.{play_numbers};
ghost use Rattle.run.specs.Order.{Seen, Standing};
ghost use Rattle.run.specs.Once.{Goes, GoesOn};

use crate::{Played, PlayedWith};
use formats::limits::*;
use machine_ops::Event;
use machine_run::Answer;
use packing::ANSWER_BYTES;
use values::Refusal;

// The first event, with the steps taken, where only that is asked for; or what a play gives.
#[derive(Drop)]
pub enum Outcome {
    Happens(Event, u16),
    Plays(Played),
}

// What was asked for, and how many readings were taken for it.
#[derive(Drop)]
pub struct Gone {
    pub outcome: Outcome,
    pub readings: u16,
}

// Kept (point 7): `once` is a flag and no closure for what is done with an event: that is one `if`, and the answer differs by it.
// From a state's own bytes.
fn play_sound(
    code: &[u8],
    bodies: &[u32],
    classes: &[u32],
    base: usize,
    state: &mut [u8],
    readings: &[u8],
    allowance: u16,
    once: bool,
    answers: &mut [u8],
) -> Gone
    requires { (Found code.now bodies.now classes.now base) × (Standing code.now state.old) × (length readings.now ≡ 64) × (8 ≤ length answers.old) }
    ensures { Goes once code.now readings.now allowance state.old answers.old state.new answers.new result }
{
    let room = answers.len() / ANSWER_BYTES;
    let mut taken: u16 = 0;
    let mut events: u16 = 0;
    let mut read: u16 = 0;
    while (events as usize) < room {
        let left = allowance - taken;
        let r = machine_run::run_sound(code, bodies, classes, base, state, readings, left);
        read += r.readings;
        let answer = r.answer;
        match answer {
            Answer::Happens(e, n) => {
                if once {
                    return Gone {
                        outcome: Outcome::Happens(e, n),
                        readings: read,
                    };
                }
                let packed = packing::pack_event(e, n);
                packing::put_answer(answers, ANSWER_BYTES * (events as usize), packed);
                taken += n;
                events += 1;
            }
            Answer::Spends(n) => {
                return Gone {
                    outcome: Outcome::Plays(Played::Spends(taken + n, events)),
                    readings: read,
                };
            }
            Answer::Finishes(c, n) => {
                return Gone {
                    outcome: Outcome::Plays(Played::Finishes(c, taken + n, events)),
                    readings: read,
                };
            }
        }
    }
    Gone {
        outcome: Outcome::Plays(Played::Fills(taken, events)),
        readings: read,
    }
}

// Of a macro that passes, where `found` says that a state is sound, and where things stand in the macro. What a sound state does not use is made 0 first, so
// that the bytes after a run are those of the state alone. Without room for an event no run is made, and the state's bytes stay as they are.
fn play_passed(
    code: &[u8],
    bodies: &[u32],
    classes: &[u32],
    found: Option<usize>,
    state: &mut [u8],
    readings: &[u8],
    allowance: u16,
    once: bool,
    answers: &mut [u8],
) -> Result<Gone, Refusal>
    requires { Seen code.now state.old bodies.now classes.now found }
    ensures { GoesOn once code.now readings.now allowance state.old answers.old state.new answers.new result }
{
    let Some(base) = found else {
        return Err(Refusal {
            number: 10,
            place: 0,
        });
    };
    if readings.len() != FADERS {
        return Err(Refusal {
            number: 11,
            place: 0,
        });
    }
    if answers.len() < ANSWER_BYTES {
        return Ok(Gone {
            outcome: Outcome::Plays(Played::Fills(0, 0)),
            readings: 0,
        });
    }
    state_write::clear(code, bodies, classes, state);
    Ok(play_sound(
        code, bodies, classes, base, state, readings, allowance, once, answers,
    ))
}

// The first run, or as many as fit.
pub fn go(
    code: &[u8],
    state: &mut [u8],
    readings: &[u8],
    allowance: u16,
    once: bool,
    answers: &mut [u8],
) -> Result<Gone, Refusal>
    ensures { GoesOn once code.now readings.now allowance state.old answers.old state.new answers.new result }
{
    let mut bodies = [0u32; MAX_BODIES];
    let mut classes = [0u32; MAX_CLASSES];
    let found = state_check::inspect(code, state, &mut bodies, &mut classes)?;
    play_passed(
        code, &bodies, &classes, found, state, readings, allowance, once, answers,
    )
}

pub fn play(
    code: &[u8],
    state: &mut [u8],
    readings: &[u8],
    allowance: u16,
    answers: &mut [u8],
) -> PlayedWith
    ensures { play_on code.now state.old readings.now allowance answers.old
        ≡ record { answer = play_numbers result.answer; state = state.new; answers = answers.new; readings = result.readings } }
{
    match go(code, state, readings, allowance, false, answers) {
        Err(refusal) => PlayedWith {
            answer: Err(refusal),
            readings: 0,
        },
        Ok(g) => {
            let outcome = g.outcome;
            let answer = match outcome {
                Outcome::Plays(p) => p,
                Outcome::Happens(e, n) => Played::Fills(n, 0), // no play hands an event back
            };
            PlayedWith {
                answer: Ok(answer),
                readings: g.readings,
            }
        }
    }
}
