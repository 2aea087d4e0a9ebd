// Start, run and play, on a state's bytes that C lends.
ghost use Rattle.std.specs.Prelude.{◌≡◌};
ghost use Rattle.desk.specs.Calls.{feed, cue_start, cue_run, cue_play};

use machine_run::Answer;
use packing::{pack, pack_event, pack_refusal};
use run::Played;

// The fresh state of a macro.
#[unsafe(no_mangle)]
pub extern "C" fn cue_start(code: &[u8], state: &mut [u8]) -> u64
    ensures { (result ≡ (cue_start code.now state.old).answer) × (state.new ≡ (cue_start code.now state.old).state) }
{
    match run::start(code, state) {
        Ok(()) => pack(1, 0, 0, 0),
        Err(refusal) => pack_refusal(refusal),
    }
}

// A run of a macro from a state, with the readings and the allowance of this run. What a list of calls comes to: specs/Calls.
#[unsafe(no_mangle)]
pub extern "C" fn cue_run(code: &[u8], state: &mut [u8], readings: &[u8], allowance: u16) -> u64
    ensures { (result ≡ (cue_run code.now state.old (feed readings.now allowance)).answer)
        × (state.new ≡ (cue_run code.now state.old (feed readings.now allowance)).state) }
{
    let r = run::run(code, state, readings, allowance);
    let answer = r.answer;
    match answer {
        Ok(Answer::Happens(e, steps)) => pack_event(e, steps),
        Ok(Answer::Spends(steps)) => pack(2, steps as u64, 0, 0),
        Ok(Answer::Finishes(end, steps)) => pack(3, steps as u64, end as u64, 0),
        Err(refusal) => pack_refusal(refusal),
    }
}

// As many runs as fit, tested once: each event's answer, as cue_run gives it, in eight bytes of `answers`.
#[unsafe(no_mangle)]
pub extern "C" fn cue_play(
    code: &[u8],
    state: &mut [u8],
    readings: &[u8],
    allowance: u16,
    answers: &mut [u8],
) -> u64
    ensures { (result ≡ (cue_play code.now state.old (feed readings.now allowance) answers.old).answer)
        × (state.new ≡ (cue_play code.now state.old (feed readings.now allowance) answers.old).state)
        × (answers.new ≡ (cue_play code.now state.old (feed readings.now allowance) answers.old).answers) }
{
    let p = run::play(code, state, readings, allowance, answers);
    let answer = p.answer;
    match answer {
        Ok(Played::Spends(steps, events)) => pack(2, steps as u64, 0, events as u64),
        Ok(Played::Finishes(end, steps, events)) => pack(
            3,
            steps as u64,
            end as u64,
            events as u64,
        ),
        Ok(Played::Fills(steps, events)) => pack(8, steps as u64, 0, events as u64),
        Err(refusal) => pack_refusal(refusal),
    }
}
