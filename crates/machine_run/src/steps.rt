// A run: steps until an event, an end or the allowance.
ghost use Rattle.std.specs.Prelude.{◌≡◌, ◌+◌, ◌*◌, ◌-◌, ◌≤◌, length};
ghost use Rattle.words.specs.Numbers.{byte_at, half_at};
ghost use Rattle.machine_run.specs.Held.{Found, Held, Runs, RunsFrom};
ghost use Rattle.bytecode.specs.State.{activation_length, state_length};

use crate::aside::{begin, run_aside};
use crate::dispatch::dispatch;
use crate::{Answer, Run};
use formats::compiled::*;
use formats::state::*;
use machine_ops::{Event, Out};

// The place of the top activation, and its address.
#[derive(Drop)]
struct Top {
    place: usize,
    address: u16,
}

fn top_of(state: &[u8]) -> Top
    requires { (length state.now ≡ state_length) × (1 ≤ byte_at state.now 2) × (byte_at state.now 2 ≤ 32) }
    ensures { (result.place ≡ 32 + activation_length * (byte_at state.now 2 - 1)) × (result.address ≡ half_at state.now (result.place + 4)) }
{
    let place = ACTIVATIONS_AT
        + ACTIVATION_BYTES * (machine_frames::wide(state[ACTIVATION_COUNT_AT]) - 1);
    let address = words::half_at(state, place + ADDRESS_AT);
    Top { place, address }
}

// The step after those taken, of a state that is releasing: the last taken hold is released; once none is open the state has ended.
fn release(code: &[u8], state: &mut [u8], readings: &[u8], taken: u16, allowance: u16) -> Answer
    requires { (Held code.now state.old) × (byte_at state.old 0 ≡ 1) × (length readings.now ≡ 64) × (taken ≤ allowance) }
    ensures { RunsFrom code.now readings.now allowance taken state.old state.new result }
{
    if allowance <= taken {
        return Answer::Spends(taken);
    }
    let h = words::half_at(state, HOLD_COUNT_AT);
    if h == 0 {
        let c = state[CONDITION_AT];
        machine_frames::put_byte(state, PHASE_AT, ENDED);
        return Answer::Finishes(c, taken + 1);
    }
    let g = state[HOLDS_AT + ((h as usize) - 1)];
    machine_frames::release(state, h - 1);
    Answer::Happens(Event::Release(g), taken + 1)
}

// From a running state. The place of the top activation and its address are kept in locals beside the bytes: only ops 8 to 11 do otherwise than go
// on to the next address, and only 10 and 11 leave the activation. Each kept local changes in an arm of its own, so that a branch decides on
// it, which is foreseen, and no conditional move, which waits for the op. The steps that are left are counted down, here and with an operand aside: the
// loops test against 0 and ask for the allowance only where they end. After a return the place is reckoned: read by way of the count, calls took a sixth longer.
fn run_running(
    code: &[u8],
    bodies: &[u32],
    classes: &[u32],
    base: usize,
    state: &mut [u8],
    readings: &[u8],
    allowance: u16,
) -> Run
    requires { (Found code.now bodies.now classes.now base) × (Held code.now state.old) × (length readings.now ≡ 64) × (byte_at state.old 0 ≡ 0) }
    ensures { Runs code.now readings.now allowance state.old state.new result }
{
    let t = top_of(state);
    let mut frame = t.place;
    let mut address = t.address;
    let mut left = allowance;
    let mut read: u16 = 0;
    // Kept (point 3): a turn may take many steps (with an operand aside), so that no `for` counts them.
    while 0 < left {
        let depth = machine_frames::wide(state[frame + OPERAND_COUNT_AT]);
        let p = base + CODE_BYTES * (address as usize);
        let op = code[p + CODE_OP_AT];
        let a = code[p + CODE_A_AT];
        let b = words::word_at(code, p + CODE_B_AT);
        match begin(state, frame, depth, op, a, b) {
            Some(begun) => {
                match run_aside(
                    code,
                    base,
                    state,
                    readings,
                    frame,
                    begun.depth,
                    address + begun.steps,
                    allowance - left + begun.steps,
                    allowance,
                    begun.word,
                    begun.ty,
                ) {
                    Ok(landing) => {
                        address = landing.address;
                        left = allowance - landing.taken;
                    }
                    Err(n) => {
                        let answer = release(code, state, readings, n, allowance);
                        return Run {
                            answer,
                            readings: read,
                        };
                    }
                }
            }
            None => {
                match dispatch(
                    code, bodies, classes, state, readings, frame, depth, address, op, a, b,
                ) {
                    Out::Goes => {
                        left -= 1;
                        match op {
                            OP_GO => {
                                address = words::half_at(state, frame + ADDRESS_AT);
                            }
                            OP_UNLESS => {
                                address = words::half_at(state, frame + ADDRESS_AT);
                            }
                            OP_CALL => {
                                if state[PHASE_AT] != RUNNING {
                                    let answer = release(
                                        code,
                                        state,
                                        readings,
                                        allowance - left,
                                        allowance,
                                    );
                                    return Run {
                                        answer,
                                        readings: read,
                                    };
                                }
                                let t = top_of(state);
                                frame = t.place;
                                address = t.address;
                            }
                            OP_RETURN => {
                                frame -= ACTIVATION_BYTES;
                                address = words::half_at(state, frame + ADDRESS_AT);
                            }
                            _ => {
                                if state[PHASE_AT] != RUNNING {
                                    let answer = release(
                                        code,
                                        state,
                                        readings,
                                        allowance - left,
                                        allowance,
                                    );
                                    return Run {
                                        answer,
                                        readings: read,
                                    };
                                }
                                address += 1;
                            }
                        }
                    }
                    // A reading goes on running; place and address are read anew, so that no more need be known of the op.
                    Out::Reads => {
                        left -= 1;
                        read += 1;
                        let t = top_of(state);
                        frame = t.place;
                        address = t.address;
                    }
                    Out::Gives(e) => {
                        return Run {
                            answer: Answer::Happens(e, allowance - left + 1),
                            readings: read,
                        };
                    }
                    Out::Ends(c) => {
                        return Run {
                            answer: Answer::Finishes(c, allowance - left + 1),
                            readings: read,
                        };
                    }
                }
            }
        }
    }
    Run {
        answer: Answer::Spends(allowance),
        readings: read,
    }
}

pub fn run_sound(
    code: &[u8],
    bodies: &[u32],
    classes: &[u32],
    base: usize,
    state: &mut [u8],
    readings: &[u8],
    allowance: u16,
) -> Run
    requires { (Found code.now bodies.now classes.now base) × (Held code.now state.old) × (length readings.now ≡ 64) }
    ensures { Runs code.now readings.now allowance state.old state.new result }
{
    let phase = state[PHASE_AT];
    if phase == RUNNING {
        return run_running(code, bodies, classes, base, state, readings, allowance);
    }
    if phase == RELEASING {
        let answer = release(code, state, readings, 0, allowance);
        return Run {
            answer,
            readings: 0,
        };
    }
    Run {
        answer: Answer::Finishes(state[CONDITION_AT], 0),
        readings: 0,
    }
}
