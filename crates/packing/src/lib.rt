// Answers packed into one number, and such a number in eight bytes.
#![tactic(auto)]

ghost use Rattle.std.specs.Prelude.{◌≡◌, ◌+◌, ◌≤◌, ◌<◌, length};
ghost use Rattle.std.proofs.lemmas.List.Edits.{sets};
ghost use Rattle.values.specs.Refusals.{refusal_of};
ghost use Rattle.bytecode.specs.Answers.{numbers, packed, refusal_numbers, event_numbers};
ghost use Rattle.bytecode.specs.Play.{long};
ghost use Rattle.packing.specs.Events.{event_back};

use machine_ops::Event;
use values::Refusal;

pub const ANSWER_BYTES: usize = 8;

// tag + 2^8 × steps + 2^24 × first + 2^40 × second
pub fn pack(tag: u64, steps: u64, first: u64, second: u64) -> u64
    requires { (tag < 256) × (steps < 65536) × (first < 65536) × (second < 16777216) }
    ensures { result ≡ packed (numbers tag steps first second) }
{
    tag + steps * 256 + first * 16777216 + second * 1099511627776
}

pub fn pack_refusal(refusal: Refusal) -> u64
    requires { refusal.place < 16777216 }
    ensures { result ≡ packed (refusal_numbers (refusal_of refusal)) }
{
    pack(0, 0, refusal.number as u64, refusal.place as u64)
}

pub fn pack_event(e: Event, steps: u16) -> u64
    ensures { result ≡ packed (event_numbers (event_back e) steps) }
{
    match e {
        Event::Set(channel, level) => pack(4, steps as u64, channel as u64, level as u64),
        Event::Hold(group) => pack(5, steps as u64, group as u64, 0),
        Event::Release(group) => pack(6, steps as u64, group as u64, 0),
    }
}

pub fn put_answer(out: &mut [u8], at: usize, answer: u64)
    requires { at + 8 ≤ length out.old }
    ensures { out.new ≡ sets out.old at (long answer) }
{
    out[at..at + ANSWER_BYTES].copy_from_slice(&answer.to_le_bytes());
}
