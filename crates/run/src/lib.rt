// Start, run and play on lent bytes: any macro, any bytes of a state, any readings. A refusal writes nothing.
#![tactic(auto)]

mod plays;
mod runs;
mod starts;

use machine_run::Answer;
pub use plays::play;
pub use runs::run;
pub use starts::start;
use values::Refusal;

// A run: its answer, or why it is refused; and how many readings it took.
#[derive(Drop)]
pub struct RanWith {
    pub answer: Result<Answer, Refusal>,
    pub readings: u16,
}

// With all steps taken and the events written: the allowance used, an end by 0 or a condition, no room for another event.
#[derive(Drop)]
pub enum Played {
    Spends(u16, u16),
    Finishes(u8, u16, u16),
    Fills(u16, u16),
}

// A play: its answer, or why it is refused; and how many readings its runs took.
#[derive(Drop)]
pub struct PlayedWith {
    pub answer: Result<Played, Refusal>,
    pub readings: u16,
}
