// The machine on lent bytes: a run from a sound state of a macro that passes the loading check.
#![tactic(auto)]

mod aside;
mod dispatch;
mod steps;

use machine_ops::Event;
pub use steps::run_sound;

// With the steps taken: an event, the allowance used, an end by 0 or a condition.
#[derive(Drop)]
pub enum Answer {
    Happens(Event, u16),
    Spends(u16),
    Finishes(u8, u16),
}

// A run: its answer, and how many readings it took.
#[derive(Drop)]
pub struct Run {
    pub answer: Answer,
    pub readings: u16,
}
