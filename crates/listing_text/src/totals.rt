// The totals of a listing so far, counted from the bytes that plays write.
ghost use Rattle.std.specs.Prelude.{◌≡◌, ◌*◌, ◌≤◌, length};
ghost use Rattle.run.specs.Answers.{play_numbers};
ghost use Rattle.listing_text.specs.Told.{events_of, count_tag, count_tags, play_totals};
ghost use Rattle.listing_text.specs.Counting.{totals_of, Roomy};

use packing::ANSWER_BYTES;
use run::Played;
use values::Refusal;

#[derive(Clone, Copy)]
pub struct Totals {
    pub sets: u32,
    pub holds: u32,
    pub releases: u32,
    pub readings: u32,
}

// With one event more, by the tag of its packed answer: 4 a set, 5 a hold, 6 a release.
fn count(t: Totals, tag: u8) -> Totals
    requires { Roomy (totals_of t) 1 }
    ensures { totals_of result ≡ count_tag tag (totals_of t) }
{
    match tag {
        4 => Totals {
            sets: t.sets + 1,
            ..t
        },
        5 => Totals {
            holds: t.holds + 1,
            ..t
        },
        _ => Totals {
            releases: t.releases + 1,
            ..t
        },
    }
}

fn count_events(t: Totals, answers: &[u8], events: usize) -> Totals
    requires { (8 * events ≤ length answers.now) × (Roomy (totals_of t) events) }
    ensures { totals_of result ≡ count_tags answers.now 0 events (totals_of t) }
{
    let mut all = t;
    for i in 0..events {
        all = count(all, answers[ANSWER_BYTES * i]);
    }
    all
}

// How many events a play wrote; none where it is refused.
pub fn events_of(p: &Result<Played, Refusal>) -> usize
    ensures { result ≡ events_of (play_numbers p.now) }
{
    match p {
        Ok(Played::Spends(_, events) | Played::Finishes(_, _, events) | Played::Fills(_, events)) =>
            *events as usize,
        Err(_) => 0,
    }
}

// With a play's events and the readings that its runs took.
pub fn count_play(t: Totals, answers: &[u8], p: &Result<Played, Refusal>, readings: u16) -> Totals
    requires { (8 * events_of (play_numbers p.now) ≤ length answers.now) × (Roomy (totals_of t) 65536) × (length answers.now ≤ 65536) }
    ensures { totals_of result ≡ play_totals answers.now (play_numbers p.now) readings (totals_of t) }
{
    let events = events_of(p);
    let all = count_events(t, answers, events);
    Totals {
        readings: all.readings + (readings as u32),
        ..all
    }
}
