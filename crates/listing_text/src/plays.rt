// The lines of a play, read from the bytes that it wrote, and the totals before its end.
ghost use Rattle.std.specs.Prelude.{[], ◌∷◌, ◌++◌, ◌+◌, ◌*◌, ◌≤◌, length};
ghost use Rattle.run.specs.Answers.{play_numbers};
ghost use Rattle.listing_text.specs.Text.{line, sheet_text};
ghost use Rattle.listing_text.specs.Told.{line_at, event_lines, events_of, last_text, play_text};
ghost use Rattle.listing_text.specs.Counting.{totals_of};
ghost use Rattle.listing_text.specs.Writing.{Puts};

use crate::lines::{put_line, put_refused};
use crate::totals::{Totals, events_of};
use packing::ANSWER_BYTES;
use run::Played;
use values::Refusal;

// Where the fields of a packed answer stand in its bytes: after the tag and the steps a channel or a group, then a level.
const FIRST_AT: usize = 3;

const SECOND_AT: usize = 5;

// The line of the event whose packed answer begins at `from`. Its tag says which it is: 4 a set, 5 a hold, 6 a release.
fn put_event(text: &mut [u8], at: usize, answers: &[u8], from: usize) -> usize
    requires { (from + 8 ≤ length answers.now) × (at + length (line_at answers.now from) ≤ length text.old) }
    ensures { Puts text.old at (line_at answers.now from) text.new result }
{
    let first = words::half_at(answers, from + FIRST_AT) as u32;
    match answers[from] {
        4 => put_line(text, at, b"set", &[first, answers[from + SECOND_AT] as u32]),
        5 => put_line(text, at, b"hold", &[first]),
        _ => put_line(text, at, b"release", &[first]),
    }
}

fn put_events(text: &mut [u8], at: usize, answers: &[u8], events: usize) -> usize
    requires { (8 * events ≤ length answers.now) × (at + length (event_lines answers.now 0 events) ≤ length text.old) }
    ensures { Puts text.old at (event_lines answers.now 0 events) text.new result }
{
    let mut next = at;
    for i in 0..events {
        next = put_event(text, next, answers, ANSWER_BYTES * i);
    }
    next
}

// The four totals, a line each.
fn put_sheet(text: &mut [u8], at: usize, t: Totals) -> usize
    requires { at + length (sheet_text (totals_of t)) ≤ length text.old }
    ensures { Puts text.old at (sheet_text (totals_of t)) text.new result }
{
    let a = put_line(text, at, b"sets", &[t.sets]);
    let b = put_line(text, a, b"holds", &[t.holds]);
    let c = put_line(text, b, b"releases", &[t.releases]);
    put_line(text, c, b"readings", &[t.readings])
}

// The totals, and the line of an end.
fn put_end(text: &mut [u8], at: usize, t: Totals, word: &[u8], n: u32) -> usize
    requires { at + length (sheet_text (totals_of t) ++ line word.now (n ∷ [])) ≤ length text.old }
    ensures { Puts text.old at (sheet_text (totals_of t) ++ line word.now (n ∷ [])) text.new result }
{
    let next = put_sheet(text, at, t);
    put_line(text, next, word, &[n])
}

// What follows a play's events, with the totals after it; nothing where it stopped for want of room.
fn put_last(text: &mut [u8], at: usize, p: &Result<Played, Refusal>, t: Totals) -> usize
    requires { at + length (last_text (play_numbers p.now) (totals_of t)) ≤ length text.old }
    ensures { Puts text.old at (last_text (play_numbers p.now) (totals_of t)) text.new result }
{
    match p {
        Ok(Played::Spends(_, _)) => put_end(text, at, t, b"open", 0),
        Ok(Played::Finishes(c, _, _)) => put_end(text, at, t, b"end", *c as u32),
        Ok(Played::Fills(_, _)) => at,
        Err(refusal) => put_refused(text, at, *refusal),
    }
}

pub fn put_played(
    text: &mut [u8],
    at: usize,
    answers: &[u8],
    p: &Result<Played, Refusal>,
    t: Totals,
) -> usize
    requires { (8 * events_of (play_numbers p.now) ≤ length answers.now) × (at + length (play_text answers.now (play_numbers p.now) (totals_of t)) ≤ length text.old) }
    ensures { Puts text.old at (play_text answers.now (play_numbers p.now) (totals_of t)) text.new result }
{
    let next = put_events(text, at, answers, events_of(p));
    put_last(text, next, p, t)
}
