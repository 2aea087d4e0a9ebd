// The listing of a table, as text in lent bytes: its events, its totals, and its end or `open 0`; or a refusal.
// Kept (points 4 and 6): text goes into lent bytes, and no String or Display makes it: no heap (a rule of the project), and the contract is an equation on the bytes.
#![tactic(auto)]

mod lines;
mod plays;
mod totals;

ghost use Rattle.std.specs.Prelude.{◌≡◌, ◌≤◌, length};
ghost use Rattle.run.specs.Answers.{play_numbers};
ghost use Rattle.listing_text.specs.Text.{lines_of, macro_text, listing_of};
ghost use Rattle.listing_text.specs.Told.{full_steps};
ghost use Rattle.listing_text.specs.Length.{text_room};
ghost use Rattle.listing_text.specs.Writing.{Lists};

use formats::limits::*;
use formats::state::*;
use run::Played;
use totals::Totals;
use values::Refusal;

// The bytes lent to a play for its answers: 512 events.
const ROOM: usize = 4096;

// The steps of a play that stopped for want of room; 0 of any other, after which there is nothing left to play. A play has room for an event, and every
// event takes a step.
fn full_steps(p: &Result<Played, Refusal>) -> u16
    ensures { result ≡ full_steps (play_numbers p.now) }
{
    match p {
        Ok(Played::Fills(n, _)) => *n,
        _ => 0,
    }
}

// A line for each event, all readings 0, until a run gives none; then the totals and the end. The steps are counted over all runs together (S14). The
// runs are played, so that the macro is tested once for each 512 events and not for each.
fn list_runs(code: &[u8], state: &mut [u8], text: &mut [u8]) -> usize
    requires { length (lines_of code.now state.old 65535) ≤ length text.old }
    ensures { Lists (lines_of code.now state.old 65535) text.old text.new result }
{
    let readings = [0u8; FADERS];
    let mut answers = [0u8; ROOM];
    let mut left: u16 = 65535;
    let mut at = 0;
    let mut all = Totals {
        sets: 0,
        holds: 0,
        releases: 0,
        readings: 0,
    };
    let mut goes = true;
    while goes {
        let p = run::play(code, state, &readings, left, &mut answers);
        all = totals::count_play(all, &answers, &p.answer, p.readings);
        at = plays::put_played(text, at, &answers, &p.answer, all);
        let n = full_steps(&p.answer);
        left -= n;
        goes = 0 < n;
    }
    at
}

// A macro's listing: a start's refusal, or its runs.
fn list_macro(code: &[u8], state: &mut [u8], text: &mut [u8]) -> usize
    requires { text_room ≤ length text.old }
    ensures { Lists (macro_text code.now state.old) text.old text.new result }
{
    match run::start(code, state) {
        Ok(()) => list_runs(code, state, text),
        Err(refusal) => lines::put_refused(text, 0, refusal),
    }
}

// The listing of `table`: its text stands at the front of `text`, and its length is answered. The room is the longest listing's: 65,535 lines
// of 12 bytes, 53 bytes of totals, and a last line of 23.
pub fn list(table: &[u8], text: &mut [u8; 786496]) -> usize
    ensures { Lists (listing_of table.now) text.old text.new result }
{
    let mut code = [0u8; 65536];
    let mut state = [0u8; STATE_BYTES];
    match compile::compile(table, &mut code) {
        Err(refusal) => lines::put_refused(text, 0, refusal),
        Ok(n) => list_macro(&code[..n], &mut state, text),
    }
}
