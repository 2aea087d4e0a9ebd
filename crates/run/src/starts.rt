// The start: 8, 9, the length by 10, then the fresh state.
ghost use Rattle.std.specs.Prelude.{◌≡◌};
ghost use Rattle.bytecode.specs.Lent.{start_on};
ghost use Rattle.run.specs.Answers.{verdict_of};

use formats::compiled::*;
use formats::state::*;
use values::Refusal;

// The fresh state is written, or the start is refused.
pub fn start(code: &[u8], state: &mut [u8]) -> Result<(), Refusal>
    ensures { start_on code.now state.old ≡ record { verdict = verdict_of result; bytes = state.new } }
{
    state_check::load(code)?;
    if state.len() != STATE_BYTES {
        return Err(Refusal {
            number: 10,
            place: 0,
        });
    }
    let p = load_check::root_at(code);
    let n = words::wide::byte_at(code, p + CELL_COUNT_AT);
    state_write::write_fresh(code, p + BODY_BYTES, state, n);
    Ok(())
}
