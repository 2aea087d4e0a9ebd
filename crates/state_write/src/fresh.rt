// A fresh state written over lent bytes: the root alone, at its first address, its cells as variables start.
ghost use Rattle.std.specs.Prelude.{◌≡◌, [], ◌∷◌, ◌+◌, ◌*◌, ◌≤◌, ◌<◌, length};
ghost use Rattle.std.proofs.lemmas.List.Edits.{sets};
ghost use Rattle.words.specs.Numbers.{word};
ghost use Rattle.bytecode.specs.State.{zeros, encode, activations_at, cell_words_at, cell_types_at, state_length};
ghost use Rattle.load_check.specs.Views.{Typed};
ghost use Rattle.state_write.specs.Fresh.{fresh_with};

use formats::state::*;

// Where the root's cells have their words and their types: it is the first activation.
const ROOT_WORDS_AT: usize = ACTIVATIONS_AT + CELL_WORDS_AT;

const ROOT_TYPES_AT: usize = ACTIVATIONS_AT + CELL_TYPES_AT;

fn clear_all(state: &mut [u8])
    requires { length state.old ≡ state_length }
    ensures { state.new ≡ zeros state_length }
{
    state.fill(0);
}

// The root's cell j, of type t, which starts as 0, false, #0 or null: the word 0.
fn write_cell(state: &mut [u8], j: usize, t: u8)
    requires { (length state.old ≡ state_length) × (j < 32) }
    ensures { state.new ≡ sets (sets state.old (activations_at + cell_words_at + 4 * j) (word 0)) (activations_at + cell_types_at + j) (t ∷ []) }
{
    words::put_word(state, ROOT_WORDS_AT + WORD_BYTES * j, 0);
    state[ROOT_TYPES_AT + j] = t;
}

// The cells whose types stand in the macro at `place`, in a state that has none yet.
fn write_cells(code: &[u8], place: usize, state: &mut [u8], count: usize)
    requires { (place + count ≤ length code.now) × (count ≤ 32) × (Typed code.now place count) × (state.old ≡ encode (fresh_with code.now place 0)) }
    ensures { state.new ≡ encode (fresh_with code.now place count) }
{
    for j in 0..count {
        write_cell(state, j, code[place + j]);
    }
}

// The fresh state of a root whose cells have the types that stand in the macro at `place`.
pub fn write_fresh(code: &[u8], place: usize, state: &mut [u8], count: usize)
    requires { (place + count ≤ length code.now) × (count ≤ 32) × (Typed code.now place count) × (length state.old ≡ state_length) }
    ensures { state.new ≡ encode (fresh_with code.now place count) }
{
    clear_all(state);
    state[ACTIVATION_COUNT_AT] = 1;
    write_cells(code, place, state, count);
}
