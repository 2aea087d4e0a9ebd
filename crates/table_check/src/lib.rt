// The table check: refusals 1 to 6, from a table's bytes alone.
#![tactic(auto)]

ghost use Rattle.std.specs.Prelude.{◌≡◌, ◌≤◌, replicate};
ghost use Rattle.language.specs.Judge.{judge_table};
ghost use Rattle.table_entries.specs.Faults.{told};
ghost use Rattle.table_read.specs.Walk.{reading_of};
ghost use Rattle.table_read.specs.Filling.{Hands};
ghost use Rattle.table_check.specs.Checked.{checked_of, Lends, Leaves};

use table_entries::Fault;
use values::Refusal;

// The first fault of a table: where it does not read, its first fault of another kind, and then the first body over its limits.
fn judged(table: &[u8], sizes: &mut [u16], env: &mut [u32]) -> Result<(), Fault>
    requires { Lends table.now sizes.old env.old }
    ensures { (told result ≡ reading_of (judge_table table.now)) × Hands table.now sizes.new result }
{
    table_read::read_table(table, sizes)?;
    table_names::first_fault(table, sizes, env)?;
    table_limits::over_limits(table).map_err(Fault::OverLimits)
}

// With arrays that have room for the sizes of the entries and for the names in sight; the sizes of an accepted table are left to the caller. The
// place of a refusal is an entry, or the entry count where the table ends early.
pub fn check_in(table: &[u8], sizes: &mut [u16], env: &mut [u32]) -> Result<(), Refusal>
    requires { Lends table.now sizes.old env.old }
    ensures { (result ≡ checked_of (judge_table table.now)) × Leaves table.now sizes.new result }
{
    match judged(table, sizes, env) {
        Ok(()) => Ok(()),
        Err(fault) => Err(Refusal {
            number: fault.number(),
            place: fault.place() as u32,
        }),
    }
}

// With arrays of these sizes.
fn within<const N: usize, const M: usize>(table: &[u8]) -> Result<(), Refusal>
    requires { Lends table.now (replicate N 0) (replicate M 0) × (M ≤ 16384) }
    ensures { result ≡ checked_of (judge_table table.now) }
{
    let mut sizes = [0u16; N];
    let mut env = [0u32; M];
    check_in(table, &mut sizes, &mut env)
}

// The arrays are cleared at each call, so that their size goes by the number of entries.
pub fn check(table: &[u8]) -> Result<(), Refusal>
    ensures { result ≡ checked_of (judge_table table.now) }
{
    match table.len() {
        0..=128 => within::<16, 128>(table),
        129..=512 => within::<64, 512>(table),
        513..=2048 => within::<256, 2048>(table),
        2049..=4096 => within::<512, 4096>(table),
        _ => within::<2048, 16384>(table),
    }
}
