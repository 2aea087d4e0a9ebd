// Compiles a table: the check, what its definitions stand for, a dry walk that finds the places of its code and the length of its macro
// (refusal 7), and the walk that writes it.
#![tactic(auto)]

ghost use Rattle.std.specs.Prelude.{◌≡◌, ◌≤◌, length, replicate};
ghost use Rattle.language.specs.Judge.{compile_on};
ghost use Rattle.table_check.specs.Checked.{Lends};
ghost use Rattle.compile_code.specs.Encode.{macro_of};
ghost use Rattle.compile_whole.specs.Compiling.{AsksCompile, AsksWrite, cursor_at};
ghost use Rattle.compile.specs.Verdict.{verdict_of, Room};

use compile_output::Cursor;
use compile_walk::Source;
use formats::compiled::*;
use formats::entries::*;
use formats::limits::*;
use values::Refusal;

fn cursor(at: usize, sh: usize, dry: bool) -> Cursor
    ensures { result ≡ cursor_at at sh dry }
{
    Cursor {
        at,
        address: 0,
        sh,
        shapes: 0,
        waits: false,
        dry,
        inside: false,
    }
}

// A table whose entries are numbered, and the root's names in sight. The dry walk finds the ends that the other one aims at.
fn write(
    table: &[u8],
    count: usize,
    after: usize,
    classes: usize,
    bodies: usize,
    sizes: &[u16],
    env: &mut [u32],
    top: usize,
    known: &[u32],
    aims: &mut [u16],
    ends: &mut [u16],
    stack: &mut [u8],
    out: &mut [u8],
) -> Result<usize, Refusal>
    requires { AsksWrite table.now count after classes bodies sizes.now env.old top known.now aims.old ends.old × (32 ≤ length stack.old) }
    ensures { compile_on macro_of table.now out.old ≡ record { verdict = verdict_of result; bytes = out.new } }
{
    // a dry walk aims at nothing
    let blind = Source {
        table,
        sizes,
        known,
        aims: ends,
    };
    let dry = compile_bodies::walk(
        &blind,
        env,
        aims,
        stack,
        out,
        count,
        after,
        top,
        cursor(0, 0, true),
    );
    let front = compile_front::length(table, classes, bodies);
    let shapes = front + CODE_BYTES * dry.address;
    let length = shapes + dry.sh + END_BYTES;
    if out.len() < length {
        return Err(Refusal {
            number: 7,
            place: 0,
        });
    }
    compile_front::put(
        table,
        count,
        after,
        sizes,
        known,
        aims,
        classes,
        bodies,
        dry.address,
        dry.shapes,
        out,
    );
    let source = Source {
        table,
        sizes,
        known,
        aims,
    };
    compile_bodies::walk(
        &source,
        env,
        ends,
        stack,
        out,
        count,
        after,
        top,
        cursor(front, shapes, false),
    );
    out[length - END_BYTES] = b'Z';
    out[length - 1] = b'Z';
    Ok(length)
}

// A table that is accepted, with the sizes that the check left; the lent arrays have room for its entries.
fn compile_accepted(
    table: &[u8],
    sizes: &[u16],
    env: &mut [u32],
    known: &mut [u32],
    aims: &mut [u16],
    ends: &mut [u16],
    out: &mut [u8],
) -> Result<usize, Refusal>
    requires { AsksCompile table.now sizes.now env.old known.old aims.old ends.old }
    ensures { compile_on macro_of table.now out.old ≡ record { verdict = verdict_of result; bytes = out.new } }
{
    let count = table_entries::a_at(table, 0) as usize;
    let items = table_entries::b_at(table, 0) as usize;
    let after = 1 + table_scopes::spanned(table, sizes, 1, count);
    let top = table_scopes::enter_root(table, count, after, items, sizes, env);
    let n = compile_symbols::number_all(table, count, sizes, known);
    let mut stack = [0u8; MAX_OPERANDS];
    write(
        table, count, after, n.classes, n.bodies, sizes, env, top, known, aims, ends, &mut stack,
        out,
    )
}

fn compile_in(
    table: &[u8],
    sizes: &mut [u16],
    env: &mut [u32],
    known: &mut [u32],
    aims: &mut [u16],
    ends: &mut [u16],
    out: &mut [u8],
) -> Result<usize, Refusal>
    requires { Lends table.now sizes.old env.old × Room table.now known.old × Room table.now aims.old × Room table.now ends.old }
    ensures { compile_on macro_of table.now out.old ≡ record { verdict = verdict_of result; bytes = out.new } }
{
    table_check::check_in(table, sizes, env)?;
    compile_accepted(table, sizes, env, known, aims, ends, out)
}

// With arrays of these sizes: a number for each of N entries, and M for the names in sight.
fn within<const N: usize, const M: usize>(table: &[u8], out: &mut [u8]) -> Result<usize, Refusal>
    requires { Lends table.now (replicate N 0) (replicate M 0) × Room table.now (replicate N 0) × (M ≤ 16384) }
    ensures { compile_on macro_of table.now out.old ≡ record { verdict = verdict_of result; bytes = out.new } }
{
    let mut sizes = [0u16; N];
    let mut env = [0u32; M];
    let mut known = [0u32; N];
    let mut aims = [0u16; N];
    let mut ends = [0u16; N];
    compile_in(
        table, &mut sizes, &mut env, &mut known, &mut aims, &mut ends, out,
    )
}

// For all bytes: the verdict, which is the macro's length or a refusal, and what the output then holds. The arrays are cleared at each call, so that
// their size goes by the number of entries.
pub fn compile(table: &[u8], out: &mut [u8]) -> Result<usize, Refusal>
    ensures { compile_on macro_of table.now out.old ≡ record { verdict = verdict_of result; bytes = out.new } }
{
    match table.len() {
        0..=512 => within::<64, 512>(table, out),
        513..=4096 => within::<512, 4096>(table, out),
        _ => within::<2048, 16384>(table, out),
    }
}
