// Which kinds are statements and which are expressions, and the operands of each.
ghost use Rattle.std.specs.Prelude.{◌≡◌, ◌||◌, ◌<◌, eqb, ltb, length, get_or};
ghost use Rattle.logic.specs.Choice.{If◌then◌else◌};
ghost use Rattle.table_read.specs.Operands.{is_s, is_e, is_leaf, sorts};
ghost use Rattle.table_read.specs.Walk.{admits as admitted_by};

use formats::entries::*;

// What an operand is read as.
#[derive(Drop)]
pub enum Sort {
    Typed, // a kind 10
    Decl, // what may stand in every head
    Part, // a label or a statement
    Stmt,
    Target, // what is assigned to
    Expr,
}

#[tactic(auto, unfolding(crate::specs::Operands::is_s))]
pub fn is_statement(kind: u16) -> bool
    ensures { result ≡ is_s kind }
{
    matches!(
        kind,
        KIND_BLOCK
            | KIND_ASSIGN
            | KIND_IF
            | KIND_IF_ELSE
            | KIND_WHILE
            | KIND_GOTO
            | KIND_ASSERT
            | KIND_CALL
            | KIND_SET
            | KIND_CASE
            | KIND_FOR
    )
}

#[tactic(auto, unfolding(crate::specs::Operands::is_e))]
pub fn is_expression(kind: u16) -> bool
    ensures { result ≡ is_e kind }
{
    matches!(
        kind,
        KIND_INTEGER
            | KIND_LOGICAL
            | KIND_BITS
            | KIND_NULL
            | KIND_VARIABLE
            | KIND_FUNCTION
            | KIND_FIELD
            | KIND_RECORD
            | KIND_UNARY
            | KIND_BINARY
            | KIND_IF_EXPRESSION
            | KIND_FADER
            | KIND_BLOCK_EXPRESSION
    )
}

// Which kinds can stand as an operand.
#[tactic(auto, unfolding(crate::specs::Walk::admits))]
pub fn admits(sort: Sort, kind: u16) -> bool
    ensures { result ≡ admitted_by sort kind }
{
    match sort {
        Sort::Typed => kind == KIND_DECLARE,
        Sort::Decl => matches!(kind, KIND_DECLARE | KIND_HOLD),
        Sort::Part => kind == KIND_LABEL || is_statement(kind),
        Sort::Stmt => is_statement(kind),
        Sort::Target => matches!(kind, KIND_VARIABLE | KIND_FIELD),
        Sort::Expr => is_expression(kind),
    }
}

// The kinds that have no operands.
#[tactic(auto, unfolding(crate::specs::Operands::is_leaf))]
pub fn is_leaf(kind: u16) -> bool
    ensures { result ≡ is_leaf kind }
{
    matches!(
        kind,
        KIND_DECLARE
            | KIND_HOLD
            | KIND_LABEL
            | KIND_GOTO
            | KIND_INTEGER
            | KIND_LOGICAL
            | KIND_BITS
            | KIND_NULL
            | KIND_VARIABLE
    )
}

// How many operands an entry has; n is how far its b is from 0.
#[tactic(auto, unfolding(crate::specs::Operands::sorts))]
pub fn count(kind: u16, a: u16, n: u32) -> usize
    ensures { result ≡ length (sorts kind a n) }
{
    match kind {
        KIND_BLOCK => a as usize + n as usize,
        KIND_CLASS | KIND_CALL | KIND_FUNCTION | KIND_RECORD => n as usize,
        KIND_PROCEDURE => n as usize / 256 + 1,
        KIND_ASSIGN | KIND_IF | KIND_WHILE | KIND_SET | KIND_BINARY => 2,
        KIND_IF_ELSE | KIND_IF_EXPRESSION => 3,
        KIND_ASSERT | KIND_FIELD | KIND_UNARY | KIND_FADER => 1,
        KIND_CASE => a as usize + 1,
        KIND_FOR => 4,
        KIND_BLOCK_EXPRESSION => a as usize + n as usize + 1,
        _ => 0,
    }
}

// An expression, and then statements.
fn guarded(i: usize) -> Sort
    ensures { result ≡ (If eqb i 0 then Sort.Expr else Sort.Stmt) }
{
    if i == 0 { Sort::Expr } else { Sort::Stmt }
}

// Three expressions, and then a statement.
fn counted(i: usize) -> Sort
    ensures { result ≡ (If ltb i 3 then Sort.Expr else Sort.Stmt) }
{
    if i < 3 { Sort::Expr } else { Sort::Stmt }
}

pub fn sort_of(kind: u16, a: u16, n: u32, i: usize) -> Sort
    requires { i < length (sorts kind a n) }
    ensures { result ≡ get_or (sorts kind a n) i Sort.Expr }
{
    let head = a as usize;
    match kind {
        KIND_BLOCK => if i < head { Sort::Decl } else { Sort::Part },
        KIND_CLASS => Sort::Typed,
        KIND_PROCEDURE => {
            if i < (n / 256) as usize {
                Sort::Typed
            } else if n % 256 == 0 {
                Sort::Stmt
            } else {
                Sort::Expr
            }
        }
        KIND_ASSIGN => if i == 0 { Sort::Target } else { Sort::Expr },
        KIND_IF => guarded(i),
        KIND_IF_ELSE => guarded(i),
        KIND_WHILE => guarded(i),
        KIND_CASE => guarded(i),
        KIND_FOR => counted(i),
        KIND_BLOCK_EXPRESSION => {
            if i < head {
                Sort::Decl
            } else if i < head + n as usize {
                Sort::Part
            } else {
                Sort::Expr
            }
        }
        _ => Sort::Expr,
    }
}
