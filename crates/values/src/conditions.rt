// The conditions, and their numbers as in specs/Ends.antt.
ghost use Rattle.std.specs.Prelude.{◌≡◌};
ghost use Rattle.values.specs.Answers.{number_of};
ghost use Rattle.values.specs.Ends.{is_condition};

pub const OVERFLOW: u8 = 20;

pub const ZERO_DIVISOR: u8 = 21;

pub const FIELD_OF_NULL: u8 = 22;

pub const ASSERT_FALSE: u8 = 23;

pub const CASE_INDEX: u8 = 24;

pub const OUT_OF_RANGE: u8 = 25;

pub const TOO_MANY_ACTIVATIONS: u8 = 26;

pub const TOO_MANY_RECORDS: u8 = 27;

pub const STEP_ZERO: u8 = 28;

// What ends execution before its last step.
#[derive(Clone, Copy, PartialEq, Eq)]
pub enum Condition {
    Overflow,
    ZeroDivisor,
    FieldOfNull,
    AssertFalse,
    CaseIndex,
    OutOfRange,
    TooManyActivations,
    TooManyRecords,
    StepZero,
}

impl Condition {
    pub fn number(self) -> u8
        ensures { result ≡ number_of self }
    {
        match self {
            Condition::Overflow => OVERFLOW,
            Condition::ZeroDivisor => ZERO_DIVISOR,
            Condition::FieldOfNull => FIELD_OF_NULL,
            Condition::AssertFalse => ASSERT_FALSE,
            Condition::CaseIndex => CASE_INDEX,
            Condition::OutOfRange => OUT_OF_RANGE,
            Condition::TooManyActivations => TOO_MANY_ACTIVATIONS,
            Condition::TooManyRecords => TOO_MANY_RECORDS,
            Condition::StepZero => STEP_ZERO,
        }
    }
}

#[tactic(auto, unfolding(logic::specs::Lists::among))]
pub fn is_condition(c: u8) -> bool
    ensures { result ≡ is_condition c }
{
    matches!(
        c,
        OVERFLOW
            | ZERO_DIVISOR
            | FIELD_OF_NULL
            | ASSERT_FALSE
            | CASE_INDEX
            | OUT_OF_RANGE
            | TOO_MANY_ACTIVATIONS
            | TOO_MANY_RECORDS
            | STEP_ZERO
    )
}
