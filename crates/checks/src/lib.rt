// Why a job is refused, and the answer of a function that makes some of the numbered checks.
#![tactic(auto)]

ghost use Rattle.std.specs.Prelude.{◌≡◌};
ghost use Rattle.checks.specs.Reasons.{number};

// Why a job is refused, in the order of the numbers, which callers in other languages are given; in which order the checks are met says each call's
// list of them. 23 is the Rust's, and is never met (demand_3/proofs/Never23).
#[derive(Clone, Copy, Debug, PartialEq, Eq)]
pub enum Reason {
    RowStartsLength = 1,
    EntryCount = 2,
    MatrixTooLarge = 3,
    RowStartsFall = 4,
    ColumnRange = 5,
    EntryNotFinite = 6,
    MassLength = 7,
    MassRange = 8,
    FirstRowStart = 9,
    RowSumNotFinite = 10,
    NormNotFinite = 11,
    VectorCount = 12,
    IndexRange = 13,
    TauRange = 14,
    OutputLength = 15,
    VectorLength = 16,
    VectorNotFinite = 17,
    TolRange = 18,
    NoSubsteps = 19,
    OptionTooLarge = 20,
    MagnitudeNotFinite = 21,
    GainNotFinite = 22,
    NormRange = 23,
    ArgumentNotFinite = 24,
    NoAdmissibleRow = 25,
    WorkLength = 26,
    SubstepLimit = 27,
    LengthsRejected = 28,
    NoInnerPlan = 29,
    TransposedLength = 30,
    RunEnded = 31,
    UnitFull = 32,
    DegreeRange = 33,
    JoinRows = 34,
    JoinColumnOrder = 35,
    JoinLength = 36,
    StageCount = 37,
    WindowOrNode = 38,
    RecordCount = 39,
    ResultsLength = 40,
}

impl Reason {
    pub fn number(self) -> u32
        ensures { result ≡ number self }
    {
        self as u32
    }
}

// Why, and the double that is reported with it.
#[derive(Clone, Copy)]
pub struct Refusal {
    pub reason: Reason,
    pub value: f64,
}

// No check holds, or the first that does.
pub type Checked = Result<(), Refusal>;
