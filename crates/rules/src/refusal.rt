// Why a call is refused (rules R1 to R33, R40, A1): each refusal has one number, and a place, which is 0 but for a bad page.
ghost use Rattle.std.specs.Prelude.{◌≡◌};
ghost use Rattle.rules.specs.Refusals.{refusal_number, refusal_place};
ghost use Rattle.rules.specs.Told.{told, told_of};

#[derive(Clone, Copy, Debug, PartialEq, Eq)]
pub enum Refusal {
    // K is not 1 to 64.
    BadLimit,
    // More than 4,096 references.
    TooManyReferences,
    // A page above 1,023, with its index from 0.
    BadPage(usize),
    // A hit table shorter than K.
    ShortTable,
    // A policy above 2, or OPT for a session.
    BadPolicy,
    // The session has accepted 4,096 references.
    SessionFull,
    // The capacity asked of a session is not 1 to K.
    BadCapacity,
    // The file ends inside a count or a section.
    CutFile,
    // Over 64 capacities, one that is not 1 to 64, or not rising strictly.
    BadCapacities,
    // Bytes remain after the last section.
    BytesLeft,
    // A list after more references than the trace has.
    PastTheTrace,
    // A frame above 63.
    BadFrame,
    // A put of a held frame.
    HeldAlready,
    // A touch, start, end or drop of a frame that is not held.
    NotHeld,
    // A start or a drop of a busy frame.
    BusyFrame,
    // An end of an idle frame.
    IdleFrame,
    // A put of an absent frame while 32 are held.
    RowFull,
    // No victim: nothing is held.
    NothingHeld,
    // No victim: no held frame may be given up.
    AllBusy,
    // A close of a bank not open, a cut of one not closing, an open of an open one.
    WrongBankState,
    // A cut of a bank while a frame of it is busy.
    BankBusy,
    // A bank above 3.
    BadBank,
    // A put or a start of a frame in a bank that is not open.
    BankNotOpen,
    // At the C boundary alone: the lent session, row or banks fail the call's test.
    Unsound,
}

impl Refusal {
    // The refusal's number.
    pub fn number(self) -> u8
        ensures { result ≡ refusal_number self }
    {
        match self {
            Refusal::BadLimit => 1,
            Refusal::TooManyReferences => 2,
            Refusal::BadPage(_) => 3,
            Refusal::ShortTable => 4,
            Refusal::BadPolicy => 5,
            Refusal::SessionFull => 6,
            Refusal::BadCapacity => 7,
            Refusal::CutFile => 8,
            Refusal::BadCapacities => 9,
            Refusal::BytesLeft => 10,
            Refusal::PastTheTrace => 14,
            Refusal::BadFrame => 20,
            Refusal::HeldAlready => 21,
            Refusal::NotHeld => 22,
            Refusal::BusyFrame => 23,
            Refusal::IdleFrame => 24,
            Refusal::RowFull => 25,
            Refusal::NothingHeld => 26,
            Refusal::AllBusy => 27,
            Refusal::WrongBankState => 30,
            Refusal::BankBusy => 31,
            Refusal::BadBank => 32,
            Refusal::BankNotOpen => 33,
            Refusal::Unsound => 40,
        }
    }

    // The index of a bad page, and 0 for all else.
    pub fn place(self) -> usize
        ensures { result ≡ refusal_place self }
    {
        match self {
            Refusal::BadPage(i) => i,
            _ => 0,
        }
    }
}

// An answer as C is told it: 0, with what was answered in the lent value; or the refusal's number, with its place there.
pub fn tell(answer: Result<usize, Refusal>, value: &mut usize) -> u32
    ensures { told result value.new ≡ told_of answer }
{
    match answer {
        Ok(n) => {
            *value = n;
            0
        }
        Err(refusal) => {
            *value = refusal.place();
            u32::from(refusal.number())
        }
    }
}
