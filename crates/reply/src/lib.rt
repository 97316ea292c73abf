// What is answered: the reply of a hypercall or a census, and where tables are damaged.
#![tactic(auto)]

ghost use Rattle.std.specs.Prelude.{◌≡◌};
ghost use Rattle.reply.specs.Replies.{refusal_status, status_of, answer_of};

// Why a hypercall or a census is refused, in the order of the statuses' numbers. A list that is too short is told how many words it should have.
#[derive(Clone, Copy, PartialEq, Eq)]
pub enum Refusal {
    ComTim,
    BadHyp,
    BadCap,
    BadPar,
    BadCpu,
    NoRoom,
    Damaged,
    BadCaller,
    Short(u32),
}

// The answer of a hypercall or a census, or why it is refused.
pub type Reply = Result<u32, Refusal>;

impl From<Refusal> for u32 {
    ghost from_gives = { λ refusal number. number ≡ refusal_status refusal };

    // The number of a refusal's status.
    fn from(refusal: Refusal) -> u32 {
        match refusal {
            Refusal::ComTim => 1,
            Refusal::BadHyp => 3,
            Refusal::BadCap => 4,
            Refusal::BadPar => 5,
            Refusal::BadCpu => 7,
            Refusal::NoRoom => 16,
            Refusal::Damaged => 17,
            Refusal::BadCaller => 18,
            Refusal::Short(_) => 19,
        }
    }
}

// The number of a reply's status: 0 where it is granted.
pub fn status(reply: Reply) -> u32
    ensures { result ≡ status_of reply }
{
    match reply {
        Ok(_) => 0,
        Err(refusal) => u32::from(refusal),
    }
}

// A reply's answer: 0 where its status has none, as the interface answers there.
pub fn answer(reply: Reply) -> u32
    ensures { result ≡ answer_of reply }
{
    match reply {
        Ok(answer) => answer,
        Err(Refusal::Short(needed)) => needed,
        Err(_) => 0,
    }
}

// A rule of damage that tables break: that of lengths, or another by its number, with the lowest record or place that breaks it.
#[derive(Clone, Copy, PartialEq, Eq)]
pub enum Fault {
    Lengths,
    AtRecord(u32, u32),
    AtPlace(u32, u32),
}
