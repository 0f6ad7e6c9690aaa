//! How a run ended.

ghost use Rattle.std.specs.Prelude.{◌≡◌};
ghost use Rattle.wf_program.specs.declared.status.Status.TheVariants as variant;
ghost use Rattle.wf_program.specs.Statuses.{code_of, fixed_text};

use base_types::Memory;

/// How a run ended.
#[derive(Clone, Copy, Debug, PartialEq, Eq)]
pub enum Status {
    /// The text of the answer is written.
    Done,
    /// The words are no command.
    Usage,
    /// A read of the source failed.
    ReadFault,
    /// A write to the sink failed.
    WriteFault,
    /// The input is no JSON value.
    NotJson,
    /// The document breaks a rule.
    Refused,
    /// The store failed at sixteen calls in a row.
    StoreFault,
    /// Some workflow's next tree would have more than 10,000 nodes.
    TooLarge,
    Memory,
    /// The input has more than 16,777,216 bytes.
    TooLong,
}

impl Status {
    /// The exit status of the process.
    pub fn code(self) -> u8
        ensures { result ≡ code_of self }
    {
        match self {
            Status::Done => 0,
            Status::Usage => 2,
            Status::ReadFault => 3,
            Status::WriteFault => 4,
            Status::NotJson => 5,
            Status::Refused => 6,
            Status::StoreFault => 7,
            Status::TooLarge => 8,
            Status::Memory => 9,
            Status::TooLong => 10,
        }
    }

    /// The text that is the same in every run. It takes no memory.
    pub(crate) fn fixed_text(self) -> &'static [u8]
        ensures { result.now ≡ fixed_text self }
    {
        match self {
            Status::Done
            | Status::WriteFault
            | Status::NotJson
            | Status::Refused
            | Status::TooLarge => b"",
            Status::Usage => b"argo: usage: argo run/simulate/check/generate [options]\n",
            Status::ReadFault => b"argo: read fault\n",
            Status::StoreFault => b"argo: store fault\n",
            Status::Memory => b"argo: out of memory\n",
            Status::TooLong => b"argo: input too long\n",
        }
    }
}

impl From<Memory> for Status {
    ghost from_gives = { λ _ status. status ≡ variant.Memory };

    fn from(_: Memory) -> Self {
        Status::Memory
    }
}
