//! Why an arrival is not accepted.

use crate::refusal::Refusal;
use rohc_chain::ChainRefusal;
use rohc_forms::FormRefusal;

/// Why an arrival is not accepted, and whether that is a failure.
#[derive(Clone, Copy, PartialEq, Eq)]
pub(crate) enum Fault {
    /// Its check doesn't match. That is a failure of the context.
    Unfit,
    /// It is refused for another reason, and the context stays as it is.
    Refused(Refusal),
}

impl Fault {
    ghost use Rattle.std.specs.Prelude.{◌≡◌};
    ghost use Rattle.rohc_context.specs.Outcomes.{refusal_of};

    /// The refusal that is answered.
    pub(crate) fn refusal(self) -> Refusal
        ensures { result ≡ refusal_of self }
    {
        match self {
            Fault::Unfit => Refusal::Check,
            Fault::Refused(refusal) => refusal,
        }
    }
}

impl From<ChainRefusal> for Fault {
    ghost use Rattle.std.specs.Prelude.{◌≡◌};
    ghost use Rattle.rohc_context.specs.Faults.{fault_of_chain};

    ghost from_gives = { λ chain fault. fault ≡ fault_of_chain chain };

    /// The fault for a refusal of an IR or IR-DYN.
    fn from(chain: ChainRefusal) -> Fault {
        match chain {
            ChainRefusal::Profile => Fault::Refused(Refusal::Profile),
            ChainRefusal::ProfileChange => Fault::Refused(Refusal::ProfileChange),
            ChainRefusal::Truncated => Fault::Refused(Refusal::Truncated),
            ChainRefusal::IpVersion => Fault::Refused(Refusal::IpVersion),
            ChainRefusal::Protocol => Fault::Refused(Refusal::Protocol),
            ChainRefusal::ExtensionList => Fault::Refused(Refusal::ExtensionList),
            ChainRefusal::RtpVersion => Fault::Refused(Refusal::RtpVersion),
            ChainRefusal::Csrc => Fault::Refused(Refusal::Csrc),
            ChainRefusal::ZeroStride => Fault::Refused(Refusal::ZeroStride),
            ChainRefusal::ReliableMode => Fault::Refused(Refusal::ReliableMode),
            ChainRefusal::Trailing => Fault::Refused(Refusal::Trailing),
            ChainRefusal::TooLong => Fault::Refused(Refusal::TooLong),
            ChainRefusal::Check => Fault::Unfit,
        }
    }
}

impl From<FormRefusal> for Fault {
    ghost use Rattle.std.specs.Prelude.{◌≡◌};
    ghost use Rattle.rohc_context.specs.Faults.{fault_of_form};

    ghost from_gives = { λ form fault. fault ≡ fault_of_form form };

    /// The fault for a refusal of a packet of kind Other.
    fn from(form: FormRefusal) -> Fault {
        match form {
            FormRefusal::Truncated => Fault::Refused(Refusal::Truncated),
            FormRefusal::Protocol => Fault::Refused(Refusal::Protocol),
            FormRefusal::ExtensionList => Fault::Refused(Refusal::ExtensionList),
            FormRefusal::Csrc => Fault::Refused(Refusal::Csrc),
            FormRefusal::ZeroStride => Fault::Refused(Refusal::ZeroStride),
            FormRefusal::ReliableMode => Fault::Refused(Refusal::ReliableMode),
            FormRefusal::OuterHeader => Fault::Refused(Refusal::OuterHeader),
            FormRefusal::NoStride => Fault::Refused(Refusal::NoStride),
            FormRefusal::RndInUo1 => Fault::Refused(Refusal::RndInUo1),
            FormRefusal::IpIdTwice => Fault::Refused(Refusal::IpIdTwice),
        }
    }
}
