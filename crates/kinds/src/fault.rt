ghost use Rattle.std.specs.Prelude.{◌≡◌};
ghost use Rattle.kinds.specs.declared.fault.Below.TheVariants as below;
ghost use Rattle.kinds.specs.declared.fault.Fault.TheVariants as fault;
ghost use Rattle.kinds.specs.Fault.{element_number, fault_number, float_reason, intake_number, record_number};

use decimals::FloatFault;
use reply::Spot;
use resp::WireFault;

/// Why a kind refuses a reply, by number.
#[derive(Clone, Copy, PartialEq, Eq, Debug)]
pub enum ElementReason {
    /// A case of reply that the kind doesn't read.
    Kind = 20,
    /// A text that is no number, or no boolean.
    Text = 21,
    /// A bulk string that is not UTF-8.
    NotUtf8 = 22,
    /// A number that doesn't fit.
    Range = 23,
    /// A decimal number whose float is not the exact one rounded once.
    Inexact = 24,
    /// Another count of items than the kind takes.
    Count = 25,
}

/// A refusal of a kind: why, and where the reply begins that was handed to it.
#[derive(Clone, Copy, PartialEq, Eq, Debug)]
pub struct ElementFault {
    pub reason: ElementReason,
    pub spot: Spot,
}

/// Why a call refuses, by number. It has no place.
#[derive(Clone, Copy, PartialEq, Eq, Debug)]
pub enum IntakeReason {
    /// More rows than the table has.
    Table = 26,
    /// No reply begins at the place, or there is no such row.
    Pick = 27,
}

/// Why a record refuses, by number.
#[derive(Clone, Copy, PartialEq, Eq, Debug)]
pub enum RecordReason {
    /// Any other reason than these two.
    Other = 30,
    /// An unknown role word or status number.
    Unknown = 31,
    /// Pending entries without their first or last id.
    NoIds = 32,
}

/// The records.
#[derive(Clone, Copy, PartialEq, Eq, Debug)]
pub enum Record {
    Role,
    ReplicaInfo,
    IntegerReplyOrNoOp,
    StreamAutoClaimReply,
    StreamReadReply,
    StreamRangeReply,
    StreamClaimReply,
    StreamPendingReply,
    StreamPendingCountReply,
    StreamInfoStreamReply,
    StreamInfoConsumersReply,
    StreamInfoGroupsReply,
    XDelExStatusCode,
    XAckDelStatusCode,
}

/// The fault below a record's.
#[derive(Clone, Copy, PartialEq, Eq, Debug)]
pub enum Below {
    Wire(WireFault),
    Element(ElementFault),
}

/// A refusal of a record: why, which record and which of its fields (from 1; 0 is the record itself), where its reply
/// begins, and the fault below it, if there is one.
#[derive(Clone, Copy, PartialEq, Eq, Debug)]
pub struct RecordFault {
    pub reason: RecordReason,
    pub record: Record,
    // kept: not an option, as fields are counted from 1, and 0 is the record's own number among them
    pub field: u8,
    pub spot: Spot,
    pub below: Option<Below>,
}

/// A refusal, by the layer that refuses.
#[derive(Clone, Copy, PartialEq, Eq, Debug)]
pub enum Fault {
    Intake(IntakeReason),
    Wire(WireFault),
    Element(ElementFault),
    Record(RecordFault),
}

impl Fault {
    /// The number of the refusal.
    pub fn number(self) -> u8
        ensures { result ≡ fault_number self }
    {
        match self {
            Fault::Intake(reason) => reason as u8,
            Fault::Wire(fault) => fault.reason.number(),
            Fault::Element(fault) => fault.reason as u8,
            Fault::Record(fault) => fault.reason as u8,
        }
    }
}

impl From<FloatFault> for ElementReason {
    ghost from_gives = { λ f r. r ≡ float_reason f };

    fn from(fault: FloatFault) -> ElementReason {
        match fault {
            FloatFault::NotNumber => ElementReason::Text,
            FloatFault::Inexact => ElementReason::Inexact,
        }
    }
}

impl From<WireFault> for Fault {
    ghost from_gives = { λ w r. r ≡ fault.Wire w };

    fn from(fault: WireFault) -> Fault {
        Fault::Wire(fault)
    }
}

impl From<ElementFault> for Fault {
    ghost from_gives = { λ e r. r ≡ fault.Element e };

    fn from(fault: ElementFault) -> Fault {
        Fault::Element(fault)
    }
}

impl From<RecordFault> for Fault {
    ghost from_gives = { λ f r. r ≡ fault.Record f };

    fn from(fault: RecordFault) -> Fault {
        Fault::Record(fault)
    }
}
