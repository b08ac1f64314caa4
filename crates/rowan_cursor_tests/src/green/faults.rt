//! The refusals: their numbers and their messages.
use rowan_green::Fault;
use std::alloc::{AllocError, Global};

/// The refusals, each with its number.
const FAULTS: [(Fault, u8); 12] = [
    (Fault::TextTooLong, 1),
    (Fault::TooManyChildren, 2),
    (Fault::CheckpointPast, 3),
    (Fault::CheckpointBefore, 4),
    (Fault::NothingOpen, 5),
    (Fault::NotOneElement, 6),
    (Fault::NotANode, 7),
    (Fault::OtherKind, 8),
    (Fault::NotFound, 9),
    (Fault::Memory, 10),
    (Fault::UnknownMark, 11),
    (Fault::NotOneList, 12),
];

#[test]
fn faults_have_their_numbers(rt: HostRuntime) {
    for (fault, number) in FAULTS {
        assert!(rt; fault.number() == number);
    }
}

/// Whether two refusals have one message, which says something.
fn say_the_same(alloc: Global, fault: Fault, other: Fault) -> Result<bool, AllocError> {
    let message = fault.to_string(alloc)?;
    Ok(!message.is_empty() && message == other.to_string(alloc)?)
}

#[test]
fn faults_have_messages_of_their_own(rt: HostRuntime) {
    for (fault, _) in FAULTS {
        for (other, _) in FAULTS {
            assert!(rt; say_the_same(rt.alloc(), fault, other) == Ok(fault == other));
        }
    }
}
