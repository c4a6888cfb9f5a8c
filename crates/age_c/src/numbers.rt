//! The numbers that stand for a status.

ghost use Rattle.std.specs.Prelude.{◌≡◌, ◌≢◌, Some, true, false};
ghost use Rattle.age_stream.specs.{has_failed};
ghost use Rattle.age_c.specs.{answer_of, failed_at, reader_status};

use age_chunk::{StreamFault, StreamKind};
use age_stream::Status;

/// Returns the status of a refusal of this kind, at a chunk.
fn failed_at(kind: StreamKind, chunk: u64) -> Option<Status>
    ensures { result ≡ failed_at kind chunk }
{
    Some(Status::Failed(StreamFault { kind, chunk }))
}

/// Converts numbers to a status, or returns `None` if they stand for none.
pub(crate) fn decode_status(state: u32, fault_chunk: u64) -> Option<Status>
    ensures { result ≡ reader_status state fault_chunk }
{
    match state {
        1 => Some(Status::Open),
        2 => Some(Status::LastSeen),
        3 => Some(Status::Done),
        17 => failed_at(StreamKind::ChunkDamaged, fault_chunk),
        18 => failed_at(StreamKind::ChunkCut, fault_chunk),
        19 => failed_at(StreamKind::EmptyLast, fault_chunk),
        20 => failed_at(StreamKind::Truncated, fault_chunk),
        21 => failed_at(StreamKind::Trailing, fault_chunk),
        22 => failed_at(StreamKind::TooManyChunks, fault_chunk),
        _ => None,
    }
}

/// Converts a status to its numbers.
pub(crate) fn encode_status(status: Status) -> (u32, u64)
    ensures status { reader_status result.0 result.1 ≡ Some status }
    ensures unfailed { has_failed status ≡ false → answer_of result.0 ≡ 0 }
    ensures failed { has_failed status ≡ true → answer_of result.0 ≢ 0 }
    ensures done { status ≡ Status.Done → result.0 ≡ 3 }
{
    match status {
        Status::Open => (1, 0),
        Status::LastSeen => (2, 0),
        Status::Done => (3, 0),
        Status::Failed(fault) => (u32::from(fault.number()), fault.chunk),
    }
}

/// Returns the result of a call that left a reader in this state: the fault's number if the reader
/// refused, or else 0.
pub(crate) fn encode_answer(state: u32) -> u32
    ensures { result ≡ answer_of state }
{
    if (17..=22).contains(&state) { state } else { 0 }
}
