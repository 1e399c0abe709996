// Requests in windows of kept replies. There are more windows than a memory may have, so that many requests find room.
use im_sessions::Sessions;
use im_types::{Entry, Judged, Op, Refusal, Reply, Request};
use std::alloc::Global;

const ELEMENTS: u32 = 4_096;

// Returns the request with an index: each element asks its first one, then each its second one, and so on.
fn request(index: u32) -> Request {
    Request {
        element: (index % ELEMENTS) as u16,
        number: (index / ELEMENTS) as u64 + 1,
        op: Op::Fetch(index),
    }
}

fn digest(judged: Result<Judged, Refusal>) -> u64 {
    match judged {
        Ok(Judged::Fresh) => 1,
        Ok(Judged::Repeat(Entry::Answered(Reply::Value(value)))) => value,
        Ok(Judged::Repeat(_)) => 2,
        Err(refusal) => refusal.number() as u64,
    }
}

fn note_each(sessions: &mut Sessions, count: u32) -> u64 {
    let mut sum = 0u64;
    for index in 0..count {
        let request = request(index);
        let judged = sessions.judge(&request);
        if let Ok(Judged::Fresh) = judged {
            sessions.note(&request, Entry::Answered(Reply::Value(index as u64)));
        }
        sum = sum.wrapping_add(digest(judged));
    }
    sum
}

/// Judges `count` requests, of which `kept` are kept, and notes none.
pub fn judge(alloc: Global, kept: u32, count: u32) -> Result<u64, Refusal> {
    let mut sessions = Sessions::new(alloc, ELEMENTS as u16)?;
    let _ = note_each(&mut sessions, kept);
    let mut sum = 0u64;
    for index in 0..count {
        let judged = sessions.judge(&request(index));
        sum = sum.wrapping_add(digest(judged));
    }
    Ok(sum)
}

/// Judges new requests, and notes each.
pub fn judge_and_note(alloc: Global, count: u32) -> Result<u64, Refusal> {
    let mut sessions = Sessions::new(alloc, ELEMENTS as u16)?;
    Ok(note_each(&mut sessions, count))
}
