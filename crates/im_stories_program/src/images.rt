//! The image in memory, and changes of its bytes.

use im_story::{Phrase, Saying, bytes};
use im_story_disk::StoryFile;

/// Makes a new image, or opens the one that is there and tells the count of its commands.
pub fn open(place: &mut StoryFile, call: &Phrase, said: &mut Saying) {
    let limits = call.limits(0);
    match place.found(limits) {
        Ok((count, _)) if limits.is_none() => said.number(count),
        Ok(_) => said.text("formatted"),
        Err(refusal) => said.refusal(refusal),
    }
}

/// Puts bytes in their places, and tells those that stood there before, each by itself.
pub fn write(place: &mut StoryFile, call: &Phrase, said: &mut Saying) {
    let (at, Some(bytes)) = (call.place(0), bytes(call.alloc(), call.rest(2))) else {
        return said.fail("these are no bytes");
    };
    said.part(place.bytes(), at, bytes.len(), usize::MAX);
    said.so(place.put(at, bytes.as_slice()), "")
}
