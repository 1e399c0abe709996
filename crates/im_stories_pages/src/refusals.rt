//! Refusals: `refusal Gap = refused 1 Gap`.

use im_story::Saying;
use im_types::Refusal;

const REFUSALS: [Refusal; 24] = [
    Refusal::Gap,
    Refusal::Forgotten,
    Refusal::WindowFull,
    Refusal::Mismatch,
    Refusal::NoElement,
    Refusal::NotAnswered,
    Refusal::JournalFull,
    Refusal::Device,
    Refusal::Failed,
    Refusal::NoMemory,
    Refusal::TraceFull,
    Refusal::WrongLength,
    Refusal::NoHeader,
    Refusal::BadHeader,
    Refusal::BadPage,
    Refusal::BadRecord,
    Refusal::BadLimits,
    Refusal::BadScript,
    Refusal::Stalled,
    Refusal::OffPlan,
    Refusal::OldVersion,
    Refusal::NotBlank,
    Refusal::BadPlan,
    Refusal::PaneGone,
];

/// Tells the number and the text of the refusal that has this name in the code.
pub fn tell_refusal(name: &str, said: &mut Saying) {
    for refusal in &REFUSALS {
        let mut known = Saying::new(said.alloc());
        write!(known, "{refusal:?}");
        if known.said() == name {
            said.refusal(*refusal);
        }
    }
}
