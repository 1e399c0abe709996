//! Records as they are written in a story: those of cells and nodes as [`Saying`](im_story::Saying) adds them, and kept
//! entries, `fetch 5 -> waiting`.

use im_story::{Phrase, entry, op};
use im_types::{Block, CellRecord, Entry, Kept, Kind, NodeRecord, Op, PresenceTag, Reply};

/// Reads the record of a cell.
pub fn cell(of: &Phrase) -> Option<CellRecord> {
    let (first, second) = (of.address(0), of.address(1));
    let (tag, kind) = of
        .form()
        .split_once(" in block _ of _ ")
        .unwrap_or((of.form(), ""));
    let (tag, base, length) = match tag {
        "free hole _ next _" => {
            return Some(CellRecord::Free {
                hole: first,
                next: second,
            });
        }
        "empty" => (PresenceTag::Empty, first, second),
        "full _" => (PresenceTag::Full(of.number(0)), second, of.address(2)),
        "clashed _" => (PresenceTag::Clashed(of.number(0)), second, of.address(2)),
        "waiting _ _" => {
            let (first, last) = (first, second);
            let tag = PresenceTag::Waiting { first, last };
            (tag, of.address(2), of.address(3))
        }
        _ => return None,
    };
    let kind = match kind {
        "i" => Kind::I,
        "m" => Kind::M,
        _ => return None,
    };
    let block = Block { base, length, kind };
    Some(CellRecord::Held { block, tag })
}

/// Reads a waiter node.
pub fn node(of: &Phrase) -> Option<NodeRecord> {
    match of.form() {
        "free next _" => Some(NodeRecord::Free {
            next: of.address(0),
        }),
        "_._ next _" => Some(NodeRecord::Listed {
            next: of.address(2),
            waiter: of.waiter(0),
        }),
        _ => None,
    }
}

/// Reads a kept entry.
pub fn kept(words: &[&str]) -> Option<Kept> {
    let arrow = words.iter().position(|word| *word == "->")?;
    let (asked, came) = words.split_at_checked(arrow)?;
    Some(Kept {
        op: op(asked)?,
        entry: entry(came.get(1..)?)?,
    })
}

/// Returns the entry of a store of this value in cell 0 that clashed.
pub fn clashing(value: u64) -> Kept {
    Kept {
        op: Op::Store(0, value),
        entry: Entry::Answered(Reply::Clash),
    }
}
