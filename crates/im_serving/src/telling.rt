//! Tells what a server found of earlier scripts (decision 870).
ghost use Rattle.std.specs.Prelude.{◌≡◌, ◌<◌, true};
ghost use Rattle.im_types.specs.Types.{Waiting};
ghost use Rattle.im_serving.specs.{Numbers.Noted, Told.TellsNext};

use crate::earlier::EarlierAnswer;
use crate::numbers::ServedNumbers;
use crate::teller::Teller;
use im_types::Entry;

// Returns whether what was found under a number is the next answer of an earlier script that is to be told.
fn is_next(served: &ServedNumbers, number: u64, entry: Entry) -> bool
    ensures next { result ≡ true → (number ≡ served.now.untold) × (number < served.now.first) }
    ensures answered { result ≡ true → entry ≡ Waiting → ⊥ }
{
    if number != served.untold {
        return false;
    }
    if number >= served.first {
        return false;
    }
    match entry {
        Entry::Waiting => false,
        Entry::Answered(_) => true,
    }
}

// Tells what was found under a number, if it is the next answer of an earlier script.
fn tell_next<T: Teller>(teller: &mut T, served: &mut ServedNumbers, number: u64, entry: Entry)
    ensures told { TellsNext number entry served.old served.new (T.told teller.old) (T.told teller.new) }
    ensures entries { served.new.entries ≡ served.old.entries }
{
    if !is_next(served, number, entry) {
        return;
    }
    let answer = EarlierAnswer {
        element: served.element,
        number,
        entry,
    };
    teller.tell_earlier(answer);
    served.untold = number + 1;
}

/// Notes what was found under a number, and tells it before if it is the next answer of an earlier script.
pub(crate) fn learn<T: Teller>(
    teller: &mut T,
    served: &mut ServedNumbers,
    number: u64,
    entry: Entry,
)
    ensures told { TellsNext number entry served.old served.new (T.told teller.old) (T.told teller.new) }
    ensures noted { Noted served.old.first served.old.entries.items number entry served.new.entries.items }
{
    tell_next(teller, served, number, entry);
    served.note(number, entry);
}
