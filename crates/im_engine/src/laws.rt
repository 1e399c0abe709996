//! Laws about what files mean. Each is the contract of a function that does nothing.
ghost use Rattle.std.specs.Prelude.{◌≡◌, ℕ, false, List, Err, Result};
ghost use Rattle.im_types.specs.Types.{Command, Refusal, AreLimits, Contents, empty_contents, step, Version, layout_of};
ghost use Rattle.im_types.specs.Types.{Sizes, Reached, Reads, Opens, Means};
ghost use Rattle.im_image.specs.Fresh.{new_image};
ghost use Rattle.im_engine.specs.{Answered.is_device, State.IsFirstFault};

/// A file means one thing. Reading it by the rules of a version gives one memory, one count and one room, or one first
/// fault. The same holds for opening it.
pub fn files_mean_one_thing()
    ensures reads { (version : Version) (file : List ℕ) (one other : Result Reached Refusal)
        → Reads (layout_of version) file one → Reads (layout_of version) file other → one ≡ other }
    ensures opens { (file : List ℕ) (one other : Result Reached Refusal)
        → Opens file one → Opens file other → one ≡ other }
    ensures memory { (file : List ℕ) (m n : Contents) (count other room more : ℕ)
        → Means m count room file → Means n other more file → (m ≡ n) × (count ≡ other) }
    ensures fault { (file : List ℕ) (fault : Refusal) (m : Contents) (count room : ℕ)
        → IsFirstFault fault file → Means m count room file → ⊥ }
{}

/// A new image with its gate open means the empty memory, no command, and room in every slot.
pub fn new_images_mean_the_empty_memory()
    ensures { (s : Sizes) → AreLimits s.cells s.elements s.slots
        → Means (empty_contents s.cells s.elements) 0 s.slots (new_image 0xA5 s) }
{}

/// The answer to a command on a memory never says that a call of the disk failed.
pub fn steps_tell_of_no_failure()
    ensures { (m : Contents) (command : Command) (refusal : Refusal)
        → (step m command).answer ≡ Err refusal → is_device refusal ≡ false }
{}
