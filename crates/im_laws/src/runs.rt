//! Lists of commands.
ghost use Rattle.std.specs.Prelude.{◌≡◌, List, ◌++◌};
ghost use Rattle.im_types.specs.Types.{Command, Contents, after, accepted, answers};

/// Two lists of commands, one run after the other, come to the same as their join. The memory, the answers and the
/// accepted commands are the same.
pub fn runs_join()
    ensures memory { (m : Contents) (earlier later : List Command)
        → after m (earlier ++ later) ≡ after (after m earlier) later }
    ensures answer { (m : Contents) (earlier later : List Command)
        → answers m (earlier ++ later) ≡ answers m earlier ++ answers (after m earlier) later }
    ensures accept { (m : Contents) (earlier later : List Command)
        → accepted m (earlier ++ later) ≡ accepted m earlier ++ accepted (after m earlier) later }
{}

/// The accepted commands alone lead to the same memory as all the commands. Each of them is accepted again.
pub fn only_accepted_commands_matter()
    ensures memory { (m : Contents) (commands : List Command)
        → after m (accepted m commands) ≡ after m commands }
    ensures again { (m : Contents) (commands : List Command)
        → accepted m (accepted m commands) ≡ accepted m commands }
{}
