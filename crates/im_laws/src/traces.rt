//! Traces.
ghost use Rattle.std.specs.Prelude.{◌≡◌, ◌↔◌, List, [], ◌∷◌, ◌++◌};
ghost use Rattle.im_types.specs.Types.{Line, Contents, after, answers, answer_to, contents_after, IsLegal, end_of};
ghost use Rattle.im_laws.specs.Traces.{command_answers, commands_of};

/// Two traces joined are legal if and only if the first one is legal and the second one is legal from the end of the
/// first one on.
pub fn traces_join()
    ensures end { (m : Contents) (earlier later : List Line)
        → end_of m (earlier ++ later) ≡ end_of (end_of m earlier) later }
    ensures legal { (m : Contents) (earlier later : List Line)
        → IsLegal m (earlier ++ later) ↔ (IsLegal m earlier × IsLegal (end_of m earlier) later) }
{}

/// A legal trace with one more line is legal if and only if that line has the answer of the memory at the trace's end.
pub fn trace_grows()
    ensures end { (m : Contents) (trace : List Line) (line : Line)
        → end_of m (trace ++ line ∷ []) ≡ contents_after (end_of m trace) line.call }
    ensures legal { (m : Contents) (trace : List Line) (line : Line) → IsLegal m trace
        → IsLegal m (trace ++ line ∷ []) ↔ (line.answer ≡ answer_to (end_of m trace) line.call) }
{}

/// The end of a trace is the memory after the trace's commands. A legal trace has the answers of that run.
pub fn trace_is_a_run()
    ensures end { (m : Contents) (trace : List Line)
        → end_of m trace ≡ after m (commands_of trace) }
    ensures answer { (m : Contents) (trace : List Line) → IsLegal m trace
        → command_answers trace ≡ answers m (commands_of trace) }
{}
