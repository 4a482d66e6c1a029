ghost use Rattle.std.specs.Prelude.{◌≡◌, ◌+◌, [], ℕ, List, length, map, take};
ghost use Rattle.facet_leaf.specs.OneLine.{IsOneLine, HasOneLineDebug};
ghost use Rattle.facet_session.specs.Interpreter.{next, last};
ghost use Rattle.facet_session.specs.Script.{Balances, lines, turns, answers, held};
ghost use Rattle.facet_session.specs.State.{State};
ghost use Rattle.facet_session.specs.Turn.{text_of};

use facet_block::Leaf;

/// After any number of steps of a script each leaf that was made is held or was dropped, as often as it
/// was made.
pub fn balance<L: Leaf>()
    ensures { (script : List ℕ) (k : ℕ) → Balances L.model script k }
{}

/// After the last step none is held.
pub fn nothing_held<L: Leaf>()
    ensures { (script : List ℕ) → held L.model script (length (lines script) + 1) ≡ [] }
{}

/// Where no debug text has a newline, the answer to every line and to the end is one line, and the lines of a script's
/// answers are these answers.
pub fn answers_are_one_line<L: Leaf>()
    ensures line { HasOneLineDebug L.model → (state : State L) (line : List ℕ)
        → IsOneLine (text_of L.model (next L.model state line)) }
    ensures end { HasOneLineDebug L.model → (state : State L) → IsOneLine (text_of L.model (last state)) }
    ensures script { HasOneLineDebug L.model → (script : List ℕ) (k : ℕ)
        → lines (answers L.model script k) ≡ map (text_of L.model) (take k (turns L.model script)) }
{}
