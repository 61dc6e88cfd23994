//! The law of what accesses touch: the function does nothing, and its contract is proved of the definitions in `specs/`.
ghost use Rattle.std.specs.Prelude.{◌≡◌, ◌+◌, ◌*◌, ◌/◌, ◌<◌, ◌≤◌, ◌↔◌, ℕ, List};
ghost use Rattle.er_binary.specs.ByText.{touches_by_text};
ghost use Rattle.er_binary.specs.Meaning.{touches};
ghost use Rattle.er_binary.specs.States.{address_of};
ghost use Rattle.er_binary.specs.Texts.{words_of};
ghost use Rattle.er_binary.specs.Touches.{AreInOrder, AreOfWords, said_by, touch_at};
ghost use Rattle.er_binary.specs.declared.records.Access.{Access};
ghost use Rattle.er_binary.specs.declared.records.Record.TheVariants as says;
ghost use Rattle.er_binary.specs.declared.state.State.{State};

/// What an access touches of one of its words are those bytes of the word that it is of. What is said of a trace is of bytes of words, and in the
/// order of lines, none of which has two, as far as lines are counted. The number of a line is one more than the line feeds before it in the text.
pub fn a_touch_says_which_bytes_of_a_word()
    ensures bytes { (s : State) (a : Access) (line k i : ℕ) → 1 ≤ a.size → k < words_of (address_of s a) a.size → i < 4
        → let touch = touch_at line (said_by s (says.Access a)) k in let byte = 4 * (address_of s a / 4 + k) + i in
        ((touch.first ≤ i) × (i ≤ touch.last)) ↔ ((address_of s a ≤ byte) × (byte < address_of s a + a.size)) }
    ensures words { (bytes : List ℕ) → AreOfWords (touches bytes) }
    ensures order { (bytes : List ℕ) → AreInOrder (touches bytes) }
    ensures numbers { (bytes : List ℕ) → touches bytes ≡ touches_by_text bytes }
{}
