//! A law of the definitions: the function does nothing, and its contract is proved of them.
ghost use Rattle.std.specs.Prelude.{[], List};
ghost use Rattle.er_model.specs.Parts.{IsLegal};
ghost use Rattle.er_online.specs.LeftOut.{AreSettled, Made, all_of, told_of};
ghost use Rattle.er_online.specs.Taken.{HasSameStates, notes_of};

/// Accesses that left their word's state as it was may be left out, any number of them and anywhere, when their word has that state again and thread,
/// kind and locks are the same: if the shard answered those that it was told of as the definitions say, then with `Quiet` for each other one all have
/// the answers of the definitions, and each word has the state that it has without them.
pub fn settled_accesses_may_be_left_out()
    ensures { (made : List Made) → AreSettled [] made → IsLegal (notes_of (told_of made)) → IsLegal (notes_of (all_of made)) × HasSameStates (told_of made) (all_of made) }
{}
