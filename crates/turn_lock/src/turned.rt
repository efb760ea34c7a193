use crate::entry::Entry;

/// A value whose calls are made under a turn.
pub trait Turned: Drop {
    ghost use Rattle.std.specs.Prelude.{◌≡◌, ℕ, List, [], ◌∷◌, ◌++◌};
    ghost use Rattle.turn_lock.specs.declared.entry.Entry.{Entry};
    ghost use Rattle.turn_lock.specs.History.{entry};

    type Call;

    type Reply;

    /// The value stands for this history: it is what the calls made of the first value, and they answered so.
    ghost stands: { Self → List (Entry Self.Call Self.Reply) → Type 0 };

    /// Makes a call, whichever seat it is of.
    fn act(&mut self, call: Self::Call) -> Self::Reply
        ensures { (seat : ℕ) (history : List (Entry Self.Call Self.Reply)) → stands self.old history
            → stands self.new (history ++ entry seat call result ∷ []) };
}
