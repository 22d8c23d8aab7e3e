//! What takes the items of a dialogue, whatever they are.

ghost use Rattle.std.specs.Prelude.{◌≡◌, ◌≤◌, ℕ, List, [], ◌∷◌, ◌++◌, length, take, None, IfNone, IfSome};
ghost use Rattle.link_dialogue.specs.Dialogues.{Dialogue};
ghost use Rattle.link_dialogue.specs.Machines.{FedGives, IsGoing, TakesItem};

/// What a byte gives after those of an item that is begun.
#[derive(Clone, Copy)]
pub enum Fed {
    /// The item isn't whole yet.
    More,
    /// It is whole. With a status it ends the dialogue.
    Whole { status: Option<u8> },
    /// No item begins so.
    Bad,
}

/// An item that was taken whole.
#[derive(Clone, Copy)]
pub struct Taken {
    /// How many bytes it has.
    pub size: usize,
    /// With a status it ends the dialogue.
    pub status: Option<u8>,
}

/// What takes the items of a dialogue, and says what each leads to.
pub trait Machine {
    /// The dialogue of a machine that begins so.
    ghost dialogue: { Self → Dialogue };

    /// A machine that began so is now so, after these items and these bytes of one that is begun.
    ghost stands: { (start : Self) → Self → List (dialogue start).Item → List ℕ → Type 0 };

    /// The bytes that its last item leads to.
    ghost sends: { Self → List ℕ };

    /// Takes one byte more of a dialogue that is going.
    fn feed(&mut self, byte: u8) -> Fed
        requires going { (begun : List ℕ) × IsGoing dialogue stands self.old begun }
        ensures gives { (start : Self) (items : List (dialogue start).Item) (begun : List ℕ)
            → stands start self.old items begun → (dialogue start).ended items ≡ None
            → FedGives (dialogue start) (stands start self.new) items (begun ++ byte ∷ []) result (sends self.new) };

    /// Takes the item with which these bytes begin. It may leave any to `feed`.
    fn take(&mut self, bytes: &[u8]) -> Option<Taken>
        ensures fits { IfSome result (λ taken. taken.size ≤ length bytes.now) }
        ensures gives { (start : Self) (items : List (dialogue start).Item) → stands start self.old items []
            → (dialogue start).ended items ≡ None
            → IfSome result (λ taken. TakesItem (dialogue start) (λ now. stands start self.new now [])
            (λ whole. whole ≡ take taken.size bytes.now) items taken.status (sends self.new)) }
        ensures stays { (start : Self) (items : List (dialogue start).Item) → stands start self.old items []
            → IfNone result (stands start self.new items []) };

    /// What its last item leads to, or what is sent before any.
    fn answer(&self) -> &[u8]
        ensures { result.now ≡ sends self.now };
}
