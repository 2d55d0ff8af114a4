//! Laws of the encoding.

ghost use Rattle.std.specs.Prelude.{◌≡◌, ℕ, List, ◌++◌};
ghost use Rattle.nr_xdr.specs.Item.{Item, Reads, AreOfOneType};

/// Bytes begin with at most one item of a given type.
pub fn one_reading()
    ensures { (a b : Item) (x y more others : List ℕ) → AreOfOneType a b → Reads a x → Reads b y →
        x ++ more ≡ y ++ others → (a ≡ b) × (more ≡ others) }
{}
