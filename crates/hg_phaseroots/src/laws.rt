//! What the text of roots keeps, in the words of `specs/` alone.
ghost use Rattle.std.specs.Prelude.{◌≡◌, ◌≢◌, ◌↔◌, List, Ok, Contains};
ghost use Rattle.hg_changeset.specs.Node.{IsNode};
ghost use Rattle.hg_phases.specs.declared.phase.Phase.TheVariants.{Public};
ghost use Rattle.hg_phaseroots.specs.Reading.{Root, roots_of};
ghost use Rattle.hg_phaseroots.specs.Writing.{AreInOrder, text_of};

/// Roots have one written order, which lists those that aren't public. Read back, their text lists them in that order.
pub fn roots_read_back()
    ensures one_order { (roots sorted others : List Root) → AreInOrder roots sorted → AreInOrder roots others
        → sorted ≡ others }
    ensures same { (roots sorted : List Root) → AreInOrder roots sorted → (r : Root) → Contains sorted r
        ↔ (Contains roots r × (r.0 ≢ Public)) }
    ensures again { (roots sorted : List Root) → ((r : Root) → Contains roots r → IsNode r.1) → AreInOrder roots sorted
        → roots_of (text_of sorted) ≡ Ok sorted }
{}
