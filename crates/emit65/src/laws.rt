//! Laws of slots and entries that callers may use.

ghost use Rattle.std.specs.Prelude.{◌≡◌, List};
ghost use Rattle.semantics65.specs.Module.{Slot};
ghost use Rattle.semantics65.specs.Numbering.{section_keys};
ghost use Rattle.emit65.specs.declared.sections.Sections.{Sections};
ghost use Rattle.emit65.specs.SectionContents.{AreEquivalentSlots, contents_so_far, RepresentsSlots};

/// Sections that represent some slots also represent alike
/// slots that request the same sections.
pub fn equivalent_slots_are_interchangeable()
    ensures { (xs ys : List Slot) (s : Sections) → AreEquivalentSlots xs ys →
        section_keys (contents_so_far xs) ≡ section_keys (contents_so_far ys) →
        RepresentsSlots xs s → RepresentsSlots ys s }
{}
