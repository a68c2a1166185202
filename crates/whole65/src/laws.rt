//! Laws of whole programs, from a single value to the equality with the linked image. Each
//! function's contract is a law.

ghost use Rattle.whole65.specs.Equality.{LinkEqualsWholeProgram};
ghost use Rattle.whole65.specs.Laws.{CircularHasNoValue, LinkPreservesExportValues, LinkPreservesNeeds, OffsetIsPosition, ValueIsUnique, LinkPreservesPlacement, LinkPreservesRows, NormalFormPreservesValue, LayoutIsSourceOfObject};

/// An expression has at most one value.
pub fn value_is_unique()
    ensures { ValueIsUnique }
{}

/// A name that is needed for its own value has none.
pub fn circular_has_no_value()
    ensures { CircularHasNoValue }
{}

/// An expression and its normal form have the same value, or none, wherever sections lie. `E` is what may go wrong with
/// an import.
pub fn normal_form_preserves_value<E>()
    ensures { NormalFormPreservesValue E }
{}

/// In a module without errors at its lines the offset of a statement in its section is its position
/// among the module's lines.
pub fn offset_is_position()
    ensures { OffsetIsPosition }
{}

/// An export comes in a link to the value of its name in the whole program.
pub fn link_preserves_export_values()
    ensures { LinkPreservesExportValues }
{}

/// A segment needs as many bytes and the alignment in a link that it needs in the whole program.
pub fn link_preserves_needs()
    ensures { LinkPreservesNeeds }
{}

/// Statements without a fault that lay a sound module are the source of their object, in either version.
pub fn layout_is_source_of_object()
    ensures { LayoutIsSourceOfObject }
{}

/// A script places linked modules where it places their whole program.
pub fn link_preserves_placement()
    ensures { LinkPreservesPlacement }
{}

/// The rows have in the whole program the bytes that a link writes, where its values pass their checks.
pub fn link_preserves_rows()
    ensures { LinkPreservesRows }
{}

/// Linking the objects of sources gives files if and only if their whole program has an image, and these files are the image.
pub fn link_equals_whole_program()
    ensures { LinkEqualsWholeProgram }
{}
