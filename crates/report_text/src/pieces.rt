//! The law of the pieces of bytes.

ghost use Rattle.report_text.specs.Pieces.{LawsOfPieces};

/// Bytes are pieces, each up to a line feed. A piece is the well-formed line whose text it is, or no line, as a last one without a
/// line feed. The pieces are lines and no more exactly where the bytes are those of these lines, and each beginning of lines is one
/// of bytes.
pub fn laws_of_pieces()
    ensures { LawsOfPieces }
{}
