//! What is read of a file's tables has no more rows than there was room for.
ghost use Rattle.font_laws.specs.Laws.{CharactersAreBounded, DefinitionsAreBounded, FacesAreBounded, KernIsBounded, PositionsAreBounded, SubstitutionsAreBounded};

/// Characters and variants fit the room of cmap and 256 codes of an encoding other than Unicode.
#[tactic(auto, using(crate::proofs::Bounds::characters_are_bounded))]
pub fn law_characters_are_bounded()
    ensures { CharactersAreBounded }
{}

/// The rows of GDEF fit the room that they take.
pub fn law_definitions_are_bounded()
    ensures { DefinitionsAreBounded }
{}

/// The rows of GSUB fit the room that they take.
#[tactic(auto, using(crate::proofs::Bounds::substitutions_are_bounded))]
pub fn law_substitutions_are_bounded()
    ensures { SubstitutionsAreBounded }
{}

/// The rows of GPOS fit the room that they take.
#[tactic(auto, using(crate::proofs::Bounds::positions_are_bounded))]
pub fn law_positions_are_bounded()
    ensures { PositionsAreBounded }
{}

/// GPOS with the table kern: copies of scripts, which take no room, are at most 35; lookups have three rows for each that they
/// take.
#[tactic(auto, using(crate::proofs::Bounds::kern_is_bounded))]
pub fn law_kern_is_bounded()
    ensures { KernIsBounded }
{}

/// Each list of a face that is read of a file's bytes is within the limits of docs/TOOLS.md, whatever the file.
pub fn law_face_is_bounded()
    ensures { FacesAreBounded }
{}
