//! Laws of lists that are cut into syllables.
ghost use Rattle.buffer_stages.specs.Bytes.{BytesAreOne, ByteGivesSyllable, NeighboursDiffer};
ghost use Rattle.buffer_stages.specs.Cuts.{CutsJoin};
ghost use Rattle.buffer_stages.specs.Examples.{Examples};
ghost use Rattle.buffer_stages.specs.Pieces.{PermutesEach};

/// The syllables of a list, concatenated, are the list.
#[tactic(auto, using(crate::proofs::Joined::cuts_join))]
pub fn law_cuts_join()
    ensures { CutsJoin }
{}

/// Where a rule permutes each list, a list in pieces is permuted piece by piece.
#[tactic(auto, using(crate::specs::Pieces::permutes_numbers))]
pub fn law_permutes_each()
    ensures { PermutesEach }
{}

/// Each element of a list has one syllable byte.
#[tactic(auto, using(crate::proofs::Bytewise::bytes_are_one))]
pub fn law_bytes_are_one()
    ensures { BytesAreOne }
{}

/// A syllable byte determines the serial number and the kind.
#[tactic(auto, using(crate::proofs::Bytewise::bytes_tell))]
pub fn law_byte_gives_syllable()
    ensures { ByteGivesSyllable }
{}

/// Neighbouring syllables have different bytes.
#[tactic(auto, using(crate::proofs::Bytewise::neighbours_differ))]
pub fn law_neighbours_differ()
    ensures { NeighboursDiffer }
{}

/// Some lists in syllables, with their bytes.
#[tactic(auto, using(crate::proofs::Bytewise::examples))]
pub fn law_examples()
    ensures { Examples }
{}
