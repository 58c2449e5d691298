//! Code units of UTF-16 and UTF-32 in bytes, each in the machine's order: the less significant byte first.
ghost use Rattle.std.specs.Prelude.{◌≡◌, ◌<◌, ◌∷◌, [], length, IfSome, MatchOption};
ghost use Rattle.c_characters.specs.Units.{units_16, units_32};

/// The first unit of 16 bits and the bytes after it, none where there are fewer than two.
#[tactic(auto, using(crate::proofs::UnitSteps::no_unit_16, crate::proofs::UnitSteps::unit_16_step))]
pub fn split_unit_16(bytes: &[u8]) -> Option<(u16, &[u8])>
    ensures unit { MatchOption result (units_16 bytes.now ≡ []) (λ cut. units_16 bytes.now ≡ cut.0 ∷ units_16 cut.1.now) }
    ensures shorter { IfSome result (λ cut. length cut.1.now < length bytes.now) }
{
    if bytes.len() < 2 {
        return None;
    }
    let unit = u16::from(bytes[0]) + u16::from(bytes[1]) * 256;
    Some((unit, &bytes[2..]))
}

/// The first unit of 32 bits and the bytes after it, none where there are fewer than four.
#[tactic(auto, using(crate::proofs::UnitSteps::no_unit_32, crate::proofs::UnitSteps::unit_32_step))]
pub fn split_unit_32(bytes: &[u8]) -> Option<(u32, &[u8])>
    ensures unit { MatchOption result (units_32 bytes.now ≡ []) (λ cut. units_32 bytes.now ≡ cut.0 ∷ units_32 cut.1.now) }
    ensures shorter { IfSome result (λ cut. length cut.1.now < length bytes.now) }
{
    if bytes.len() < 4 {
        return None;
    }
    let low = u32::from(bytes[0]) + u32::from(bytes[1]) * 256;
    let high = u32::from(bytes[2]) + u32::from(bytes[3]) * 256;
    Some((low + high * 65536, &bytes[4..]))
}
