//! The direction of a line of text (rustybuzz: hb/common.rs, `Direction`).
ghost use Rattle.std.specs.Prelude.{◌≡◌};
ghost use Rattle.buffer_common.specs.Direction.{direction_of_script, is_horizontal, is_vertical, is_forward, is_backward, opposite};

use crate::script::{
    ADLAM, ARABIC, AVESTAN, CHORASMIAN, CYPRIOT, ELYMAIC, GARAY, HANIFI_ROHINGYA, HATRAN, HEBREW,
    IMPERIAL_ARAMAIC, INSCRIPTIONAL_PAHLAVI, INSCRIPTIONAL_PARTHIAN, KHAROSHTHI, LYDIAN, MANDAIC,
    MANICHAEAN, MENDE_KIKAKUI, MEROITIC_CURSIVE, MEROITIC_HIEROGLYPHS, NABATAEAN, NKO,
    OLD_HUNGARIAN, OLD_ITALIC, OLD_NORTH_ARABIAN, OLD_SOGDIAN, OLD_SOUTH_ARABIAN, OLD_TURKIC,
    OLD_UYGHUR, PALMYRENE, PHOENICIAN, PSALTER_PAHLAVI, RUNIC, SAMARITAN, SOGDIAN, SYRIAC, Script,
    THAANA, TIFINAGH, YEZIDI,
};
use std::str::FromStr;
use thiserror::Error;

/// The direction of a line of text.
#[derive(Clone, Copy, PartialEq, Eq, Debug, Default, Hash)]
pub enum Direction {
    /// No direction is set yet.
    #[default]
    Invalid,
    LeftToRight,
    RightToLeft,
    TopToBottom,
    BottomToTop,
}

/// The error of a text that begins with no letter of a direction.
#[derive(Clone, Copy, PartialEq, Eq, Debug, Error)]
#[error("invalid direction")]
pub struct InvalidDirection;

const RIGHT_TO_LEFT: [Script; 35] = [
    ARABIC,
    HEBREW,
    SYRIAC,
    THAANA,
    CYPRIOT,
    KHAROSHTHI,
    NKO,
    PHOENICIAN,
    LYDIAN,
    AVESTAN,
    IMPERIAL_ARAMAIC,
    INSCRIPTIONAL_PAHLAVI,
    INSCRIPTIONAL_PARTHIAN,
    OLD_SOUTH_ARABIAN,
    OLD_TURKIC,
    SAMARITAN,
    MANDAIC,
    MEROITIC_CURSIVE,
    MEROITIC_HIEROGLYPHS,
    MANICHAEAN,
    MENDE_KIKAKUI,
    NABATAEAN,
    OLD_NORTH_ARABIAN,
    PALMYRENE,
    PSALTER_PAHLAVI,
    HATRAN,
    ADLAM,
    HANIFI_ROHINGYA,
    OLD_SOGDIAN,
    SOGDIAN,
    ELYMAIC,
    CHORASMIAN,
    YEZIDI,
    OLD_UYGHUR,
    GARAY,
];

const EITHER_WAY: [Script; 4] = [RUNIC, OLD_ITALIC, TIFINAGH, OLD_HUNGARIAN];

impl Direction {
    /// The horizontal direction that a script is written in, if it has but one.
    pub fn from_script(script: Script) -> Option<Direction>
        ensures { result ≡ direction_of_script script }
    {
        if RIGHT_TO_LEFT.contains(&script) {
            return Some(Direction::RightToLeft);
        }
        if EITHER_WAY.contains(&script) {
            return None;
        }
        Some(Direction::LeftToRight)
    }

    /// Whether the line runs leftward or rightward.
    pub fn is_horizontal(self) -> bool
        ensures { result ≡ is_horizontal self }
    {
        matches!(self, Direction::LeftToRight | Direction::RightToLeft)
    }

    /// Whether the line runs upward or downward.
    pub fn is_vertical(self) -> bool
        ensures { result ≡ is_vertical self }
    {
        matches!(self, Direction::TopToBottom | Direction::BottomToTop)
    }

    /// Whether the line runs rightward or downward.
    pub fn is_forward(self) -> bool
        ensures { result ≡ is_forward self }
    {
        matches!(self, Direction::LeftToRight | Direction::TopToBottom)
    }

    /// Whether the line runs leftward or upward.
    pub fn is_backward(self) -> bool
        ensures { result ≡ is_backward self }
    {
        matches!(self, Direction::RightToLeft | Direction::BottomToTop)
    }

    /// The opposite direction along the same line.
    pub fn reverse(self) -> Direction
        ensures { result ≡ opposite self }
    {
        match self {
            Direction::Invalid => Direction::Invalid,
            Direction::LeftToRight => Direction::RightToLeft,
            Direction::RightToLeft => Direction::LeftToRight,
            Direction::TopToBottom => Direction::BottomToTop,
            Direction::BottomToTop => Direction::TopToBottom,
        }
    }
}

impl FromStr for Direction {
    ghost use Rattle.std.specs.Prelude.{◌≡◌};
    ghost use Rattle.buffer_common.specs.Direction.{direction_of_text};

    type Err = InvalidDirection;

    ghost from_str_gives = { λ text r. r ≡ direction_of_text text };

    fn from_str(text: &str) -> Result<Direction, InvalidDirection> {
        match text.as_bytes() {
            [b'l' | b'L', ..] => Ok(Direction::LeftToRight),
            [b'r' | b'R', ..] => Ok(Direction::RightToLeft),
            [b't' | b'T', ..] => Ok(Direction::TopToBottom),
            [b'b' | b'B', ..] => Ok(Direction::BottomToTop),
            _ => Err(InvalidDirection),
        }
    }
}
