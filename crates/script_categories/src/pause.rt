//! The pauses: a shaper's work between two GSUB stages.
ghost use Rattle.std.specs.Prelude.{◌≡◌};
ghost use Rattle.script_categories.specs.Pauses.{number_of_pause, pause_number, pause_of_number, NumbersLeadBack};

/// The pauses of this stack's shapers, each with its number in a map.
#[derive(Clone, Copy)]
pub enum hb_script_pause_t {
    RecordStch = 1,
    SetupSyllables = 2,
    ReorderKhmer = 3,
    ReorderMyanmar = 4,
    ClearSyllables = 5,
    ClearSubstitutionFlags = 6,
    RecordRphf = 7,
    RecordPref = 8,
    ReorderUse = 9,
    InitialReordering = 10,
    FinalReordering = 11,
}

use hb_script_pause_t::*;

impl hb_script_pause_t {
    /// The pause's number in a map: 1 to 11.
    pub fn number(self) -> u8
        ensures { result ≡ pause_number self }
    {
        match self {
            RecordStch => 1,
            SetupSyllables => 2,
            ReorderKhmer => 3,
            ReorderMyanmar => 4,
            ClearSyllables => 5,
            ClearSubstitutionFlags => 6,
            RecordRphf => 7,
            RecordPref => 8,
            ReorderUse => 9,
            InitialReordering => 10,
            FinalReordering => 11,
        }
    }

    /// The pause of a map's number, if there is one.
    pub fn from_number(number: u8) -> Option<hb_script_pause_t>
        ensures { result ≡ pause_of_number number }
    {
        match number {
            1 => Some(RecordStch),
            2 => Some(SetupSyllables),
            3 => Some(ReorderKhmer),
            4 => Some(ReorderMyanmar),
            5 => Some(ClearSyllables),
            6 => Some(ClearSubstitutionFlags),
            7 => Some(RecordRphf),
            8 => Some(RecordPref),
            9 => Some(ReorderUse),
            10 => Some(InitialReordering),
            11 => Some(FinalReordering),
            _ => None,
        }
    }
}

/// The number in a map of a stage's end: 0 where it has no pause.
pub fn number_of_pause(pause: Option<hb_script_pause_t>) -> u8
    ensures { result ≡ number_of_pause pause }
{
    pause.map_or(0, hb_script_pause_t::number)
}

/// `from_number` of a pause's number is that pause.
pub fn law_numbers_lead_back()
    ensures { NumbersLeadBack }
{}
