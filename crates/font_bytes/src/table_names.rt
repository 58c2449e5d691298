//! The tables of a font file that are read (OpenType, chapter 4, font tables).
ghost use Rattle.std.specs.Prelude.{◌≡◌};
ghost use Rattle.font_bytes.specs.Tables.{name_of_table, tag_of_table};

/// A table that is read.
#[derive(Clone, Copy, PartialEq, Eq, Debug)]
pub enum FontTable {
    Head,
    Maxp,
    Hhea,
    Hmtx,
    Vhea,
    Vmtx,
    Os2,
    Vorg,
    Cmap,
    Loca,
    Glyf,
    Cff,
    Cff2,
    Post,
    Gdef,
    Gsub,
    Gpos,
    Kern,
}

impl FontTable {
    /// The name of the table, which is its tag without spaces.
    pub fn name(self) -> &'static str
        ensures { result.now ≡ name_of_table self }
    {
        match self {
            FontTable::Head => "head",
            FontTable::Maxp => "maxp",
            FontTable::Hhea => "hhea",
            FontTable::Hmtx => "hmtx",
            FontTable::Vhea => "vhea",
            FontTable::Vmtx => "vmtx",
            FontTable::Os2 => "OS/2",
            FontTable::Vorg => "VORG",
            FontTable::Cmap => "cmap",
            FontTable::Loca => "loca",
            FontTable::Glyf => "glyf",
            FontTable::Cff => "CFF",
            FontTable::Cff2 => "CFF2",
            FontTable::Post => "post",
            FontTable::Gdef => "GDEF",
            FontTable::Gsub => "GSUB",
            FontTable::Gpos => "GPOS",
            FontTable::Kern => "kern",
        }
    }

    /// The tag of the table: its name, filled with spaces, as a number with the first byte highest.
    pub fn tag(self) -> u32
        ensures { result ≡ tag_of_table self }
    {
        match self {
            FontTable::Head => 0x68656164,
            FontTable::Maxp => 0x6d617870,
            FontTable::Hhea => 0x68686561,
            FontTable::Hmtx => 0x686d7478,
            FontTable::Vhea => 0x76686561,
            FontTable::Vmtx => 0x766d7478,
            FontTable::Os2 => 0x4f532f32,
            FontTable::Vorg => 0x564f5247,
            FontTable::Cmap => 0x636d6170,
            FontTable::Loca => 0x6c6f6361,
            FontTable::Glyf => 0x676c7966,
            FontTable::Cff => 0x43464620,
            FontTable::Cff2 => 0x43464632,
            FontTable::Post => 0x706f7374,
            FontTable::Gdef => 0x47444546,
            FontTable::Gsub => 0x47535542,
            FontTable::Gpos => 0x47504f53,
            FontTable::Kern => 0x6b65726e,
        }
    }
}
