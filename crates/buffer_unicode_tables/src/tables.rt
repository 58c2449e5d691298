//! The tables, checked when they are made.
ghost use Rattle.std.specs.Prelude.{◌≡◌, ◌≢◌, ◌<◌, true, Bool, Some, None, IfOk, IfErr, OnOk};
ghost use Rattle.buffer_unicode.specs.Keys.{is_rising};
ghost use Rattle.buffer_unicode.specs.Ranges.{is_in_ranges};
ghost use Rattle.buffer_unicode_tables.specs.Expansion.{EndWithin, HasDeepChain, ends_within};
ghost use Rattle.buffer_unicode_tables.specs.Records.{AreRising, tables_of_records};
ghost use Rattle.buffer_unicode_tables.specs.Tables.{SplitsCharacters, are_of_characters, tables_of, first_row_fault, split_of, splits_of, pair_of, class_of, counterpart_in, joining_of, indic_of, universal_of, thai_of};

use crate::depth::{MAX_SPLITS, all_chains_end, split};
use crate::hangul::compose_hangul;
use crate::records::UnicodeRecords;
use crate::second_halves::SecondHalves;
use buffer_rows::{Numbered, PagedRows};
use buffer_unicode::{
    CharacterClass, CharacterRanges, Counterpart, IndicRow, JoiningRow, Pair, Split, TablesFault,
    ThaiRow, UnicodeRows, UniversalRow, find_by_key, read_rows,
};
use std::alloc::{AllocError, Global};
use std::marker::Model;

/// The properties of characters by tables that a caller gave: Unicode data files, modified combining classes, and the
/// numbers of the shapers' categories.
#[derive(Drop)]
pub struct UnicodeTables {
    splits: PagedRows<Split>,
    // Which pairs need not be searched for. It only saves time.
    seconds: SecondHalves,
    pairs: Vec<Pair>,
    classes: PagedRows<CharacterClass>,
    mirrored: PagedRows<Counterpart>,
    vertical: PagedRows<Counterpart>,
    pictographic: CharacterRanges,
    joining: PagedRows<JoiningRow>,
    indic: PagedRows<IndicRow>,
    universal: PagedRows<UniversalRow>,
    thai: Vec<ThaiRow>,
}

impl Model for UnicodeTables {
    ghost use Rattle.buffer_unicode_tables.specs.Tables.{Tables};

    ghost Value = { Tables };

    ghost use Rattle.buffer_unicode_tables.specs.Inside.{tables_in, IsSound};

    ghost view = { tables_in };

    ghost invariant = { IsSound };
}

impl UnicodeTables {
    /// Parses rows, and refuses the first that has a fault, table after table in the order of the fields of
    /// `UnicodeRows`: a number outside its range (`OutOfRange`), else a key that is not greater than the one before
    /// (`OutOfOrder`). Rows without a fault are refused where a chain of first halves, by the rule for Hangul and the
    /// table of decompositions, has more than eight decompositions (`SplitDepth`).
    pub fn new(alloc: Global, rows: &UnicodeRows) -> Result<UnicodeTables, TablesFault>
        ensures read { IfOk result (λ t. t ≡ tables_of rows.now) }
        ensures sound { OnOk result (first_row_fault (tables_of rows.now) ≡ None) }
        ensures shallow { OnOk result (EndWithin (split_of (tables_of rows.now)) MAX_SPLITS) }

        // The first fault of a row comes before chains that are too deep.
        ensures refused { IfErr result
            (λ e. e ≢ TablesFault.OutOfMemory → e ≢ TablesFault.SplitDepth →
            first_row_fault (tables_of rows.now) ≡ Some e) }
        ensures deep { result ≡ Err TablesFault.SplitDepth → HasDeepChain (split_of (tables_of rows.now)) MAX_SPLITS }
        ensures deep_last { result ≡ Err TablesFault.SplitDepth → first_row_fault (tables_of rows.now) ≡ None }
    {
        let records = UnicodeRecords {
            splits: read_rows(alloc, &rows.splits)?,
            pairs: read_rows(alloc, &rows.pairs)?,
            classes: read_rows(alloc, &rows.classes)?,
            mirrored: read_rows(alloc, &rows.mirrored)?,
            vertical: read_rows(alloc, &rows.vertical)?,
            pictographic: read_rows(alloc, &rows.pictographic)?,
            joining: read_rows(alloc, &rows.joining)?,
            indic: read_rows(alloc, &rows.indic)?,
            universal: read_rows(alloc, &rows.universal)?,
            thai: read_rows(alloc, &rows.thai)?,
        };
        UnicodeTables::of_records(alloc, records)
    }

    /// The tables of records whose keys rise, or `SplitDepth` where a chain of first halves, by the rule for Hangul and
    /// the table of decompositions, has more than eight decompositions. As each row is of a character by its type, a
    /// number that is no character has no decomposition.
    #[tactic(auto, using(crate::proofs::Characters::rows_split_characters))]
    pub fn of_records(alloc: Global, records: UnicodeRecords) -> Result<UnicodeTables, TablesFault>
        requires { AreRising records }
        ensures tables { IfOk result (λ t. t ≡ tables_of_records records) }
        ensures shallow { OnOk result (EndWithin (split_of (tables_of_records records)) MAX_SPLITS) }
        ensures characters { SplitsCharacters (tables_of_records records) }
        ensures refused { IfErr result (λ e. e ≢ TablesFault.OutOfMemory → e ≡ TablesFault.SplitDepth) }
        ensures deep { result ≡ Err TablesFault.SplitDepth
            → HasDeepChain (split_of (tables_of_records records)) MAX_SPLITS }
    {
        see_characters(&records.splits);
        Ok(UnicodeTables {
            splits: shallow_splits(alloc, records.splits)?,
            seconds: SecondHalves::new(alloc, &records.pairs)?,
            pairs: records.pairs,
            classes: paged(alloc, records.classes)?,
            mirrored: paged(alloc, records.mirrored)?,
            vertical: paged(alloc, records.vertical)?,
            pictographic: CharacterRanges::new(alloc, records.pictographic)?,
            joining: paged(alloc, records.joining)?,
            indic: paged(alloc, records.indic)?,
            universal: paged(alloc, records.universal)?,
            thai: records.thai,
        })
    }

    /// The joining type of a character: U L R D ALAPH DALATH_RISH T, from 0.
    pub fn joining(&self, c: char) -> Option<u8>
        ensures { result ≡ joining_of self.now c }
    {
        Some(self.joining.get(c as u32)?.joining_type)
    }

    /// The numbers of the Indic syllabic category and the position of a character.
    pub fn indic(&self, c: char) -> Option<(u8, u8)>
        ensures { result ≡ indic_of self.now c }
    {
        let row = self.indic.get(c as u32)?;
        Some((row.category, row.position))
    }

    /// The number of a character's category for the universal shaper.
    pub fn universal(&self, c: char) -> Option<u8>
        ensures { result ≡ universal_of self.now c }
    {
        Some(self.universal.get(c as u32)?.category)
    }

    /// The two private-use characters that replace a character by an action, of SD SDL SL RD from 0.
    pub fn thai(&self, c: char, action: u8) -> Option<(char, char)>
        ensures { result ≡ thai_of self.now c action }
    {
        let row = find_by_key(&self.thai, c as u32, action as u32)?;
        Some((row.first, row.second))
    }

    pub(crate) fn splits(&self) -> &PagedRows<Split>
        ensures rows { result.now ≡ self.now.splits }
        ensures shallow { EndWithin (splits_of result.now) MAX_SPLITS }
    {
        &self.splits
    }

    pub(crate) fn pairs(&self) -> &[Pair]
        ensures { result.now ≡ self.now.pairs }
    {
        &self.pairs
    }

    pub(crate) fn classes(&self) -> &[CharacterClass]
        ensures rows { result.now ≡ self.now.classes }
        ensures rising { is_rising (λ _. 0) (λ (r : CharacterClass). r.character) result.now ≡ true }
    {
        self.classes.as_slice()
    }

    pub(crate) fn class(&self, c: char) -> u8
        ensures { result ≡ class_of self.now c }
    {
        match self.classes.get(c as u32) {
            Some(row) => row.class,
            None => 0,
        }
    }

    pub(crate) fn mirrored(&self, c: char) -> Option<char>
        ensures { result ≡ counterpart_in self.now.mirrored c }
    {
        Some(self.mirrored.get(c as u32)?.counterpart)
    }

    pub(crate) fn is_pictographic(&self, c: char) -> bool
        ensures { result ≡ is_in_ranges self.now.pictographic c }
    {
        self.pictographic.contains(c)
    }

    pub(crate) fn vertical(&self, c: char) -> Option<char>
        ensures { result ≡ counterpart_in self.now.vertical c }
    {
        Some(self.vertical.get(c as u32)?.counterpart)
    }
}

/// Reads the character of each row. The prover knows of a `char` that is read that it is a character, and so of all of
/// them by a walk.
fn see_characters(rows: &[Split])
    ensures { are_of_characters rows.now ≡ true }
{
    for row in rows {
        // A `char` that is read is known to be a character.
        let _character = row.whole;
    }
}

/// The table of decompositions, or `SplitDepth` where a chain of first halves has more than eight of them.
fn shallow_splits(alloc: Global, rows: Vec<Split>) -> Result<PagedRows<Split>, TablesFault>
    requires { is_rising (λ _. 0) (λ (r : Split). r.whole) rows.items ≡ true }
    ensures rows { IfOk result (λ s. s ≡ rows.items) }
    ensures ends { IfOk result (λ s. EndWithin (splits_of s) MAX_SPLITS) }
    ensures shallow { OnOk result (EndWithin (splits_of rows.items) MAX_SPLITS) }
    ensures refused { IfErr result (λ e. e ≢ TablesFault.OutOfMemory → e ≡ TablesFault.SplitDepth) }
    ensures deep { result ≡ Err TablesFault.SplitDepth → HasDeepChain (splits_of rows.items) MAX_SPLITS }
{
    let splits = paged(alloc, rows)?;
    if all_chains_end(&splits) {
        Ok(splits)
    } else {
        Err(TablesFault::SplitDepth)
    }
}

/// Records of one number each, with an index of their numbers.
#[tactic(auto, using(buffer_unicode::proofs::Searches::numbers_from))]
fn paged<R: Numbered>(alloc: Global, rows: Vec<R>) -> Result<PagedRows<R>, AllocError>
    requires { is_rising (λ _. 0) R.number_of rows.items ≡ true }
    ensures { IfOk result (λ p. p ≡ rows.items) }
{
    PagedRows::new(alloc, rows)
}

/// The two halves of a character's canonical decomposition, one step: by the rule for Hangul, else by the table. The
/// second half is U+0000 where it is absent. Repeated decomposition of first halves ends within eight steps.
pub fn decompose(tables: &UnicodeTables, ab: char) -> Option<(char, char)>
    ensures pieces { result ≡ split_of tables.now ab }
    ensures shallow { EndWithin (split_of tables.now) MAX_SPLITS }
{
    split(&tables.splits, ab)
}

/// The composite of two characters: by the rule for Hangul, else by the table.
pub fn compose(tables: &UnicodeTables, a: char, b: char) -> Option<char>
    ensures { result ≡ pair_of tables.now a b }
{
    if let Some(syllable) = compose_hangul(a, b) {
        return Some(syllable);
    }
    if !tables.seconds.may_be_second(b) {
        return None;
    }
    Some(find_by_key(&tables.pairs, a as u32, b as u32)?.whole)
}
