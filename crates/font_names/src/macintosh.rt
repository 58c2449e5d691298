//! The standard glyph names of the Macintosh (OpenType, chapter 5, post, version 1.0).
ghost use Rattle.std.specs.Prelude.{◌≡◌};
ghost use Rattle.font_names.specs.Strings.{macintosh_strings};

/// The 258 names in the order of their indices, each a Pascal string: its length and its bytes.
const NAMES: &[u8] =
    b"\x07.notdef\x05.null\x10nonmarkingreturn\x05space\x06exclam\x08quotedbl\x0anumbersign\x06dollar\
    \x07percent\x09ampersand\x0bquotesingle\x09parenleft\x0aparenright\x08asterisk\x04plus\x05comma\x06hyphen\
    \x06period\x05slash\x04zero\x03one\x03two\x05three\x04four\x04five\x03six\x05seven\x05eight\x04nine\
    \x05colon\x09semicolon\x04less\x05equal\x07greater\x08question\x02at\x01A\x01B\x01C\x01D\x01E\x01F\x01G\
    \x01H\x01I\x01J\x01K\x01L\x01M\x01N\x01O\x01P\x01Q\x01R\x01S\x01T\x01U\x01V\x01W\x01X\x01Y\x01Z\
    \x0bbracketleft\x09backslash\x0cbracketright\x0basciicircum\x0aunderscore\x05grave\x01a\x01b\x01c\x01d\
    \x01e\x01f\x01g\x01h\x01i\x01j\x01k\x01l\x01m\x01n\x01o\x01p\x01q\x01r\x01s\x01t\x01u\x01v\x01w\x01x\x01y\
    \x01z\x09braceleft\x03bar\x0abraceright\x0aasciitilde\x09Adieresis\x05Aring\x08Ccedilla\x06Eacute\
    \x06Ntilde\x09Odieresis\x09Udieresis\x06aacute\x06agrave\x0bacircumflex\x09adieresis\x06atilde\x05aring\
    \x08ccedilla\x06eacute\x06egrave\x0becircumflex\x09edieresis\x06iacute\x06igrave\x0bicircumflex\
    \x09idieresis\x06ntilde\x06oacute\x06ograve\x0bocircumflex\x09odieresis\x06otilde\x06uacute\x06ugrave\
    \x0bucircumflex\x09udieresis\x06dagger\x06degree\x04cent\x08sterling\x07section\x06bullet\x09paragraph\
    \x0agermandbls\x0aregistered\x09copyright\x09trademark\x05acute\x08dieresis\x08notequal\x02AE\x06Oslash\
    \x08infinity\x09plusminus\x09lessequal\x0cgreaterequal\x03yen\x02mu\x0bpartialdiff\x09summation\
    \x07product\x02pi\x08integral\x0bordfeminine\x0cordmasculine\x05Omega\x02ae\x06oslash\x0cquestiondown\
    \x0aexclamdown\x0alogicalnot\x07radical\x06florin\x0bapproxequal\x05Delta\x0dguillemotleft\
    \x0eguillemotright\x08ellipsis\x10nonbreakingspace\x06Agrave\x06Atilde\x06Otilde\x02OE\x02oe\x06endash\
    \x06emdash\x0cquotedblleft\x0dquotedblright\x09quoteleft\x0aquoteright\x06divide\x07lozenge\x09ydieresis\
    \x09Ydieresis\x08fraction\x08currency\x0dguilsinglleft\x0eguilsinglright\x02fi\x02fl\x09daggerdbl\
    \x0eperiodcentered\x0equotesinglbase\x0cquotedblbase\x0bperthousand\x0bAcircumflex\x0bEcircumflex\
    \x06Aacute\x09Edieresis\x06Egrave\x06Iacute\x0bIcircumflex\x09Idieresis\x06Igrave\x06Oacute\
    \x0bOcircumflex\x05apple\x06Ograve\x06Uacute\x0bUcircumflex\x06Ugrave\x08dotlessi\x0acircumflex\x05tilde\
    \x06macron\x05breve\x09dotaccent\x04ring\x07cedilla\x0chungarumlaut\x06ogonek\x05caron\x06Lslash\
    \x06lslash\x06Scaron\x06scaron\x06Zcaron\x06zcaron\x09brokenbar\x03Eth\x03eth\x06Yacute\x06yacute\
    \x05Thorn\x05thorn\x05minus\x08multiply\x0bonesuperior\x0btwosuperior\x0dthreesuperior\x07onehalf\
    \x0aonequarter\x0dthreequarters\x05franc\x06Gbreve\x06gbreve\x0aIdotaccent\x08Scedilla\x08scedilla\
    \x06Cacute\x06cacute\x06Ccaron\x06ccaron\x06dcroat";

/// The 258 names, as Pascal strings in the order of their indices.
#[tactic(auto, unfolding(crate::specs::Strings::macintosh_strings))]
pub fn macintosh_strings() -> &'static [u8]
    ensures { result.now ≡ macintosh_strings }
{
    NAMES
}
