//! What the program kuspveli says of itself.

/// What the words of the program are.
#[rattlefmt::skip]
pub const USAGE: &str = "usage: kuspveli [options] FONT [TEXT]
       kuspveli [options] FONT < FILE
       kuspveli [--face=N] FONT --json

Shapes a text in a font file, and prints its glyphs as hb-shape does:
glyph=cluster@x,y+advance, with | between them. FONT is a TrueType or OpenType
file, or a collection of them (.ttf, .otf, .ttc, .otc); TEXT is UTF-8, and is
read from standard input where it is missing. One line feed at its end is
dropped. Clusters are bytes of the text, distances units of the em.

examples:
  kuspveli DejaVuSans.ttf office
  kuspveli DejaVuSans.ttf office --features=-liga,kern=2 --no-glyph-names
  kuspveli NotoNaskhArabic-Regular.ttf --language=ur-PK --script=Arab <text.txt
  kuspveli NotoSansCJK-Regular.ttc --face=2 --lines --keep-going <words.txt

options:
  --face=N            the font of a collection, from 0 on
  --json              print the font as JSON, and shape nothing
  --direction=D       ltr, rtl, ttb or btt; guessed from the text
  --script=S          an ISO 15924 tag, as Arab; guessed from the text
  --language=L        a BCP 47 tag, as ro or de-CH; none without it
  --features=F        features with commas, as -liga,kern=2; may be given again
  --cluster-level=N   0: graphemes share a cluster; 1: characters merge;
                      2: clusters never merge; 3: graphemes alone
  --bot, --eot        the text begins, or ends, a paragraph
  --preserve-default-ignorables
                      show characters that are to be invisible
  --remove-default-ignorables
                      remove their glyphs
  --no-dotted-circle  put no dotted circle before a lone mark
  --unsafe-to-concat  mark where texts may not be put together
  --safe-to-insert-tatweel
                      mark where a tatweel may stand
  --safe-breaks       mark each glyph before which a text may not be cut
  --no-glyph-names    print glyph numbers
  --no-clusters       print no clusters
  --no-positions      print no positions
  --no-advances       print no advances
  --show-extents      print the box of each glyph
  --show-flags        print glyph flags
  --slices            print also which bytes of the text each run of glyphs of
                      one cluster comes from
  --lines             shape each line of the text by itself, and print a line
                      for each
  --keep-going        with --lines: a line that is refused is named where its line
                      would stand, and the others are printed
  --version, -V       print the version
  --help, -h          print this

After -- all words are FONT and TEXT. A fault is one line on standard error and a
status: 2 the words, 3 the font, 4 the text, 5 what can't be shaped, 6 files.
";

/// Which version the program is.
pub const VERSION_LINE: &str = "kuspveli 0.2.0\n";
