//! Syllables after their forms, two in each row, or one or two after a glyph that is in none.
//!
//! Rows are data: each has its glyphs and its answer whole, however alike two are.

// A name has the categories of the glyphs.
pub(crate) static ROWS: &str = "
# name; options, with where a reph is moved; glyphs; glyphs afterwards
X M M; reph=AFTER_POST level=1 rphf=40 pref=20 init=10;
  40@0 s=15.non x=END m=80000000 p=13 g=2, 5@1 s=1.broken c=M x=PRE_M m=80000000 p=10 g=2,
  6@2 s=1.broken c=M x=PRE_C m=80000000 p=10 g=2;
  40@0 x=END m=80000000, 5@1 c=M x=PRE_M m=80000010, 6@1 c=M x=PRE_C m=80000000
M PLACEHOLDER VD M; reph=AFTER_SUB before=30 after=10 half=20 init=40;
  5@0 s=1.consonant c=M x=PRE_M m=80000030 p=10 g=2, 13@0 s=1.consonant c=PLACEHOLDER x=BASE_C m=80000000 p=7 g=2,
  8@3 s=1.consonant c=VD x=SMVD m=80000010 p=12 g=2, 7@5 s=2.symbol c=M x=BELOW_C m=80000000 p=12 g=2;
  5@0 c=M x=PRE_M m=80000070, 13@0 c=PLACEHOLDER x=BASE_C m=80000000, 8@3 c=VD x=SMVD m=80000010,
  7@5 c=M x=BELOW_C m=80000000
A Ra C M; reph=AFTER_SUB rphf=40 before=20 after=30;
  8@0 s=1.consonant c=A x=PRE_C m=80000020 p=12 g=2, 31@1 s=2.broken c=Ra x=RA_TO_BECOME_REPH m=80000060 p=7 g=50,
  3@3 s=2.broken c=C x=BASE_C m=80000000 p=7 g=2, 7@4 s=2.broken c=M x=AFTER_MAIN m=80000030 p=12 g=2;
  8@0 c=A x=PRE_C m=80000020, 3@1 c=C x=BASE_C m=80000000, 7@1 c=M x=AFTER_MAIN m=80000030,
  31@1 c=Ra x=RA_TO_BECOME_REPH m=80000060
X N MPst N; reph=AFTER_POST level=1 rphf=80 after=40 pref=20 init=10;
  40@0 s=15.non x=END m=80000000 p=12 g=2, 9@1 s=1.broken c=N m=80000000 p=12 g=2,
  5@2 s=1.broken c=MPst x=PRE_M m=80000000 p=10 g=2, 9@4 s=1.broken c=N x=PRE_M m=80000000 p=12 g=2;
  40@0 x=END m=80000000, 9@1 c=N m=80000000, 5@2 c=MPst x=PRE_M m=80000000, 9@2 c=N x=PRE_M m=80000000
X Repha C M; reph=AFTER_MAIN level=1 rphf=80 after=40 pref=20 init=10;
  40@0 s=15.non x=END m=80000000 p=7 g=2, 12@1 s=1.vowel c=Repha x=RA_TO_BECOME_REPH m=80000080 p=7 g=2,
  2@2 s=1.vowel c=C x=BASE_C m=80000000 p=7 g=2, 6@5 s=1.vowel c=M x=AFTER_MAIN m=80000040 p=10 g=2;
  40@0 x=END m=80000000, 2@1 c=C x=BASE_C m=80000000, 6@1 c=M x=AFTER_MAIN m=80000040,
  12@1 c=Repha x=RA_TO_BECOME_REPH m=80000080
X Ra C M M; reph=BEFORE_POST level=1 rphf=20 before=10 half=10;
  40@0 s=15.non x=END m=80000000 p=12 g=2, 30@1 s=1.consonant c=Ra x=RA_TO_BECOME_REPH m=80000030 p=7 g=50,
  13@2 s=1.consonant c=C x=BASE_C m=80000000 p=7 g=2, 6@2 s=1.consonant c=M x=AFTER_MAIN m=80000000 p=10 g=2,
  6@3 s=1.consonant c=M x=AFTER_SUB m=80000000 p=10 g=2;
  40@0 x=END m=80000000, 13@1 c=C x=BASE_C m=80000000, 6@1 c=M x=AFTER_MAIN m=80000000,
  6@1 c=M x=AFTER_SUB m=80000000, 30@1 c=Ra x=RA_TO_BECOME_REPH m=80000030
M M MPst Ra; reph=BEFORE_SUB rphf=80 before=10 after=40 half=10 init=20;
  5@0 s=1.vowel c=M x=PRE_M m=80000010 p=10 g=2, 7@2 s=1.vowel c=M x=PRE_C m=80000010 p=12 g=2,
  5@3 s=2.consonant c=MPst x=PRE_M m=80000010 p=10 g=2, 1@3 s=2.consonant c=Ra x=BASE_C m=80000000 p=7 g=2;
  5@0 c=M x=PRE_M m=80000030, 7@0 c=M x=PRE_C m=80000010, 5@3 c=MPst x=PRE_M m=80000010, 1@3 c=Ra x=BASE_C m=80000000
X M CS H M; reph=AFTER_POST rphf=20 after=10;
  40@0 s=15.non x=END m=80000000 p=12 g=2, 5@1 s=1.consonant c=M x=PRE_M m=80000000 p=10 g=2,
  13@1 s=1.consonant c=CS x=PRE_C m=80000000 p=7 g=2, 32@1 s=1.consonant c=H x=PRE_C m=80000000 p=12 g=50,
  7@8 s=1.consonant c=M x=AFTER_SUB m=80000010 p=12 g=2;
  40@0 x=END m=80000000, 5@1 c=M x=PRE_M m=80000000, 13@1 c=CS x=PRE_C m=80000000, 32@1 c=H x=PRE_C m=80000000,
  7@8 c=M x=AFTER_SUB m=80000010
C Ra Ra H C; reph=AFTER_MAIN level=1 rphf=80 before=30 after=50 half=20;
  3@0 s=1.standalone c=C x=BASE_C m=80000000 p=7 g=2, 31@1 s=2.consonant c=Ra x=RA_TO_BECOME_REPH m=800000B0 p=7 g=50,
  1@6 s=2.consonant c=Ra x=PRE_C m=80000030 p=7 g=2, 4@8 s=2.consonant c=H x=PRE_C m=80000030 p=12 g=2,
  13@10 s=2.consonant c=C x=BASE_C m=80000000 p=7 g=2;
  3@0 c=C x=BASE_C m=80000000, 1@1 c=Ra x=PRE_C m=80000030, 4@1 c=H x=PRE_C m=80000030,
  31@1 c=Ra x=RA_TO_BECOME_REPH m=800000B0, 13@10 c=C x=BASE_C m=80000000
C Repha C ZWJ C M; reph=AFTER_MAIN before=10 after=10 pref=20;
  3@0 s=1.standalone c=C x=BASE_C m=80000000 p=7 g=2, 12@1 s=2.broken c=Repha x=RA_TO_BECOME_REPH m=80000010 p=7 g=2,
  32@1 s=2.broken c=C x=PRE_C m=80000010 p=7 g=50, 10@4 s=2.broken c=ZWJ x=PRE_C m=80000010 p=289 g=2,
  13@5 s=2.broken c=C x=BASE_C m=80000000 p=7 g=2, 6@7 s=2.broken c=M x=BELOW_C m=80000010 p=10 g=2;
  3@0 c=C x=BASE_C m=80000000, 32@1 c=C x=PRE_C m=80000010, 10@1 c=ZWJ x=PRE_C m=80000010,
  13@1 c=C x=BASE_C m=80000000, 12@1 c=Repha x=RA_TO_BECOME_REPH m=80000010, 6@7 c=M x=BELOW_C m=80000010
X Ra Ra H; reph=AFTER_SUB rphf=80 before=20 after=10 half=20 pref=40;
  40@0 s=15.non x=END m=80000000 p=13 g=2, 30@1 s=1.consonant c=Ra x=RA_TO_BECOME_REPH m=800000A0 p=7 g=50,
  1@4 s=1.consonant c=Ra x=BASE_C m=80000000 p=7 g=2, 33@6 s=1.consonant c=H x=POST_C m=80000050 p=12 g=50;
  40@0 x=END m=80000000, 33@1 c=H x=POST_C m=80000050, 1@1 c=Ra x=BASE_C m=80000000,
  30@1 c=Ra x=RA_TO_BECOME_REPH m=800000A0
X Ra H ZWNJ V H; reph=BEFORE_POST rphf=40 after=20 pref=10;
  40@0 s=15.non x=END m=80000000 p=29 g=2, 1@1 s=1.consonant c=Ra x=PRE_C m=80000000 p=7 g=2,
  4@3 s=1.consonant c=H x=PRE_C m=80000000 p=12 g=2, 11@4 s=1.consonant c=ZWNJ x=PRE_C m=80000000 p=545 g=2,
  13@7 s=1.consonant c=V x=BASE_C m=80000000 p=7 g=2, 34@8 s=1.consonant c=H x=POST_C m=80000030 p=12 g=50;
  40@0 x=END m=80000000, 1@1 c=Ra x=PRE_C m=80000000, 4@3 c=H x=PRE_C m=80000000, 11@4 c=ZWNJ x=PRE_C m=80000000,
  34@7 c=H x=POST_C m=80000030, 13@7 c=V x=BASE_C m=80000000
Ra CS H CS C; reph=BEFORE_POST rphf=100 before=20 after=B0 pref=40;
  30@0 s=1.consonant c=Ra x=RA_TO_BECOME_REPH m=80000120 p=7 g=50, 13@3 s=1.consonant c=CS x=PRE_C m=80000020 p=7 g=2,
  4@5 s=1.consonant c=H x=PRE_C m=80000020 p=12 g=2, 13@6 s=1.consonant c=CS x=BASE_C m=80000000 p=7 g=2,
  3@7 s=2.vowel c=C x=BASE_C m=80000000 p=7 g=2;
  13@0 c=CS x=PRE_C m=80000020, 4@0 c=H x=PRE_C m=80000020, 30@0 c=Ra x=RA_TO_BECOME_REPH m=80000120,
  13@6 c=CS x=BASE_C m=80000000, 3@7 c=C x=BASE_C m=80000000
X Ra C M M N; reph=BEFORE_POST level=1 rphf=40 after=20 pref=10;
  40@0 s=15.non x=END m=80000000 p=7 g=2, 30@1 s=1.consonant c=Ra x=RA_TO_BECOME_REPH m=80000040 p=7 g=50,
  13@3 s=1.consonant c=C x=BASE_C m=80000000 p=7 g=2, 7@4 s=1.consonant c=M x=AFTER_POST m=80000020 p=12 g=2,
  6@5 s=1.consonant c=M x=AFTER_POST m=80000020 p=10 g=2, 9@6 s=1.consonant c=N x=AFTER_POST m=80000020 p=12 g=2;
  40@0 x=END m=80000000, 13@1 c=C x=BASE_C m=80000000, 7@1 c=M x=AFTER_POST m=80000020,
  6@1 c=M x=AFTER_POST m=80000020, 9@1 c=N x=AFTER_POST m=80000020, 30@1 c=Ra x=RA_TO_BECOME_REPH m=80000040
X M Ra H PLACEHOLDER; reph=AFTER_MAIN before=20 after=130 pref=80 init=40;
  40@0 s=15.non x=END m=80000000 p=12 g=2, 5@1 s=1.consonant c=M x=PRE_M m=80000020 p=10 g=2,
  1@1 s=1.consonant c=Ra x=PRE_C m=80000020 p=7 g=2, 4@1 s=1.consonant c=H x=PRE_C m=80000020 p=12 g=2,
  13@1 s=1.consonant c=PLACEHOLDER x=BASE_C m=80000000 p=7 g=2;
  40@0 x=END m=80000000, 1@1 c=Ra x=PRE_C m=80000020, 4@1 c=H x=PRE_C m=80000020, 5@1 c=M x=PRE_M m=80000020,
  13@1 c=PLACEHOLDER x=BASE_C m=80000000
Ra PLACEHOLDER H Ra H; reph=BEFORE_SUB rphf=100 before=60 after=B0 half=40;
  30@0 s=1.consonant c=Ra x=RA_TO_BECOME_REPH m=80000160 p=7 g=50,
  13@6 s=1.consonant c=PLACEHOLDER x=BASE_C m=80000000 p=7 g=2, 4@8 s=1.consonant c=H x=BASE_C m=800000B0 p=12 g=2,
  1@11 s=2.standalone c=Ra x=BASE_C m=80000000 p=7 g=2, 4@12 s=2.standalone c=H x=BASE_C m=800000B0 p=12 g=2;
  13@0 c=PLACEHOLDER x=BASE_C m=80000000, 4@0 c=H x=BASE_C m=800000B0, 30@0 c=Ra x=RA_TO_BECOME_REPH m=80000160,
  1@11 c=Ra x=BASE_C m=80000000, 4@12 c=H x=BASE_C m=800000B0
X M Ra H ZWJ C; reph=BEFORE_POST rphf=100 before=60 after=30 half=40 init=80;
  40@0 s=15.non x=END m=80000000 p=7 g=2, 5@1 s=1.broken c=M x=PRE_M m=80000060 p=10 g=2,
  1@1 s=1.broken c=Ra x=PRE_C m=80000060 p=7 g=2, 4@1 s=1.broken c=H x=PRE_C m=80000060 p=12 g=2,
  10@1 s=1.broken c=ZWJ x=PRE_C m=80000060 p=289 g=2, 3@1 s=1.broken c=C x=BASE_C m=80000000 p=7 g=2;
  40@0 x=END m=80000000, 1@1 c=Ra x=PRE_C m=80000060, 4@1 c=H x=PRE_C m=80000060, 10@1 c=ZWJ x=PRE_C m=80000060,
  5@1 c=M x=PRE_M m=80000060, 3@1 c=C x=BASE_C m=80000000
X M Ra H CS H ZWNJ C; reph=AFTER_POST after=10;
  40@0 s=15.non x=END m=80000000 p=12 g=2, 5@1 s=1.consonant c=M x=PRE_M m=80000000 p=10 g=2,
  1@1 s=1.consonant c=Ra x=PRE_C m=80000000 p=7 g=2, 4@1 s=1.consonant c=H x=PRE_C m=80000000 p=12 g=2,
  13@1 s=1.consonant c=CS x=PRE_C m=80000000 p=7 g=2, 4@1 s=1.consonant c=H x=PRE_C m=80000000 p=12 g=2,
  11@1 s=1.consonant c=ZWNJ x=PRE_C m=80000000 p=545 g=2, 13@1 s=1.consonant c=C x=BASE_C m=80000000 p=7 g=2;
  40@0 x=END m=80000000, 1@1 c=Ra x=PRE_C m=80000000, 4@1 c=H x=PRE_C m=80000000, 13@1 c=CS x=PRE_C m=80000000,
  4@1 c=H x=PRE_C m=80000000, 11@1 c=ZWNJ x=PRE_C m=80000000, 5@1 c=M x=PRE_M m=80000000, 13@1 c=C x=BASE_C m=80000000
CS H PLACEHOLDER Ra CS H C H; reph=BEFORE_POST level=1 rphf=40 before=10 after=30;
  13@0 s=1.vowel c=CS x=PRE_C m=80000010 p=7 g=2, 4@3 s=1.vowel c=H x=PRE_C m=80000010 p=12 g=2,
  13@4 s=1.vowel c=PLACEHOLDER x=BASE_C m=80000000 p=7 g=2,
  33@7 s=2.consonant c=Ra x=RA_TO_BECOME_REPH m=80000050 p=7 g=50,
  13@11 s=2.consonant c=CS x=BASE_C m=80000000 p=7 g=2, 4@14 s=2.consonant c=H x=BELOW_C m=80000030 p=12 g=2,
  3@15 s=2.consonant c=C x=BELOW_C m=80000030 p=7 g=2, 4@18 s=2.consonant c=H x=BELOW_C m=80000030 p=12 g=2;
  13@0 c=CS x=PRE_C m=80000010, 4@3 c=H x=PRE_C m=80000010, 13@4 c=PLACEHOLDER x=BASE_C m=80000000,
  13@7 c=CS x=BASE_C m=80000000, 4@7 c=H x=BELOW_C m=80000030, 3@7 c=C x=BELOW_C m=80000030,
  4@7 c=H x=BELOW_C m=80000030, 33@7 c=Ra x=RA_TO_BECOME_REPH m=80000050
X Ra CS H C VD CS M; reph=BEFORE_POST level=1 rphf=40 pref=20 init=10;
  40@0 s=15.non x=END m=80000000 p=13 g=2, 30@1 s=1.vowel c=Ra x=RA_TO_BECOME_REPH m=80000040 p=7 g=50,
  13@4 s=1.vowel c=CS x=PRE_C m=80000000 p=7 g=2, 4@5 s=1.vowel c=H x=PRE_C m=80000000 p=12 g=2,
  3@7 s=1.vowel c=C x=BASE_C m=80000000 p=7 g=2, 8@8 s=1.vowel c=VD x=SMVD m=80000000 p=12 g=2,
  13@10 s=2.standalone c=CS x=BASE_C m=80000000 p=7 g=2, 7@12 s=2.standalone c=M x=AFTER_POST m=80000000 p=12 g=2;
  40@0 x=END m=80000000, 13@1 c=CS x=PRE_C m=80000000, 4@1 c=H x=PRE_C m=80000000,
  30@1 c=Ra x=RA_TO_BECOME_REPH m=80000040, 3@7 c=C x=BASE_C m=80000000, 8@8 c=VD x=SMVD m=80000000,
  13@10 c=CS x=BASE_C m=80000000, 7@12 c=M x=AFTER_POST m=80000000
Ra C RS H C C H C; reph=AFTER_POST level=1 rphf=40 before=20 after=30;
  30@0 s=1.consonant c=Ra x=RA_TO_BECOME_REPH m=80000060 p=7 g=50, 13@1 s=1.consonant c=C x=PRE_C m=80000020 p=7 g=2,
  8@2 s=1.consonant c=RS x=PRE_C m=80000020 p=12 g=2, 4@2 s=1.consonant c=H x=PRE_C m=80000020 p=12 g=2,
  35@3 s=1.consonant c=C x=BASE_C m=80000000 p=7 g=50, 2@8 s=2.symbol c=C x=BELOW_C m=80000000 p=7 g=2,
  4@8 s=2.symbol c=H x=END m=80000000 p=12 g=2, 2@10 s=2.symbol c=C x=BELOW_C m=80000000 p=7 g=2;
  13@0 c=C x=PRE_C m=80000020, 8@0 c=RS x=PRE_C m=80000020, 4@0 c=H x=PRE_C m=80000020, 35@0 c=C x=BASE_C m=80000000,
  30@0 c=Ra x=RA_TO_BECOME_REPH m=80000060, 2@8 c=C x=BELOW_C m=80000000, 4@8 c=H x=END m=80000000,
  2@10 c=C x=BELOW_C m=80000000
Ra M N C M Ra H MPst; reph=AFTER_MAIN rphf=80 before=20 after=30 init=40;
  30@0 s=1.consonant c=Ra x=RA_TO_BECOME_REPH m=800000A0 p=7 g=50, 5@2 s=1.consonant c=M x=PRE_M m=80000020 p=10 g=2,
  9@2 s=1.consonant c=N x=PRE_M m=80000020 p=12 g=2, 34@2 s=1.consonant c=C x=BASE_C m=80000000 p=7 g=50,
  6@7 s=1.consonant c=M x=AFTER_SUB m=80000030 p=10 g=2,
  1@8 s=2.standalone c=Ra x=RA_TO_BECOME_REPH m=800000A0 p=7 g=2,
  38@10 s=2.standalone c=H x=RA_TO_BECOME_REPH m=800000A0 p=12 g=50,
  6@12 s=2.standalone c=MPst x=AFTER_POST m=80000030 p=10 g=2;
  5@0 c=M x=PRE_M m=80000060, 9@0 c=N x=PRE_M m=80000020, 34@0 c=C x=BASE_C m=80000000,
  30@0 c=Ra x=RA_TO_BECOME_REPH m=800000A0, 6@7 c=M x=AFTER_SUB m=80000030, 1@8 c=Ra x=RA_TO_BECOME_REPH m=800000A0,
  38@10 c=H x=RA_TO_BECOME_REPH m=800000A0, 6@12 c=MPst x=AFTER_POST m=80000030
M Ra H ZWJ CS RS Repha; reph=AFTER_POST rphf=100 after=30 pref=80 init=40;
  5@0 s=1.standalone c=M x=PRE_M m=80000000 p=10 g=2, 1@0 s=1.standalone c=Ra x=PRE_C m=80000000 p=7 g=2,
  4@0 s=1.standalone c=H x=PRE_C m=80000000 p=12 g=2, 10@0 s=1.standalone c=ZWJ x=PRE_C m=80000000 p=289 g=2,
  13@0 s=1.standalone c=CS x=BASE_C m=80000000 p=7 g=2, 8@0 s=1.standalone c=RS x=BASE_C m=80000030 p=12 g=2,
  12@10 s=2.vowel c=Repha x=PRE_C m=80000000 p=7 g=2;
  1@0 c=Ra x=PRE_C m=80000000, 4@0 c=H x=PRE_C m=80000000, 10@0 c=ZWJ x=PRE_C m=80000000, 5@0 c=M x=PRE_M m=80000000,
  13@0 c=CS x=BASE_C m=80000000, 8@0 c=RS x=BASE_C m=80000030, 12@10 c=Repha x=PRE_C m=80000000
C MPst N H M Ra H CS; reph=BEFORE_POST level=1 rphf=80 after=40 pref=20 init=10;
  3@0 s=1.vowel c=C x=BASE_C m=80000000 p=7 g=2, 6@1 s=1.vowel c=MPst x=BELOW_C m=80000040 p=10 g=2,
  9@1 s=1.vowel c=N x=POST_C m=80000040 p=12 g=2, 33@1 s=1.vowel c=H x=POST_C m=80000060 p=12 g=50,
  6@12 s=1.vowel c=M x=AFTER_POST m=80000040 p=10 g=2, 1@13 s=2.symbol c=Ra x=POST_C m=80000000 p=7 g=2,
  4@16 s=2.symbol c=H x=END m=80000000 p=12 g=2, 13@19 s=2.symbol c=CS x=BASE_C m=80000000 p=7 g=2;
  33@0 c=H x=POST_C m=80000060, 3@0 c=C x=BASE_C m=80000000, 6@0 c=MPst x=BELOW_C m=80000040,
  9@0 c=N x=POST_C m=80000040, 6@12 c=M x=AFTER_POST m=80000040, 1@13 c=Ra x=POST_C m=80000000,
  4@16 c=H x=END m=80000000, 13@19 c=CS x=BASE_C m=80000000
Ra VD M V H PLACEHOLDER H M; reph=AFTER_POST level=1 rphf=80 before=10 after=40 half=10 init=20;
  1@0 s=1.consonant c=Ra x=BASE_C m=80000000 p=7 g=2, 8@3 s=1.consonant c=VD x=SMVD m=80000040 p=12 g=2,
  5@5 s=2.consonant c=M x=PRE_M m=80000010 p=10 g=2, 13@5 s=2.consonant c=V x=PRE_C m=80000010 p=7 g=2,
  4@5 s=2.consonant c=H x=PRE_C m=80000010 p=12 g=2, 13@5 s=2.consonant c=PLACEHOLDER x=BASE_C m=80000000 p=7 g=2,
  4@5 s=2.consonant c=H x=BASE_C m=80000040 p=12 g=2, 6@5 s=2.consonant c=M x=AFTER_SUB m=80000040 p=10 g=2;
  1@0 c=Ra x=BASE_C m=80000000, 8@3 c=VD x=SMVD m=80000040, 13@5 c=V x=PRE_C m=80000010, 4@5 c=H x=PRE_C m=80000010,
  5@5 c=M x=PRE_M m=80000010, 13@5 c=PLACEHOLDER x=BASE_C m=80000000, 4@5 c=H x=BASE_C m=80000040,
  6@5 c=M x=AFTER_SUB m=80000040
M CS H M MPst H M M M; reph=BEFORE_SUB rphf=40 before=10 half=10 init=20;
  5@0 s=1.consonant c=M x=PRE_M m=80000010 p=10 g=2, 13@0 s=1.consonant c=CS x=BASE_C m=80000000 p=7 g=2,
  4@0 s=1.consonant c=H x=BASE_C m=80000000 p=12 g=2, 6@5 s=1.consonant c=M x=AFTER_SUB m=80000000 p=10 g=2,
  7@5 s=1.consonant c=MPst x=AFTER_POST m=80000000 p=12 g=2, 4@5 s=2.symbol c=H x=END m=80000000 p=12 g=2,
  5@9 s=2.symbol c=M x=PRE_M m=80000000 p=10 g=2, 6@11 s=2.symbol c=M x=AFTER_POST m=80000000 p=10 g=2,
  6@13 s=2.symbol c=M x=BEFORE_SUB m=80000000 p=10 g=2;
  5@0 c=M x=PRE_M m=80000030, 13@0 c=CS x=BASE_C m=80000000, 4@0 c=H x=BASE_C m=80000000,
  6@5 c=M x=AFTER_SUB m=80000000, 7@5 c=MPst x=AFTER_POST m=80000000, 4@5 c=H x=END m=80000000,
  5@9 c=M x=PRE_M m=80000000, 6@11 c=M x=AFTER_POST m=80000000, 6@13 c=M x=BEFORE_SUB m=80000000
Ra C H CS C H CS; reph=BEFORE_POST rphf=400 before=60 after=230 half=40 pref=100 init=80;
  30@0 s=1.consonant c=Ra x=RA_TO_BECOME_REPH m=80000460 p=7 g=50, 2@2 s=1.consonant c=C x=PRE_C m=80000060 p=7 g=2,
  4@2 s=1.consonant c=H x=PRE_C m=80000060 p=12 g=2, 13@2 s=1.consonant c=CS x=BASE_C m=80000000 p=7 g=2,
  2@3 s=2.consonant c=C x=PRE_C m=80000060 p=7 g=2, 4@5 s=2.consonant c=H x=PRE_C m=80000060 p=12 g=2,
  13@6 s=2.consonant c=CS x=BASE_C m=80000000 p=7 g=2;
  2@0 c=C x=PRE_C m=80000060, 4@0 c=H x=PRE_C m=80000060, 30@0 c=Ra x=RA_TO_BECOME_REPH m=80000460,
  13@0 c=CS x=BASE_C m=80000000, 2@3 c=C x=PRE_C m=80000060, 4@5 c=H x=PRE_C m=80000060, 13@6 c=CS x=BASE_C m=80000000
M Ra M M H C H C; reph=BEFORE_SUB level=1 before=20 after=110 half=20 pref=80 init=40;
  5@0 s=1.broken c=M x=PRE_M m=80000020 p=10 g=2, 1@0 s=1.broken c=Ra x=BASE_C m=80000000 p=7 g=2,
  6@0 s=1.broken c=M x=AFTER_SUB m=80000110 p=10 g=2, 6@0 s=1.broken c=M x=BEFORE_POST m=80000110 p=10 g=2,
  4@0 s=1.broken c=H x=POST_C m=80000110 p=12 g=2, 3@0 s=1.broken c=C x=POST_C m=80000110 p=7 g=2,
  4@0 s=1.broken c=H x=POST_C m=80000110 p=12 g=2, 13@14 s=2.consonant c=C x=BASE_C m=80000000 p=7 g=2;
  5@0 c=M x=PRE_M m=80000060, 1@0 c=Ra x=BASE_C m=80000000, 6@0 c=M x=AFTER_SUB m=80000110,
  6@0 c=M x=BEFORE_POST m=80000110, 4@0 c=H x=POST_C m=80000110, 3@0 c=C x=POST_C m=80000110,
  4@0 c=H x=POST_C m=80000110, 13@14 c=C x=BASE_C m=80000000
MPst Ra H ZWJ C Ra H PLACEHOLDER M; reph=BEFORE_POST before=20 after=30 init=40;
  5@0 s=1.consonant c=MPst x=PRE_M m=80000020 p=10 g=2, 1@0 s=1.consonant c=Ra x=PRE_C m=80000020 p=7 g=2,
  4@0 s=1.consonant c=H x=PRE_C m=80000020 p=12 g=2, 10@0 s=1.consonant c=ZWJ x=PRE_C m=80000020 p=289 g=2,
  2@0 s=1.consonant c=C x=BASE_C m=80000000 p=7 g=2, 1@10 s=2.standalone c=Ra x=PRE_C m=80000020 p=7 g=2,
  4@12 s=2.standalone c=H x=PRE_C m=80000020 p=12 g=2, 13@15 s=2.standalone c=PLACEHOLDER x=BASE_C m=80000000 p=7 g=2,
  6@15 s=2.standalone c=M x=BEFORE_POST m=80000030 p=10 g=2;
  1@0 c=Ra x=PRE_C m=80000020, 4@0 c=H x=PRE_C m=80000020, 10@0 c=ZWJ x=PRE_C m=80000020,
  5@0 c=MPst x=PRE_M m=80000020, 2@0 c=C x=BASE_C m=80000000, 1@10 c=Ra x=PRE_C m=80000020,
  4@12 c=H x=PRE_C m=80000020, 13@15 c=PLACEHOLDER x=BASE_C m=80000000, 6@15 c=M x=BEFORE_POST m=80000030
MPst V H ZWJ CS C H CM; reph=BEFORE_POST level=1 rphf=200 before=20 after=130 pref=80 init=40;
  5@0 s=1.consonant c=MPst x=PRE_M m=80000020 p=10 g=2, 13@0 s=1.consonant c=V x=PRE_C m=80000020 p=7 g=2,
  4@0 s=1.consonant c=H x=PRE_C m=80000020 p=12 g=2, 10@0 s=1.consonant c=ZWJ x=PRE_C m=80000020 p=289 g=2,
  13@0 s=1.consonant c=CS x=BASE_C m=80000000 p=7 g=2, 2@11 s=2.consonant c=C x=PRE_C m=80000020 p=7 g=2,
  36@14 s=2.consonant c=H x=PRE_C m=80000020 p=12 g=50, 13@18 s=2.consonant c=CM x=PRE_C m=80000020 p=7 g=2;
  13@0 c=V x=PRE_C m=80000020, 4@0 c=H x=PRE_C m=80000020, 10@0 c=ZWJ x=PRE_C m=80000020,
  5@0 c=MPst x=PRE_M m=80000020, 13@0 c=CS x=BASE_C m=80000000, 2@11 c=C x=PRE_C m=80000020,
  36@14 c=H x=PRE_C m=80000020, 13@18 c=CM x=PRE_C m=80000020
MPst Ra H C H CS Ra H MPst; reph=AFTER_MAIN rphf=80 before=30 after=50 half=20;
  5@0 s=1.consonant c=MPst x=PRE_M m=80000030 p=10 g=2, 1@0 s=1.consonant c=Ra x=PRE_C m=80000030 p=7 g=2,
  4@0 s=1.consonant c=H x=PRE_C m=80000030 p=12 g=2, 2@0 s=1.consonant c=C x=PRE_C m=80000030 p=7 g=2,
  4@0 s=1.consonant c=H x=PRE_C m=80000030 p=12 g=2, 13@0 s=1.consonant c=CS x=BASE_C m=80000000 p=7 g=2,
  1@12 s=2.consonant c=Ra x=BASE_C m=80000000 p=7 g=2, 4@12 s=2.consonant c=H x=BASE_C m=80000050 p=12 g=2,
  6@13 s=2.consonant c=MPst x=BELOW_C m=80000050 p=10 g=2;
  1@0 c=Ra x=PRE_C m=80000030, 4@0 c=H x=PRE_C m=80000030, 2@0 c=C x=PRE_C m=80000030, 4@0 c=H x=PRE_C m=80000030,
  5@0 c=MPst x=PRE_M m=80000030, 13@0 c=CS x=BASE_C m=80000000, 1@12 c=Ra x=BASE_C m=80000000,
  4@12 c=H x=BASE_C m=80000050, 6@13 c=MPst x=BELOW_C m=80000050
M Repha Ra H V Repha H M; reph=BEFORE_POST level=1 rphf=100 before=20 after=90 half=20 init=40;
  5@0 s=1.vowel c=M x=PRE_M m=80000020 p=10 g=2, 12@0 s=1.vowel c=Repha x=PRE_C m=80000020 p=7 g=2,
  1@0 s=1.vowel c=Ra x=PRE_C m=80000020 p=7 g=2, 4@0 s=1.vowel c=H x=PRE_C m=80000020 p=12 g=2,
  13@0 s=1.vowel c=V x=BASE_C m=80000000 p=7 g=2, 12@6 s=2.vowel c=Repha x=PRE_C m=80000020 p=7 g=2,
  4@7 s=2.vowel c=H x=PRE_C m=80000020 p=12 g=2, 6@8 s=2.vowel c=M x=PRE_C m=80000020 p=10 g=2;
  12@0 c=Repha x=PRE_C m=80000020, 1@0 c=Ra x=PRE_C m=80000020, 4@0 c=H x=PRE_C m=80000020,
  5@0 c=M x=PRE_M m=80000020, 13@0 c=V x=BASE_C m=80000000, 12@6 c=Repha x=PRE_C m=80000020,
  4@7 c=H x=PRE_C m=80000020, 6@8 c=M x=PRE_C m=80000020
H M M Ra H ZWNJ CS H PLACEHOLDER MPst; reph=AFTER_MAIN level=1 rphf=40 after=10 pref=20;
  4@0 s=1.standalone c=H m=80000000 p=12 g=2, 5@3 s=1.standalone c=M x=PRE_M m=80000000 p=10 g=2,
  7@5 s=1.standalone c=M x=PRE_C m=80000000 p=12 g=2, 1@6 s=2.consonant c=Ra x=PRE_C m=80000000 p=7 g=2,
  4@7 s=2.consonant c=H x=PRE_C m=80000000 p=12 g=2, 11@8 s=2.consonant c=ZWNJ x=PRE_C m=80000000 p=545 g=2,
  13@10 s=2.consonant c=CS x=PRE_C m=80000000 p=7 g=2, 4@13 s=2.consonant c=H x=PRE_C m=80000000 p=12 g=2,
  13@15 s=2.consonant c=PLACEHOLDER x=BASE_C m=80000000 p=7 g=2,
  6@16 s=2.consonant c=MPst x=AFTER_POST m=80000010 p=10 g=2;
  4@0 c=H m=80000000, 5@3 c=M x=PRE_M m=80000000, 7@3 c=M x=PRE_C m=80000000, 1@6 c=Ra x=PRE_C m=80000000,
  4@7 c=H x=PRE_C m=80000000, 11@8 c=ZWNJ x=PRE_C m=80000000, 13@10 c=CS x=PRE_C m=80000000,
  4@13 c=H x=PRE_C m=80000000, 13@15 c=PLACEHOLDER x=BASE_C m=80000000, 6@16 c=MPst x=AFTER_POST m=80000010
CS M M Ra H ZWNJ Ra N H Ra H; reph=BEFORE_POST pref=10;
  13@0 s=1.non c=CS x=BASE_C m=80000000 p=7 g=2, 6@2 s=1.non c=M x=BEFORE_POST m=80000000 p=10 g=2,
  5@3 s=2.standalone c=M x=PRE_M m=80000000 p=10 g=2, 1@3 s=2.standalone c=Ra x=PRE_C m=80000000 p=7 g=2,
  4@3 s=2.standalone c=H x=PRE_C m=80000000 p=12 g=2, 11@3 s=2.standalone c=ZWNJ x=PRE_C m=80000000 p=545 g=2,
  1@3 s=2.standalone c=Ra x=PRE_C m=80000000 p=7 g=2, 9@3 s=2.standalone c=N x=PRE_C m=80000000 p=12 g=2,
  4@3 s=2.standalone c=H x=PRE_C m=80000000 p=12 g=2, 1@3 s=2.standalone c=Ra x=PRE_C m=80000000 p=7 g=2,
  40@3 s=2.standalone c=H x=PRE_C m=80000000 p=12 g=50;
  13@0 c=CS x=BASE_C m=80000000, 6@2 c=M x=BEFORE_POST m=80000000, 1@3 c=Ra x=PRE_C m=80000000,
  4@3 c=H x=PRE_C m=80000000, 11@3 c=ZWNJ x=PRE_C m=80000000, 1@3 c=Ra x=PRE_C m=80000000, 9@3 c=N x=PRE_C m=80000000,
  4@3 c=H x=PRE_C m=80000000, 5@3 c=M x=PRE_M m=80000000, 1@3 c=Ra x=PRE_C m=80000000, 40@3 c=H x=PRE_C m=80000000
X M C H M CS H ZWNJ C; reph=AFTER_MAIN level=1 rphf=100 before=20 after=30 pref=80 init=40;
  40@0 s=15.non x=END m=80000000 p=13 g=2, 5@1 s=1.consonant c=M x=PRE_M m=80000020 p=10 g=2,
  3@1 s=1.consonant c=C x=BASE_C m=80000000 p=7 g=2, 4@1 s=1.consonant c=H x=BASE_C m=80000030 p=12 g=2,
  6@1 s=1.consonant c=M x=AFTER_POST m=80000030 p=10 g=2, 13@9 s=2.broken c=CS x=PRE_C m=80000020 p=7 g=2,
  4@12 s=2.broken c=H x=PRE_C m=80000020 p=12 g=2, 11@13 s=2.broken c=ZWNJ x=PRE_C m=80000020 p=545 g=2,
  2@14 s=2.broken c=C x=BASE_C m=80000000 p=7 g=2;
  40@0 x=END m=80000000, 5@1 c=M x=PRE_M m=80000060, 3@1 c=C x=BASE_C m=80000000, 4@1 c=H x=BASE_C m=80000030,
  6@1 c=M x=AFTER_POST m=80000030, 13@9 c=CS x=PRE_C m=80000020, 4@12 c=H x=PRE_C m=80000020,
  11@13 c=ZWNJ x=PRE_C m=80000020, 2@14 c=C x=BASE_C m=80000000
X CS RS H M M MPst Ra H ZWJ V; reph=AFTER_MAIN level=1 rphf=10;
  40@0 s=15.non x=END m=80000000 p=12 g=2, 13@1 s=1.symbol c=CS x=END m=80000000 p=7 g=2,
  8@4 s=1.symbol c=RS x=END m=80000000 p=12 g=2, 4@6 s=1.symbol c=H x=END m=80000000 p=12 g=2,
  7@7 s=1.symbol c=M x=AFTER_SUB m=80000000 p=12 g=2, 5@8 s=1.symbol c=M x=PRE_M m=80000000 p=10 g=2,
  5@8 s=2.consonant c=MPst x=PRE_M m=80000000 p=10 g=2, 1@8 s=2.consonant c=Ra x=PRE_C m=80000000 p=7 g=2,
  4@8 s=2.consonant c=H x=PRE_C m=80000000 p=12 g=2, 10@8 s=2.consonant c=ZWJ x=PRE_C m=80000000 p=289 g=2,
  13@8 s=2.consonant c=V x=BASE_C m=80000000 p=7 g=2;
  40@0 x=END m=80000000, 13@1 c=CS x=END m=80000000, 8@4 c=RS x=END m=80000000, 4@6 c=H x=END m=80000000,
  7@7 c=M x=AFTER_SUB m=80000000, 5@8 c=M x=PRE_M m=80000000, 1@8 c=Ra x=PRE_C m=80000000, 4@8 c=H x=PRE_C m=80000000,
  10@8 c=ZWJ x=PRE_C m=80000000, 5@8 c=MPst x=PRE_M m=80000000, 13@8 c=V x=BASE_C m=80000000
MPst MPst MPst Ra H ZWNJ C M M; reph=AFTER_POST level=1 rphf=100 before=20 after=10 half=20 pref=80 init=40;
  5@0 s=1.consonant c=MPst x=PRE_M m=80000020 p=10 g=2, 5@0 s=1.consonant c=MPst x=PRE_M m=80000020 p=10 g=2,
  6@2 s=1.consonant c=MPst x=PRE_C m=80000020 p=10 g=2, 1@3 s=2.non c=Ra x=BELOW_C m=80000000 p=7 g=2,
  4@5 s=2.non c=H x=END m=80000000 p=12 g=2, 11@8 s=2.non c=ZWNJ x=END m=80000000 p=545 g=2,
  2@10 s=2.non c=C x=BASE_C m=80000000 p=7 g=2, 7@12 s=2.non c=M x=BEFORE_POST m=80000000 p=12 g=2,
  6@13 s=2.non c=M x=AFTER_POST m=80000000 p=10 g=2;
  5@0 c=MPst x=PRE_M m=80000060, 5@0 c=MPst x=PRE_M m=80000020, 6@0 c=MPst x=PRE_C m=80000020,
  1@3 c=Ra x=BELOW_C m=80000000, 4@5 c=H x=END m=80000000, 11@8 c=ZWNJ x=END m=80000000, 2@10 c=C x=BASE_C m=80000000,
  7@12 c=M x=BEFORE_POST m=80000000, 6@13 c=M x=AFTER_POST m=80000000
Ra H C PLACEHOLDER CM H ZWNJ PLACEHOLDER C H; reph=AFTER_POST level=1 rphf=40 pref=20 init=10;
  1@0 s=1.symbol c=Ra x=POST_C m=80000000 p=7 g=2, 4@1 s=1.symbol c=H x=END m=80000000 p=12 g=2,
  32@4 s=1.symbol c=C x=BASE_C m=80000000 p=7 g=50, 13@10 s=1.symbol c=PLACEHOLDER x=BASE_C m=80000000 p=7 g=2,
  13@10 s=1.symbol c=CM x=END m=80000000 p=7 g=2, 4@11 s=1.symbol c=H x=END m=80000000 p=12 g=2,
  11@12 s=1.symbol c=ZWNJ x=END m=80000000 p=545 g=2, 13@14 s=1.symbol c=PLACEHOLDER x=BASE_C m=80000000 p=7 g=2,
  13@15 s=2.consonant c=C x=BASE_C m=80000000 p=7 g=2, 40@17 s=2.consonant c=H x=POST_C m=80000020 p=12 g=50;
  1@0 c=Ra x=POST_C m=80000000, 4@1 c=H x=END m=80000000, 32@4 c=C x=BASE_C m=80000000,
  13@10 c=PLACEHOLDER x=BASE_C m=80000000, 13@10 c=CM x=END m=80000000, 4@11 c=H x=END m=80000000,
  11@12 c=ZWNJ x=END m=80000000, 13@14 c=PLACEHOLDER x=BASE_C m=80000000, 40@15 c=H x=POST_C m=80000020,
  13@15 c=C x=BASE_C m=80000000
X M M Ra H V H Ra H M; reph=AFTER_POST before=40 after=30 half=40 init=80;
  40@0 s=15.non x=END m=80000000 p=7 g=2, 5@1 s=1.broken c=M x=PRE_M m=80000040 p=10 g=2,
  5@1 s=1.broken c=M x=PRE_M m=80000040 p=10 g=2, 1@1 s=1.broken c=Ra x=PRE_C m=80000040 p=7 g=2,
  4@1 s=1.broken c=H x=PRE_C m=80000040 p=12 g=2, 13@1 s=1.broken c=V x=BASE_C m=80000000 p=7 g=2,
  4@1 s=1.broken c=H x=BELOW_C m=80000030 p=12 g=2, 1@1 s=1.broken c=Ra x=BELOW_C m=80000030 p=7 g=2,
  4@1 s=1.broken c=H x=BELOW_C m=80000030 p=12 g=2, 7@1 s=1.broken c=M x=BELOW_C m=80000030 p=12 g=2;
  40@0 x=END m=80000000, 1@1 c=Ra x=PRE_C m=80000040, 4@1 c=H x=PRE_C m=80000040, 5@1 c=M x=PRE_M m=80000040,
  5@1 c=M x=PRE_M m=80000040, 13@1 c=V x=BASE_C m=80000000, 4@1 c=H x=BELOW_C m=80000030,
  1@1 c=Ra x=BELOW_C m=80000030, 4@1 c=H x=BELOW_C m=80000030, 7@1 c=M x=BELOW_C m=80000030
Ra H ZWJ C H ZWNJ C H Ra PLACEHOLDER N; reph=BEFORE_POST level=1 rphf=20 init=10;
  1@0 s=1.broken c=Ra x=PRE_C m=80000000 p=7 g=2, 4@3 s=1.broken c=H x=PRE_C m=80000000 p=12 g=2,
  10@5 s=1.broken c=ZWJ x=PRE_C m=80000000 p=289 g=2, 13@6 s=1.broken c=C x=PRE_C m=80000000 p=7 g=2,
  4@7 s=1.broken c=H x=PRE_C m=80000000 p=12 g=2, 11@7 s=1.broken c=ZWNJ x=PRE_C m=80000000 p=545 g=2,
  3@9 s=1.broken c=C x=PRE_C m=80000000 p=7 g=2, 37@11 s=1.broken c=H x=PRE_C m=80000000 p=12 g=50,
  39@14 s=2.consonant c=Ra x=RA_TO_BECOME_REPH m=80000020 p=7 g=50,
  13@17 s=2.consonant c=PLACEHOLDER x=BASE_C m=80000000 p=7 g=2, 9@20 s=2.consonant c=N x=BASE_C m=80000000 p=12 g=2;
  1@0 c=Ra x=PRE_C m=80000000, 4@3 c=H x=PRE_C m=80000000, 10@5 c=ZWJ x=PRE_C m=80000000, 13@6 c=C x=PRE_C m=80000000,
  4@7 c=H x=PRE_C m=80000000, 11@7 c=ZWNJ x=PRE_C m=80000000, 3@9 c=C x=PRE_C m=80000000,
  37@11 c=H x=PRE_C m=80000000, 13@14 c=PLACEHOLDER x=BASE_C m=80000000, 9@14 c=N x=BASE_C m=80000000,
  39@14 c=Ra x=RA_TO_BECOME_REPH m=80000020
CS H ZWNJ PLACEHOLDER H ZWJ V Ra CS N; reph=AFTER_POST level=1 rphf=200 before=20 after=110 half=20 pref=80 init=40;
  13@0 s=1.consonant c=CS x=PRE_C m=80000000 p=7 g=2, 4@1 s=1.consonant c=H x=PRE_C m=80000000 p=12 g=2,
  11@2 s=1.consonant c=ZWNJ x=PRE_C m=80000020 p=545 g=2, 13@2 s=1.consonant c=PLACEHOLDER x=PRE_C m=80000020 p=7 g=2,
  4@3 s=1.consonant c=H x=PRE_C m=80000020 p=12 g=2, 10@6 s=1.consonant c=ZWJ x=PRE_C m=80000020 p=289 g=2,
  13@9 s=1.consonant c=V x=BASE_C m=80000000 p=7 g=2,
  37@12 s=2.consonant c=Ra x=RA_TO_BECOME_REPH m=80000220 p=7 g=50,
  13@13 s=2.consonant c=CS x=BASE_C m=80000000 p=7 g=2, 9@13 s=2.consonant c=N x=BASE_C m=80000110 p=12 g=2;
  13@0 c=CS x=PRE_C m=80000000, 4@1 c=H x=PRE_C m=80000000, 11@2 c=ZWNJ x=PRE_C m=80000020,
  13@2 c=PLACEHOLDER x=PRE_C m=80000020, 4@3 c=H x=PRE_C m=80000020, 10@6 c=ZWJ x=PRE_C m=80000020,
  13@9 c=V x=BASE_C m=80000000, 13@12 c=CS x=BASE_C m=80000000, 9@12 c=N x=BASE_C m=80000110,
  37@12 c=Ra x=RA_TO_BECOME_REPH m=80000220
Repha PLACEHOLDER H ZWNJ C H N Ra CS H M; reph=BEFORE_POST rphf=40 after=10 pref=20;
  12@0 s=1.broken c=Repha x=PRE_C m=80000000 p=7 g=2, 13@2 s=1.broken c=PLACEHOLDER x=PRE_C m=80000000 p=7 g=2,
  4@3 s=1.broken c=H x=PRE_C m=80000000 p=12 g=2, 11@5 s=1.broken c=ZWNJ x=PRE_C m=80000000 p=545 g=2,
  13@8 s=1.broken c=C x=BASE_C m=80000000 p=7 g=2, 4@10 s=1.broken c=H x=BASE_C m=80000010 p=12 g=2,
  9@11 s=1.broken c=N x=BASE_C m=80000010 p=12 g=2, 37@13 s=2.consonant c=Ra x=RA_TO_BECOME_REPH m=80000040 p=7 g=50,
  13@17 s=2.consonant c=CS x=PRE_C m=80000000 p=7 g=2, 40@18 s=2.consonant c=H x=PRE_C m=80000000 p=12 g=50,
  6@23 s=2.consonant c=M x=AFTER_SUB m=80000010 p=10 g=2;
  12@0 c=Repha x=PRE_C m=80000000, 13@2 c=PLACEHOLDER x=PRE_C m=80000000, 4@3 c=H x=PRE_C m=80000000,
  11@5 c=ZWNJ x=PRE_C m=80000000, 13@8 c=C x=BASE_C m=80000000, 4@10 c=H x=BASE_C m=80000010,
  9@11 c=N x=BASE_C m=80000010, 13@13 c=CS x=PRE_C m=80000000, 40@13 c=H x=PRE_C m=80000000,
  6@13 c=M x=AFTER_SUB m=80000010, 37@13 c=Ra x=RA_TO_BECOME_REPH m=80000040
H M M MPst C ZWJ CS RS H PLACEHOLDER M; reph=AFTER_POST rphf=80 before=10 after=40 half=10 pref=20;
  4@0 s=1.standalone c=H m=80000010 p=12 g=2, 5@1 s=1.standalone c=M x=PRE_M m=80000010 p=10 g=2,
  6@1 s=1.standalone c=M x=PRE_C m=80000010 p=10 g=2, 6@5 s=1.standalone c=MPst x=PRE_C m=80000010 p=10 g=2,
  34@6 s=2.non c=C x=BASE_C m=80000000 p=7 g=50, 10@8 s=2.non c=ZWJ x=END m=80000000 p=289 g=2,
  13@10 s=2.non c=CS x=END m=80000000 p=7 g=2, 8@11 s=2.non c=RS x=END m=80000000 p=12 g=2,
  4@13 s=2.non c=H x=END m=80000000 p=12 g=2, 13@14 s=2.non c=PLACEHOLDER x=END m=80000000 p=7 g=2,
  6@15 s=2.non c=M x=BELOW_C m=80000000 p=10 g=2;
  4@0 c=H m=80000010, 5@1 c=M x=PRE_M m=80000010, 6@1 c=M x=PRE_C m=80000010, 6@1 c=MPst x=PRE_C m=80000010,
  34@6 c=C x=BASE_C m=80000000, 10@8 c=ZWJ x=END m=80000000, 13@10 c=CS x=END m=80000000, 8@11 c=RS x=END m=80000000,
  4@13 c=H x=END m=80000000, 13@14 c=PLACEHOLDER x=END m=80000000, 6@15 c=M x=BELOW_C m=80000000
M CS M Ra C Ra CM A A N; reph=AFTER_POST rphf=100 before=20 after=90 half=20 pref=40;
  5@0 s=1.standalone c=M x=PRE_M m=80000020 p=10 g=2, 13@0 s=1.standalone c=CS x=BASE_C m=80000000 p=7 g=2,
  6@1 s=1.standalone c=M x=AFTER_SUB m=80000090 p=10 g=2,
  33@2 s=2.consonant c=Ra x=RA_TO_BECOME_REPH m=80000120 p=7 g=50, 35@3 s=2.consonant c=C x=PRE_C m=80000020 p=7 g=50,
  1@7 s=2.consonant c=Ra x=PRE_C m=80000020 p=7 g=2, 13@9 s=2.consonant c=CM x=PRE_C m=80000020 p=7 g=2,
  8@10 s=2.consonant c=A x=SMVD m=80000020 p=12 g=2, 8@10 s=2.consonant c=A x=SMVD m=80000020 p=12 g=2,
  9@11 s=2.consonant c=N x=SMVD m=80000020 p=12 g=2;
  5@0 c=M x=PRE_M m=80000020, 13@0 c=CS x=BASE_C m=80000000, 6@1 c=M x=AFTER_SUB m=80000090,
  35@2 c=C x=PRE_C m=80000020, 1@2 c=Ra x=PRE_C m=80000020, 13@2 c=CM x=PRE_C m=80000020,
  33@2 c=Ra x=RA_TO_BECOME_REPH m=80000120, 8@10 c=A x=SMVD m=80000020, 8@10 c=A x=SMVD m=80000020,
  9@11 c=N x=SMVD m=80000020
X C CM H ZWNJ Ra H V N M H M M MPst; reph=AFTER_MAIN level=1 before=60 after=30 half=40 pref=80;
  40@0 s=15.non x=END m=80000000 p=29 g=2, 3@1 s=1.consonant c=C x=PRE_C m=80000060 p=7 g=2,
  13@4 s=1.consonant c=CM x=PRE_C m=80000020 p=7 g=2, 4@5 s=1.consonant c=H x=PRE_C m=80000020 p=12 g=2,
  11@6 s=1.consonant c=ZWNJ x=PRE_C m=80000060 p=545 g=2, 1@6 s=1.consonant c=Ra x=PRE_C m=80000060 p=7 g=2,
  4@7 s=1.consonant c=H x=PRE_C m=80000060 p=12 g=2, 13@8 s=1.consonant c=V x=BASE_C m=80000000 p=7 g=2,
  9@11 s=1.consonant c=N x=BASE_C m=80000030 p=12 g=2, 6@12 s=1.consonant c=M x=AFTER_POST m=80000030 p=10 g=2,
  4@13 s=2.consonant c=H m=80000060 p=12 g=2, 5@14 s=2.consonant c=M x=PRE_M m=80000060 p=10 g=2,
  6@14 s=2.consonant c=M x=PRE_C m=80000060 p=10 g=2, 7@18 s=2.consonant c=MPst x=PRE_C m=80000060 p=12 g=2;
  40@0 x=END m=80000000, 3@1 c=C x=PRE_C m=80000060, 13@4 c=CM x=PRE_C m=80000020, 4@5 c=H x=PRE_C m=80000020,
  11@6 c=ZWNJ x=PRE_C m=80000060, 1@6 c=Ra x=PRE_C m=80000060, 4@7 c=H x=PRE_C m=80000060,
  13@8 c=V x=BASE_C m=80000000, 9@11 c=N x=BASE_C m=80000030, 6@12 c=M x=AFTER_POST m=80000030, 4@13 c=H m=80000060,
  5@14 c=M x=PRE_M m=80000060, 6@14 c=M x=PRE_C m=80000060, 7@14 c=MPst x=PRE_C m=80000060";
