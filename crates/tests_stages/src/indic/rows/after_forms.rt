//! Syllables after their forms, one in each row.
//!
//! Rows are data: each has its glyphs and its answer whole, however alike two are.

// A name has the categories of the glyphs.
pub(crate) static ROWS: &str = "
# name; options, with where a reph is moved; glyphs; glyphs afterwards
C; reph=AFTER_POST level=1; 3@0 s=1.standalone c=C x=BASE_C m=80000000 p=7 g=2; 3@0 c=C x=BASE_C m=80000000
C; reph=AFTER_MAIN level=1 rphf=20 after=10; 2@0 s=1.consonant c=C x=BASE_C m=80000000 p=7 g=2;
  2@0 c=C x=BASE_C m=80000000
H; reph=AFTER_POST level=1 rphf=20 pref=10; 4@0 s=1.consonant c=H m=80000000 p=12 g=2; 4@0 c=H m=80000000
Repha C; reph=AFTER_POST level=1 before=10 half=10;
  12@0 s=1.symbol c=Repha x=END m=80000000 p=7 g=2, 3@3 s=1.symbol c=C x=BASE_C m=80000000 p=7 g=2;
  12@0 c=Repha x=END m=80000000, 3@3 c=C x=BASE_C m=80000000
MPst; reph=AFTER_MAIN level=1 rphf=40 after=10 init=20; 5@0 s=1.standalone c=MPst x=PRE_M m=80000000 p=10 g=2;
  5@0 c=MPst x=PRE_M m=80000020
Ra ZWJ; reph=AFTER_POST level=1 rphf=20 pref=10;
  30@0 s=1.consonant c=Ra x=RA_TO_BECOME_REPH m=80000020 p=7 g=50,
  10@3 s=1.consonant c=ZWJ x=RA_TO_BECOME_REPH m=80000020 p=289 g=2;
  10@0 c=ZWJ x=RA_TO_BECOME_REPH m=80000020, 30@0 c=Ra x=RA_TO_BECOME_REPH m=80000020
MPst; reph=AFTER_MAIN level=1 after=50 init=20; 5@0 s=1.broken c=MPst x=PRE_M m=80000000 p=10 g=2;
  5@0 c=MPst x=PRE_M m=80000020
Ra H; reph=BEFORE_POST rphf=40 pref=20 init=10;
  1@0 s=1.consonant c=Ra x=BASE_C m=80000000 p=7 g=2, 4@1 s=1.consonant c=H x=BASE_C m=80000000 p=12 g=2;
  1@0 c=Ra x=BASE_C m=80000000, 4@1 c=H x=BASE_C m=80000000
M; reph=BEFORE_POST level=1 rphf=100 before=30 after=90 half=20 init=40;
  5@0 s=1.consonant c=M x=PRE_M m=80000030 p=10 g=2; 5@0 c=M x=PRE_M m=80000070
Ra C H; reph=BEFORE_POST level=1 rphf=10;
  30@0 s=1.consonant c=Ra x=RA_TO_BECOME_REPH m=80000010 p=7 g=50, 13@5 s=1.consonant c=C x=BASE_C m=80000000 p=7 g=2,
  4@5 s=1.consonant c=H x=BASE_C m=80000000 p=12 g=2;
  13@0 c=C x=BASE_C m=80000000, 4@0 c=H x=BASE_C m=80000000, 30@0 c=Ra x=RA_TO_BECOME_REPH m=80000010
PLACEHOLDER H; reph=AFTER_POST rphf=40 before=10 half=10 pref=20;
  13@0 s=1.broken c=PLACEHOLDER x=BASE_C m=80000000 p=7 g=2, 31@1 s=1.broken c=H x=POST_C m=80000020 p=12 g=50;
  31@0 c=H x=POST_C m=80000020, 13@0 c=PLACEHOLDER x=BASE_C m=80000000
Ra H; reph=AFTER_POST level=1 rphf=40 after=10 pref=20;
  1@0 s=1.standalone c=Ra x=BASE_C m=80000000 p=7 g=2, 31@2 s=1.standalone c=H x=POST_C m=80000030 p=12 g=50;
  31@0 c=H x=POST_C m=80000030, 1@0 c=Ra x=BASE_C m=80000000
Ra H RS; reph=BEFORE_POST rphf=10;
  1@0 s=1.broken c=Ra x=RA_TO_BECOME_REPH m=80000010 p=7 g=2,
  31@1 s=1.broken c=H x=RA_TO_BECOME_REPH m=80000010 p=12 g=50, 8@5 s=1.broken c=RS x=BASE_C m=80000000 p=12 g=2;
  1@0 c=Ra x=RA_TO_BECOME_REPH m=80000010, 31@1 c=H x=RA_TO_BECOME_REPH m=80000010, 8@5 c=RS x=BASE_C m=80000000
Ra C; reph=AFTER_SUB level=1 rphf=40 after=30;
  30@0 s=1.consonant c=Ra x=RA_TO_BECOME_REPH m=80000040 p=7 g=50, 2@5 s=1.consonant c=C x=BASE_C m=80000000 p=7 g=2;
  2@0 c=C x=BASE_C m=80000000, 30@0 c=Ra x=RA_TO_BECOME_REPH m=80000040
MPst PLACEHOLDER; reph=AFTER_POST rphf=80 after=30 init=40;
  5@0 s=1.broken c=MPst x=PRE_M m=80000000 p=10 g=2, 13@0 s=1.broken c=PLACEHOLDER x=BASE_C m=80000000 p=7 g=2;
  5@0 c=MPst x=PRE_M m=80000040, 13@0 c=PLACEHOLDER x=BASE_C m=80000000
Repha M; reph=AFTER_MAIN level=1 rphf=80 after=10 pref=40 init=20;
  30@0 s=1.consonant c=Repha x=RA_TO_BECOME_REPH m=80000080 p=7 g=50,
  6@2 s=1.consonant c=M x=BELOW_C m=80000010 p=10 g=2;
  30@0 c=Repha x=RA_TO_BECOME_REPH m=80000080, 6@2 c=M x=BELOW_C m=80000010
C H M; reph=AFTER_POST level=1 rphf=20 after=10;
  13@0 s=1.consonant c=C x=PRE_C m=80000000 p=7 g=2, 31@1 s=1.consonant c=H x=PRE_C m=80000000 p=12 g=50,
  7@2 s=1.consonant c=M x=BEFORE_POST m=80000010 p=12 g=2;
  13@0 c=C x=PRE_C m=80000000, 31@1 c=H x=PRE_C m=80000000, 7@2 c=M x=BEFORE_POST m=80000010
Repha N; reph=AFTER_MAIN level=1 rphf=80 before=20 after=30 pref=40;
  30@0 s=1.vowel c=Repha x=RA_TO_BECOME_REPH m=800000A0 p=7 g=50, 9@0 s=1.vowel c=N x=BASE_C m=80000030 p=12 g=2;
  9@0 c=N x=BASE_C m=80000030, 30@0 c=Repha x=RA_TO_BECOME_REPH m=800000A0
Ra M H; reph=BEFORE_SUB after=40 pref=20 init=10;
  1@0 s=1.broken c=Ra x=BASE_C m=80000000 p=7 g=2, 7@1 s=1.broken c=M x=AFTER_MAIN m=80000040 p=12 g=2,
  32@1 s=1.broken c=H x=POST_C m=80000060 p=12 g=50;
  32@0 c=H x=POST_C m=80000060, 1@0 c=Ra x=BASE_C m=80000000, 7@0 c=M x=AFTER_MAIN m=80000040
Ra M C; reph=AFTER_POST level=1 rphf=40 after=20 init=10;
  30@0 s=1.standalone c=Ra x=RA_TO_BECOME_REPH m=80000040 p=7 g=50,
  5@4 s=1.standalone c=M x=PRE_M m=80000000 p=10 g=2, 2@4 s=1.standalone c=C x=BASE_C m=80000000 p=7 g=2;
  5@0 c=M x=PRE_M m=80000010, 2@0 c=C x=BASE_C m=80000000, 30@0 c=Ra x=RA_TO_BECOME_REPH m=80000040
Repha H V; reph=AFTER_MAIN rphf=40 before=30 after=10 half=20;
  30@0 s=1.consonant c=Repha x=RA_TO_BECOME_REPH m=80000070 p=7 g=50,
  4@3 s=1.consonant c=H x=PRE_C m=80000030 p=12 g=2, 13@3 s=1.consonant c=V x=BASE_C m=80000000 p=7 g=2;
  4@0 c=H x=PRE_C m=80000030, 30@0 c=Repha x=RA_TO_BECOME_REPH m=80000070, 13@0 c=V x=BASE_C m=80000000
M Repha C; reph=AFTER_SUB level=1 rphf=40 before=10 after=10 init=20;
  5@0 s=1.consonant c=M x=PRE_M m=80000010 p=10 g=2, 12@0 s=1.consonant c=Repha x=PRE_C m=80000010 p=7 g=2,
  13@0 s=1.consonant c=C x=BASE_C m=80000000 p=7 g=2;
  5@0 c=M x=PRE_M m=80000030, 12@0 c=Repha x=PRE_C m=80000010, 13@0 c=C x=BASE_C m=80000000
Ra ZWJ M; reph=AFTER_POST rphf=80 before=20 after=10 half=20 init=40;
  30@0 s=1.vowel c=Ra x=RA_TO_BECOME_REPH m=800000A0 p=7 g=50,
  32@5 s=1.vowel c=ZWJ x=RA_TO_BECOME_REPH m=800000A0 p=289 g=50, 7@7 s=1.vowel c=M x=BEFORE_SUB m=80000010 p=12 g=2;
  32@0 c=ZWJ x=RA_TO_BECOME_REPH m=800000A0, 7@0 c=M x=BEFORE_SUB m=80000010, 30@0 c=Ra x=RA_TO_BECOME_REPH m=800000A0
Ra CS M VD; reph=AFTER_POST rphf=40 before=10 after=10 init=20;
  30@0 s=1.consonant c=Ra x=RA_TO_BECOME_REPH m=80000050 p=7 g=50,
  13@4 s=1.consonant c=CS x=BASE_C m=80000000 p=7 g=2, 6@4 s=1.consonant c=M x=AFTER_POST m=80000010 p=10 g=2,
  8@6 s=1.consonant c=VD x=SMVD m=80000010 p=12 g=2;
  13@0 c=CS x=BASE_C m=80000000, 6@0 c=M x=AFTER_POST m=80000010, 30@0 c=Ra x=RA_TO_BECOME_REPH m=80000050,
  8@6 c=VD x=SMVD m=80000010
M Repha H M; reph=AFTER_SUB rphf=20 before=10 after=10;
  5@0 s=1.consonant c=M x=PRE_M m=80000010 p=10 g=2, 12@0 s=1.consonant c=Repha x=PRE_C m=80000010 p=7 g=2,
  4@0 s=1.consonant c=H x=PRE_C m=80000010 p=12 g=2, 6@0 s=1.consonant c=M x=PRE_C m=80000010 p=10 g=2;
  12@0 c=Repha x=PRE_C m=80000010, 4@0 c=H x=PRE_C m=80000010, 5@0 c=M x=PRE_M m=80000010, 6@0 c=M x=PRE_C m=80000010
Ra ZWJ; reph=AFTER_POST rphf=100 after=90 pref=40 init=20;
  30@0 s=1.consonant c=Ra x=RA_TO_BECOME_REPH m=80000100 p=7 g=50,
  32@2 s=1.consonant c=ZWJ x=RA_TO_BECOME_REPH m=80000100 p=289 g=50;
  32@0 c=ZWJ x=RA_TO_BECOME_REPH m=80000100, 30@0 c=Ra x=RA_TO_BECOME_REPH m=80000100
Ra PLACEHOLDER H C; reph=AFTER_SUB level=1 rphf=40 pref=20 init=10;
  30@0 s=1.broken c=Ra x=RA_TO_BECOME_REPH m=80000040 p=7 g=50,
  13@2 s=1.broken c=PLACEHOLDER x=PRE_C m=80000000 p=7 g=2, 4@4 s=1.broken c=H x=PRE_C m=80000000 p=12 g=2,
  2@6 s=1.broken c=C x=BASE_C m=80000000 p=7 g=2;
  13@0 c=PLACEHOLDER x=PRE_C m=80000000, 4@0 c=H x=PRE_C m=80000000, 30@0 c=Ra x=RA_TO_BECOME_REPH m=80000040,
  2@6 c=C x=BASE_C m=80000000
Ra V H; reph=AFTER_SUB rphf=100 before=60 after=30 half=40 pref=80;
  30@0 s=1.standalone c=Ra x=RA_TO_BECOME_REPH m=80000160 p=7 g=50,
  13@4 s=1.standalone c=V x=BASE_C m=80000000 p=7 g=2, 33@5 s=1.standalone c=H x=BELOW_C m=800000B0 p=12 g=50;
  33@0 c=H x=BELOW_C m=800000B0, 13@0 c=V x=BASE_C m=80000000, 30@0 c=Ra x=RA_TO_BECOME_REPH m=80000160
Ra V N; reph=AFTER_MAIN level=1 rphf=100 before=10 after=90 pref=40 init=20;
  30@0 s=1.consonant c=Ra x=RA_TO_BECOME_REPH m=80000110 p=7 g=50, 13@4 s=1.consonant c=V x=BASE_C m=80000000 p=7 g=2,
  9@5 s=1.consonant c=N x=BASE_C m=80000090 p=12 g=2;
  13@0 c=V x=BASE_C m=80000000, 9@0 c=N x=BASE_C m=80000090, 30@0 c=Ra x=RA_TO_BECOME_REPH m=80000110
Repha N H Ra CM; reph=AFTER_MAIN level=1 pref=10;
  30@0 s=1.standalone c=Repha x=RA_TO_BECOME_REPH m=80000000 p=7 g=50,
  9@4 s=1.standalone c=N x=PRE_C m=80000000 p=12 g=2, 4@7 s=1.standalone c=H x=PRE_C m=80000000 p=12 g=2,
  1@9 s=1.standalone c=Ra x=PRE_C m=80000000 p=7 g=2, 13@10 s=1.standalone c=CM x=PRE_C m=80000000 p=7 g=2;
  9@0 c=N x=PRE_C m=80000000, 4@0 c=H x=PRE_C m=80000000, 30@0 c=Repha x=RA_TO_BECOME_REPH m=80000000,
  1@9 c=Ra x=PRE_C m=80000000, 13@10 c=CM x=PRE_C m=80000000
Ra CS M; reph=BEFORE_POST level=1 rphf=80 before=10 half=10 pref=40 init=20;
  30@0 s=1.consonant c=Ra x=RA_TO_BECOME_REPH m=80000090 p=7 g=50,
  13@2 s=1.consonant c=CS x=BASE_C m=80000000 p=7 g=2, 6@4 s=1.consonant c=M x=BEFORE_SUB m=80000000 p=10 g=2;
  13@0 c=CS x=BASE_C m=80000000, 6@0 c=M x=BEFORE_SUB m=80000000, 30@0 c=Ra x=RA_TO_BECOME_REPH m=80000090
Ra PLACEHOLDER H ZWNJ C; reph=AFTER_SUB level=1 rphf=10;
  30@0 s=1.consonant c=Ra x=RA_TO_BECOME_REPH m=80000010 p=7 g=50,
  13@4 s=1.consonant c=PLACEHOLDER x=BASE_C m=80000000 p=7 g=2, 4@6 s=1.consonant c=H x=BELOW_C m=80000000 p=12 g=2,
  11@9 s=1.consonant c=ZWNJ x=BELOW_C m=80000000 p=545 g=2, 2@10 s=1.consonant c=C x=BELOW_C m=80000000 p=7 g=2;
  13@0 c=PLACEHOLDER x=BASE_C m=80000000, 4@0 c=H x=BELOW_C m=80000000, 11@0 c=ZWNJ x=BELOW_C m=80000000,
  2@0 c=C x=BELOW_C m=80000000, 30@0 c=Ra x=RA_TO_BECOME_REPH m=80000010
Ra C CS M; reph=BEFORE_SUB level=1 rphf=40 before=20 after=10 half=20;
  30@0 s=1.broken c=Ra x=RA_TO_BECOME_REPH m=80000060 p=7 g=50, 32@2 s=1.broken c=C x=PRE_C m=80000020 p=7 g=50,
  13@6 s=1.broken c=CS x=BASE_C m=80000000 p=7 g=2, 7@7 s=1.broken c=M x=AFTER_MAIN m=80000010 p=12 g=2;
  32@0 c=C x=PRE_C m=80000020, 13@0 c=CS x=BASE_C m=80000000, 7@0 c=M x=AFTER_MAIN m=80000010,
  30@0 c=Ra x=RA_TO_BECOME_REPH m=80000060
Repha Ra M MPst; reph=AFTER_MAIN before=10 after=50 init=20;
  30@0 s=1.vowel c=Repha x=RA_TO_BECOME_REPH m=80000010 p=7 g=50, 1@1 s=1.vowel c=Ra x=BASE_C m=80000000 p=7 g=2,
  7@1 s=1.vowel c=M x=BEFORE_SUB m=80000050 p=12 g=2, 6@1 s=1.vowel c=MPst x=BELOW_C m=80000050 p=10 g=2;
  1@0 c=Ra x=BASE_C m=80000000, 30@0 c=Repha x=RA_TO_BECOME_REPH m=80000010, 7@0 c=M x=BEFORE_SUB m=80000050,
  6@0 c=MPst x=BELOW_C m=80000050
Repha Ra M; reph=AFTER_MAIN rphf=100 before=60 after=B0 half=40;
  12@0 s=1.consonant c=Repha x=RA_TO_BECOME_REPH m=80000160 p=7 g=2,
  1@1 s=1.consonant c=Ra x=BASE_C m=80000000 p=7 g=2, 6@2 s=1.consonant c=M x=BEFORE_POST m=800000B0 p=10 g=2;
  1@0 c=Ra x=BASE_C m=80000000, 12@0 c=Repha x=RA_TO_BECOME_REPH m=80000160, 6@2 c=M x=BEFORE_POST m=800000B0
MPst Ra H H M; reph=AFTER_POST rphf=40 after=20 init=10;
  5@0 s=1.consonant c=MPst x=PRE_M m=80000000 p=10 g=2, 1@0 s=1.consonant c=Ra x=BASE_C m=80000000 p=7 g=2,
  4@0 s=1.consonant c=H x=BASE_C m=80000020 p=12 g=2, 4@0 s=1.consonant c=H x=BASE_C m=80000020 p=12 g=2,
  6@0 s=1.consonant c=M x=BEFORE_POST m=80000020 p=10 g=2;
  5@0 c=MPst x=PRE_M m=80000010, 1@0 c=Ra x=BASE_C m=80000000, 4@0 c=H x=BASE_C m=80000020,
  4@0 c=H x=BASE_C m=80000020, 6@0 c=M x=BEFORE_POST m=80000020
Ra C M; reph=AFTER_MAIN level=1 rphf=200 before=20 after=130 pref=80 init=40;
  30@0 s=1.standalone c=Ra x=RA_TO_BECOME_REPH m=80000220 p=7 g=50,
  2@2 s=1.standalone c=C x=BASE_C m=80000000 p=7 g=2, 6@2 s=1.standalone c=M x=AFTER_MAIN m=80000130 p=10 g=2;
  2@0 c=C x=BASE_C m=80000000, 6@0 c=M x=AFTER_MAIN m=80000130, 30@0 c=Ra x=RA_TO_BECOME_REPH m=80000220
Ra CS H PLACEHOLDER; reph=AFTER_MAIN rphf=80 before=20 after=30 pref=40;
  30@0 s=1.consonant c=Ra x=RA_TO_BECOME_REPH m=800000A0 p=7 g=50, 13@2 s=1.consonant c=CS x=PRE_C m=80000020 p=7 g=2,
  4@5 s=1.consonant c=H x=PRE_C m=80000020 p=12 g=2, 13@7 s=1.consonant c=PLACEHOLDER x=BASE_C m=80000000 p=7 g=2;
  13@0 c=CS x=PRE_C m=80000020, 4@0 c=H x=PRE_C m=80000020, 30@0 c=Ra x=RA_TO_BECOME_REPH m=800000A0,
  13@7 c=PLACEHOLDER x=BASE_C m=80000000
M M M; reph=AFTER_SUB level=1 rphf=200 before=30 after=110 half=20 pref=80 init=40;
  5@0 s=1.vowel c=M x=PRE_M m=80000030 p=10 g=2, 7@0 s=1.vowel c=M x=PRE_C m=80000030 p=12 g=2,
  7@2 s=1.vowel c=M x=PRE_C m=80000030 p=12 g=2;
  5@0 c=M x=PRE_M m=80000070, 7@0 c=M x=PRE_C m=80000030, 7@0 c=M x=PRE_C m=80000030
Ra M C H Ra; reph=AFTER_POST rphf=40 after=10 init=20;
  30@0 s=1.consonant c=Ra x=RA_TO_BECOME_REPH m=80000040 p=7 g=50, 5@3 s=1.consonant c=M x=PRE_M m=80000000 p=10 g=2,
  13@3 s=1.consonant c=C x=PRE_C m=80000000 p=7 g=2, 4@3 s=1.consonant c=H x=PRE_C m=80000000 p=12 g=2,
  1@3 s=1.consonant c=Ra x=BASE_C m=80000000 p=7 g=2;
  13@0 c=C x=PRE_C m=80000000, 4@0 c=H x=PRE_C m=80000000, 5@0 c=M x=PRE_M m=80000000, 1@0 c=Ra x=BASE_C m=80000000,
  30@0 c=Ra x=RA_TO_BECOME_REPH m=80000040
Ra V H RS; reph=AFTER_SUB level=1 rphf=80 before=20 after=10 half=20 pref=40;
  30@0 s=1.consonant c=Ra x=RA_TO_BECOME_REPH m=800000A0 p=7 g=50, 13@1 s=1.consonant c=V x=PRE_C m=80000020 p=7 g=2,
  33@4 s=1.consonant c=H x=PRE_C m=80000020 p=12 g=50, 8@6 s=1.consonant c=RS x=BASE_C m=80000010 p=12 g=2;
  13@0 c=V x=PRE_C m=80000020, 33@0 c=H x=PRE_C m=80000020, 8@0 c=RS x=BASE_C m=80000010,
  30@0 c=Ra x=RA_TO_BECOME_REPH m=800000A0
MPst Ra H ZWJ CS; reph=AFTER_POST rphf=40 after=20 init=10;
  5@0 s=1.consonant c=MPst x=PRE_M m=80000000 p=10 g=2, 1@0 s=1.consonant c=Ra x=PRE_C m=80000000 p=7 g=2,
  4@0 s=1.consonant c=H x=PRE_C m=80000000 p=12 g=2, 10@0 s=1.consonant c=ZWJ x=PRE_C m=80000000 p=289 g=2,
  13@0 s=1.consonant c=CS x=BASE_C m=80000000 p=7 g=2;
  1@0 c=Ra x=PRE_C m=80000000, 4@0 c=H x=PRE_C m=80000000, 10@0 c=ZWJ x=PRE_C m=80000000,
  5@0 c=MPst x=PRE_M m=80000000, 13@0 c=CS x=BASE_C m=80000000
M CS H Ra; reph=AFTER_SUB rphf=200 before=20 after=110 half=20 pref=80 init=40;
  5@0 s=1.vowel c=M x=PRE_M m=80000020 p=10 g=2, 13@0 s=1.vowel c=CS x=PRE_C m=80000020 p=7 g=2,
  4@0 s=1.vowel c=H x=PRE_C m=80000020 p=12 g=2, 1@0 s=1.vowel c=Ra x=BASE_C m=80000000 p=7 g=2;
  13@0 c=CS x=PRE_C m=80000020, 4@0 c=H x=PRE_C m=80000020, 5@0 c=M x=PRE_M m=80000020, 1@0 c=Ra x=BASE_C m=80000000
M PLACEHOLDER H ZWJ C; reph=AFTER_POST level=1 rphf=80 after=50 init=20;
  5@0 s=1.consonant c=M x=PRE_M m=80000000 p=10 g=2, 13@0 s=1.consonant c=PLACEHOLDER x=PRE_C m=80000000 p=7 g=2,
  4@0 s=1.consonant c=H x=PRE_C m=80000000 p=12 g=2, 10@0 s=1.consonant c=ZWJ x=PRE_C m=80000000 p=289 g=2,
  3@0 s=1.consonant c=C x=BASE_C m=80000000 p=7 g=2;
  13@0 c=PLACEHOLDER x=PRE_C m=80000000, 4@0 c=H x=PRE_C m=80000000, 10@0 c=ZWJ x=PRE_C m=80000000,
  5@0 c=M x=PRE_M m=80000000, 3@0 c=C x=BASE_C m=80000000
Repha CS M H; reph=AFTER_MAIN level=1 rphf=200 before=20 after=130 pref=80 init=40;
  12@0 s=1.consonant c=Repha x=PRE_C m=80000020 p=7 g=2, 13@2 s=1.consonant c=CS x=BASE_C m=80000000 p=7 g=2,
  7@5 s=1.consonant c=M x=BEFORE_POST m=80000130 p=12 g=2, 33@5 s=1.consonant c=H x=POST_C m=800001B0 p=12 g=50;
  12@0 c=Repha x=PRE_C m=80000020, 33@2 c=H x=POST_C m=800001B0, 13@2 c=CS x=BASE_C m=80000000,
  7@2 c=M x=BEFORE_POST m=80000130
Ra V RS M M; reph=AFTER_SUB level=1 rphf=40 before=10 after=10 pref=20;
  30@0 s=1.consonant c=Ra x=RA_TO_BECOME_REPH m=80000050 p=7 g=50, 13@2 s=1.consonant c=V x=BASE_C m=80000000 p=7 g=2,
  8@5 s=1.consonant c=RS x=BASE_C m=80000010 p=12 g=2, 7@6 s=1.consonant c=M x=AFTER_SUB m=80000010 p=12 g=2,
  7@7 s=1.consonant c=M x=AFTER_POST m=80000010 p=12 g=2;
  13@0 c=V x=BASE_C m=80000000, 8@0 c=RS x=BASE_C m=80000010, 7@0 c=M x=AFTER_SUB m=80000010,
  30@0 c=Ra x=RA_TO_BECOME_REPH m=80000050, 7@7 c=M x=AFTER_POST m=80000010
Ra C N H A; reph=AFTER_SUB rphf=80 before=30 after=50 half=20;
  30@0 s=1.vowel c=Ra x=RA_TO_BECOME_REPH m=800000B0 p=7 g=50, 2@1 s=1.vowel c=C x=BASE_C m=80000000 p=7 g=2,
  9@2 s=1.vowel c=N x=BASE_C m=80000050 p=12 g=2, 4@4 s=1.vowel c=H x=BASE_C m=80000050 p=12 g=2,
  8@5 s=1.vowel c=A x=SMVD m=80000050 p=12 g=2;
  2@0 c=C x=BASE_C m=80000000, 9@0 c=N x=BASE_C m=80000050, 4@0 c=H x=BASE_C m=80000050,
  30@0 c=Ra x=RA_TO_BECOME_REPH m=800000B0, 8@5 c=A x=SMVD m=80000050
M M Ra H ZWJ Ra; reph=BEFORE_POST pref=20 init=10;
  5@0 s=1.consonant c=M x=PRE_M m=80000000 p=10 g=2, 5@0 s=1.consonant c=M x=PRE_M m=80000000 p=10 g=2,
  1@0 s=1.consonant c=Ra x=PRE_C m=80000000 p=7 g=2, 4@0 s=1.consonant c=H x=PRE_C m=80000000 p=12 g=2,
  10@0 s=1.consonant c=ZWJ x=PRE_C m=80000000 p=289 g=2, 1@0 s=1.consonant c=Ra x=BASE_C m=80000000 p=7 g=2;
  1@0 c=Ra x=PRE_C m=80000000, 4@0 c=H x=PRE_C m=80000000, 10@0 c=ZWJ x=PRE_C m=80000000, 5@0 c=M x=PRE_M m=80000000,
  5@0 c=M x=PRE_M m=80000000, 1@0 c=Ra x=BASE_C m=80000000
Ra C MPst VD N; reph=AFTER_POST level=1 rphf=40 before=10 after=20 half=10;
  30@0 s=1.consonant c=Ra x=RA_TO_BECOME_REPH m=80000050 p=7 g=50, 2@6 s=1.consonant c=C x=BASE_C m=80000000 p=7 g=2,
  6@7 s=1.consonant c=MPst x=BEFORE_SUB m=80000020 p=10 g=2, 8@7 s=1.consonant c=VD x=SMVD m=80000020 p=12 g=2,
  9@7 s=1.consonant c=N x=SMVD m=80000020 p=12 g=2;
  2@0 c=C x=BASE_C m=80000000, 6@0 c=MPst x=BEFORE_SUB m=80000020, 30@0 c=Ra x=RA_TO_BECOME_REPH m=80000050,
  8@0 c=VD x=SMVD m=80000020, 9@0 c=N x=SMVD m=80000020
Ra C RS H C SM; reph=BEFORE_POST level=1 rphf=40 before=30 after=10 half=20;
  30@0 s=1.standalone c=Ra x=RA_TO_BECOME_REPH m=80000070 p=7 g=50,
  2@4 s=1.standalone c=C x=BASE_C m=80000000 p=7 g=2, 8@4 s=1.standalone c=RS x=BELOW_C m=80000010 p=12 g=2,
  4@5 s=1.standalone c=H x=BELOW_C m=80000010 p=12 g=2, 2@7 s=1.standalone c=C x=BELOW_C m=80000010 p=7 g=2,
  8@9 s=1.standalone c=SM x=SMVD m=80000010 p=12 g=2;
  2@0 c=C x=BASE_C m=80000000, 8@0 c=RS x=BELOW_C m=80000010, 4@0 c=H x=BELOW_C m=80000010,
  2@0 c=C x=BELOW_C m=80000010, 30@0 c=Ra x=RA_TO_BECOME_REPH m=80000070, 8@9 c=SM x=SMVD m=80000010
Ra Ra H ZWJ V H; reph=BEFORE_POST rphf=20 after=10;
  30@0 s=1.broken c=Ra x=RA_TO_BECOME_REPH m=80000020 p=7 g=50, 1@0 s=1.broken c=Ra x=PRE_C m=80000000 p=7 g=2,
  4@1 s=1.broken c=H x=PRE_C m=80000000 p=12 g=2, 10@2 s=1.broken c=ZWJ x=PRE_C m=80000000 p=289 g=2,
  13@3 s=1.broken c=V x=BASE_C m=80000000 p=7 g=2, 36@5 s=1.broken c=H x=BELOW_C m=80000010 p=12 g=50;
  1@0 c=Ra x=PRE_C m=80000000, 4@0 c=H x=PRE_C m=80000000, 10@0 c=ZWJ x=PRE_C m=80000000,
  30@0 c=Ra x=RA_TO_BECOME_REPH m=80000020, 13@3 c=V x=BASE_C m=80000000, 36@5 c=H x=BELOW_C m=80000010
M Repha PLACEHOLDER M; reph=AFTER_POST rphf=200 before=40 after=30 half=40 pref=100 init=80;
  5@0 s=1.consonant c=M x=PRE_M m=80000040 p=10 g=2, 12@0 s=1.consonant c=Repha x=PRE_C m=80000040 p=7 g=2,
  13@0 s=1.consonant c=PLACEHOLDER x=BASE_C m=80000000 p=7 g=2, 7@4 s=1.consonant c=M x=AFTER_SUB m=80000030 p=12 g=2;
  5@0 c=M x=PRE_M m=800000C0, 12@0 c=Repha x=PRE_C m=80000040, 13@0 c=PLACEHOLDER x=BASE_C m=80000000,
  7@4 c=M x=AFTER_SUB m=80000030
M Ra H C MPst M; reph=AFTER_MAIN level=1 rphf=20 before=10 half=10;
  5@0 s=1.standalone c=M x=PRE_M m=80000010 p=10 g=2, 1@0 s=1.standalone c=Ra x=PRE_C m=80000010 p=7 g=2,
  4@0 s=1.standalone c=H x=PRE_C m=80000010 p=12 g=2, 33@0 s=1.standalone c=C x=BASE_C m=80000000 p=7 g=50,
  7@0 s=1.standalone c=MPst x=AFTER_MAIN m=80000000 p=12 g=2, 7@0 s=1.standalone c=M x=AFTER_SUB m=80000000 p=12 g=2;
  1@0 c=Ra x=PRE_C m=80000010, 4@0 c=H x=PRE_C m=80000010, 5@0 c=M x=PRE_M m=80000010, 33@0 c=C x=BASE_C m=80000000,
  7@0 c=MPst x=AFTER_MAIN m=80000000, 7@0 c=M x=AFTER_SUB m=80000000
Ra H M C M; reph=BEFORE_SUB level=1 rphf=80 after=10 pref=40 init=20;
  1@0 s=1.consonant c=Ra x=RA_TO_BECOME_REPH m=80000080 p=7 g=2,
  4@2 s=1.consonant c=H x=RA_TO_BECOME_REPH m=80000080 p=12 g=2, 5@3 s=1.consonant c=M x=PRE_M m=80000000 p=10 g=2,
  13@3 s=1.consonant c=C x=BASE_C m=80000000 p=7 g=2, 7@3 s=1.consonant c=M x=BEFORE_SUB m=80000010 p=12 g=2;
  1@0 c=Ra x=RA_TO_BECOME_REPH m=80000080, 4@2 c=H x=RA_TO_BECOME_REPH m=80000080, 5@3 c=M x=PRE_M m=80000000,
  13@3 c=C x=BASE_C m=80000000, 7@3 c=M x=BEFORE_SUB m=80000010
M C H H PLACEHOLDER; reph=AFTER_POST level=1 rphf=80 before=10 after=50 pref=20;
  5@0 s=1.broken c=M x=PRE_M m=80000010 p=10 g=2, 2@0 s=1.broken c=C x=PRE_C m=80000010 p=7 g=2,
  32@0 s=1.broken c=H x=PRE_C m=80000010 p=12 g=50, 4@0 s=1.broken c=H x=PRE_C m=80000010 p=12 g=2,
  13@0 s=1.broken c=PLACEHOLDER x=BASE_C m=80000000 p=7 g=2;
  2@0 c=C x=PRE_C m=80000010, 32@0 c=H x=PRE_C m=80000010, 4@0 c=H x=PRE_C m=80000010, 5@0 c=M x=PRE_M m=80000010,
  13@0 c=PLACEHOLDER x=BASE_C m=80000000
Repha H CS H ZWNJ C; reph=AFTER_MAIN before=30 after=10 half=20 pref=40;
  30@0 s=1.vowel c=Repha x=RA_TO_BECOME_REPH m=80000030 p=7 g=50, 4@2 s=1.vowel c=H x=PRE_C m=80000030 p=12 g=2,
  13@4 s=1.vowel c=CS x=BASE_C m=80000000 p=7 g=2, 4@5 s=1.vowel c=H x=BELOW_C m=80000010 p=12 g=2,
  11@6 s=1.vowel c=ZWNJ x=BELOW_C m=80000010 p=545 g=2, 2@6 s=1.vowel c=C x=BELOW_C m=80000010 p=7 g=2;
  4@0 c=H x=PRE_C m=80000030, 30@0 c=Repha x=RA_TO_BECOME_REPH m=80000030, 13@4 c=CS x=BASE_C m=80000000,
  4@5 c=H x=BELOW_C m=80000010, 11@6 c=ZWNJ x=BELOW_C m=80000010, 2@6 c=C x=BELOW_C m=80000010
Repha M C H CS M MPst; reph=AFTER_MAIN init=10;
  12@0 s=1.vowel c=Repha x=RA_TO_BECOME_REPH m=80000000 p=7 g=2, 5@1 s=1.vowel c=M x=PRE_M m=80000000 p=10 g=2,
  13@1 s=1.vowel c=C x=PRE_C m=80000000 p=7 g=2, 4@1 s=1.vowel c=H x=PRE_C m=80000000 p=12 g=2,
  13@1 s=1.vowel c=CS x=BASE_C m=80000000 p=7 g=2, 6@1 s=1.vowel c=M x=AFTER_MAIN m=80000000 p=10 g=2,
  7@1 s=1.vowel c=MPst x=AFTER_POST m=80000000 p=12 g=2;
  13@0 c=C x=PRE_C m=80000000, 4@0 c=H x=PRE_C m=80000000, 12@0 c=Repha x=RA_TO_BECOME_REPH m=80000000,
  5@0 c=M x=PRE_M m=80000000, 13@0 c=CS x=BASE_C m=80000000, 6@0 c=M x=AFTER_MAIN m=80000000,
  7@0 c=MPst x=AFTER_POST m=80000000
Ra M Ra H N M; reph=BEFORE_SUB level=1 rphf=80 before=20 after=10 half=20 pref=40;
  30@0 s=1.consonant c=Ra x=RA_TO_BECOME_REPH m=800000A0 p=7 g=50, 5@3 s=1.consonant c=M x=PRE_M m=80000020 p=10 g=2,
  1@3 s=1.consonant c=Ra x=PRE_C m=80000020 p=7 g=2, 34@3 s=1.consonant c=H x=PRE_C m=80000020 p=12 g=50,
  9@3 s=1.consonant c=N x=BASE_C m=80000010 p=12 g=2, 6@3 s=1.consonant c=M x=AFTER_POST m=80000010 p=10 g=2;
  5@0 c=M x=PRE_M m=80000020, 1@0 c=Ra x=PRE_C m=80000020, 34@0 c=H x=PRE_C m=80000020, 9@0 c=N x=BASE_C m=80000010,
  6@0 c=M x=AFTER_POST m=80000010, 30@0 c=Ra x=RA_TO_BECOME_REPH m=800000A0
Ra H ZWJ C H SM; reph=AFTER_MAIN level=1 after=10 pref=40 init=20;
  1@0 s=1.consonant c=Ra x=PRE_C m=80000000 p=7 g=2, 4@1 s=1.consonant c=H x=PRE_C m=80000000 p=12 g=2,
  10@2 s=1.consonant c=ZWJ x=PRE_C m=80000000 p=289 g=2, 3@4 s=1.consonant c=C x=BASE_C m=80000000 p=7 g=2,
  34@7 s=1.consonant c=H x=POST_C m=80000050 p=12 g=50, 8@11 s=1.consonant c=SM x=SMVD m=80000010 p=12 g=2;
  1@0 c=Ra x=PRE_C m=80000000, 4@1 c=H x=PRE_C m=80000000, 10@2 c=ZWJ x=PRE_C m=80000000,
  34@4 c=H x=POST_C m=80000050, 3@4 c=C x=BASE_C m=80000000, 8@11 c=SM x=SMVD m=80000010
Ra M PLACEHOLDER H CS H M; reph=BEFORE_POST rphf=20 before=10 after=10;
  30@0 s=1.consonant c=Ra x=RA_TO_BECOME_REPH m=80000030 p=7 g=50, 5@6 s=1.consonant c=M x=PRE_M m=80000010 p=10 g=2,
  13@6 s=1.consonant c=PLACEHOLDER x=PRE_C m=80000010 p=7 g=2, 4@6 s=1.consonant c=H x=PRE_C m=80000010 p=12 g=2,
  13@6 s=1.consonant c=CS x=BASE_C m=80000000 p=7 g=2, 4@6 s=1.consonant c=H x=BASE_C m=80000010 p=12 g=2,
  7@6 s=1.consonant c=M x=AFTER_POST m=80000010 p=12 g=2;
  13@0 c=PLACEHOLDER x=PRE_C m=80000010, 4@0 c=H x=PRE_C m=80000010, 30@0 c=Ra x=RA_TO_BECOME_REPH m=80000030,
  5@0 c=M x=PRE_M m=80000010, 13@0 c=CS x=BASE_C m=80000000, 4@0 c=H x=BASE_C m=80000010,
  7@0 c=M x=AFTER_POST m=80000010
Ra PLACEHOLDER H C M; reph=AFTER_POST level=1 rphf=100 before=60 after=B0 half=40;
  30@0 s=1.consonant c=Ra x=RA_TO_BECOME_REPH m=80000160 p=7 g=50,
  13@3 s=1.consonant c=PLACEHOLDER x=PRE_C m=80000060 p=7 g=2, 4@4 s=1.consonant c=H x=PRE_C m=80000060 p=12 g=2,
  13@7 s=1.consonant c=C x=BASE_C m=80000000 p=7 g=2, 7@9 s=1.consonant c=M x=AFTER_SUB m=800000B0 p=12 g=2;
  13@0 c=PLACEHOLDER x=PRE_C m=80000060, 4@0 c=H x=PRE_C m=80000060, 13@0 c=C x=BASE_C m=80000000,
  7@0 c=M x=AFTER_SUB m=800000B0, 30@0 c=Ra x=RA_TO_BECOME_REPH m=80000160
MPst N CS H PLACEHOLDER H; reph=AFTER_POST level=1 rphf=80 after=50 pref=20;
  5@0 s=1.broken c=MPst x=PRE_M m=80000000 p=10 g=2, 9@0 s=1.broken c=N x=PRE_M m=80000000 p=12 g=2,
  13@0 s=1.broken c=CS x=PRE_C m=80000000 p=7 g=2, 4@0 s=1.broken c=H x=PRE_C m=80000000 p=12 g=2,
  13@0 s=1.broken c=PLACEHOLDER x=BASE_C m=80000000 p=7 g=2, 4@0 s=1.broken c=H x=BASE_C m=80000050 p=12 g=2;
  13@0 c=CS x=PRE_C m=80000000, 4@0 c=H x=PRE_C m=80000000, 5@0 c=MPst x=PRE_M m=80000000, 9@0 c=N x=PRE_M m=80000000,
  13@0 c=PLACEHOLDER x=BASE_C m=80000000, 4@0 c=H x=BASE_C m=80000050
Repha H C H ZWNJ CS MPst; reph=AFTER_MAIN before=20 after=50 half=20;
  30@0 s=1.vowel c=Repha x=RA_TO_BECOME_REPH m=80000020 p=7 g=50, 4@2 s=1.vowel c=H x=PRE_C m=80000020 p=12 g=2,
  13@5 s=1.vowel c=C x=PRE_C m=80000000 p=7 g=2, 4@6 s=1.vowel c=H x=PRE_C m=80000000 p=12 g=2,
  11@8 s=1.vowel c=ZWNJ x=PRE_C m=80000020 p=545 g=2, 13@8 s=1.vowel c=CS x=BASE_C m=80000000 p=7 g=2,
  6@9 s=1.vowel c=MPst x=BEFORE_SUB m=80000050 p=10 g=2;
  4@0 c=H x=PRE_C m=80000020, 30@0 c=Repha x=RA_TO_BECOME_REPH m=80000020, 13@5 c=C x=PRE_C m=80000000,
  4@6 c=H x=PRE_C m=80000000, 11@8 c=ZWNJ x=PRE_C m=80000020, 13@8 c=CS x=BASE_C m=80000000,
  6@9 c=MPst x=BEFORE_SUB m=80000050
M C CM M VD; reph=AFTER_SUB level=1 rphf=200 before=60 after=130 half=40 init=80;
  5@0 s=1.consonant c=M x=PRE_M m=80000060 p=10 g=2, 13@0 s=1.consonant c=C x=PRE_C m=80000060 p=7 g=2,
  13@0 s=1.consonant c=CM x=PRE_C m=80000060 p=7 g=2, 7@0 s=1.consonant c=M x=BEFORE_SUB m=80000060 p=12 g=2,
  8@0 s=1.consonant c=VD x=SMVD m=80000060 p=12 g=2;
  5@0 c=M x=PRE_M m=800000E0, 13@0 c=C x=PRE_C m=80000060, 13@0 c=CM x=PRE_C m=80000060,
  7@0 c=M x=BEFORE_SUB m=80000060, 8@0 c=VD x=SMVD m=80000060
Ra CS H ZWJ C N; reph=BEFORE_POST rphf=80 after=50 init=20;
  30@0 s=1.consonant c=Ra x=RA_TO_BECOME_REPH m=80000080 p=7 g=50, 13@3 s=1.consonant c=CS x=PRE_C m=80000000 p=7 g=2,
  4@3 s=1.consonant c=H x=PRE_C m=80000000 p=12 g=2, 10@5 s=1.consonant c=ZWJ x=PRE_C m=80000000 p=289 g=2,
  13@7 s=1.consonant c=C x=BASE_C m=80000000 p=7 g=2, 9@8 s=1.consonant c=N x=BASE_C m=80000050 p=12 g=2;
  13@0 c=CS x=PRE_C m=80000000, 4@0 c=H x=PRE_C m=80000000, 10@0 c=ZWJ x=PRE_C m=80000000,
  30@0 c=Ra x=RA_TO_BECOME_REPH m=80000080, 13@7 c=C x=BASE_C m=80000000, 9@8 c=N x=BASE_C m=80000050
Ra C N H C M; reph=BEFORE_POST level=1 rphf=80 after=50 init=20;
  30@0 s=1.consonant c=Ra x=RA_TO_BECOME_REPH m=80000080 p=7 g=50, 3@4 s=1.consonant c=C x=PRE_C m=80000000 p=7 g=2,
  9@6 s=1.consonant c=N x=PRE_C m=80000000 p=12 g=2, 4@8 s=1.consonant c=H x=PRE_C m=80000000 p=12 g=2,
  13@8 s=1.consonant c=C x=BASE_C m=80000000 p=7 g=2, 7@11 s=1.consonant c=M x=BEFORE_POST m=80000050 p=12 g=2;
  3@0 c=C x=PRE_C m=80000000, 9@0 c=N x=PRE_C m=80000000, 4@0 c=H x=PRE_C m=80000000,
  30@0 c=Ra x=RA_TO_BECOME_REPH m=80000080, 13@0 c=C x=BASE_C m=80000000, 7@11 c=M x=BEFORE_POST m=80000050
MPst M Ra H ZWJ H; reph=BEFORE_SUB level=1 rphf=80 after=50 init=20;
  5@0 s=1.broken c=MPst x=PRE_M m=80000000 p=10 g=2, 5@0 s=1.broken c=M x=PRE_M m=80000000 p=10 g=2,
  1@0 s=1.broken c=Ra x=PRE_C m=80000000 p=7 g=2, 4@0 s=1.broken c=H x=PRE_C m=80000000 p=12 g=2,
  10@0 s=1.broken c=ZWJ x=PRE_C m=80000000 p=289 g=2, 4@0 s=1.broken c=H x=PRE_C m=80000000 p=12 g=2;
  1@0 c=Ra x=PRE_C m=80000000, 4@0 c=H x=PRE_C m=80000000, 10@0 c=ZWJ x=PRE_C m=80000000, 4@0 c=H x=PRE_C m=80000000,
  5@0 c=MPst x=PRE_M m=80000000, 5@0 c=M x=PRE_M m=80000000
Ra Ra H Ra M; reph=BEFORE_POST level=1 rphf=200 before=30 after=110 half=20 pref=80 init=40;
  30@0 s=1.consonant c=Ra x=RA_TO_BECOME_REPH m=80000230 p=7 g=50, 1@2 s=1.consonant c=Ra x=BASE_C m=80000000 p=7 g=2,
  4@2 s=1.consonant c=H x=POST_C m=80000190 p=12 g=2, 1@3 s=1.consonant c=Ra x=POST_C m=80000190 p=7 g=2,
  7@4 s=1.consonant c=M x=AFTER_POST m=80000110 p=12 g=2;
  1@0 c=Ra x=BASE_C m=80000000, 4@0 c=H x=POST_C m=80000190, 1@0 c=Ra x=POST_C m=80000190,
  7@0 c=M x=AFTER_POST m=80000110, 30@0 c=Ra x=RA_TO_BECOME_REPH m=80000230
M Ra H C C H C; reph=AFTER_POST rphf=80 after=50 init=20;
  5@0 s=1.standalone c=M x=PRE_M m=80000000 p=10 g=2, 1@0 s=1.standalone c=Ra x=PRE_C m=80000000 p=7 g=2,
  4@0 s=1.standalone c=H x=PRE_C m=80000000 p=12 g=2, 33@0 s=1.standalone c=C x=PRE_C m=80000000 p=7 g=50,
  13@0 s=1.standalone c=C x=BASE_C m=80000000 p=7 g=2, 4@0 s=1.standalone c=H x=BELOW_C m=80000050 p=12 g=2,
  3@0 s=1.standalone c=C x=BELOW_C m=80000050 p=7 g=2;
  1@0 c=Ra x=PRE_C m=80000000, 4@0 c=H x=PRE_C m=80000000, 5@0 c=M x=PRE_M m=80000000, 33@0 c=C x=PRE_C m=80000000,
  13@0 c=C x=BASE_C m=80000000, 4@0 c=H x=BELOW_C m=80000050, 3@0 c=C x=BELOW_C m=80000050
Ra M PLACEHOLDER H C CS M; reph=BEFORE_POST rphf=40 after=20 pref=10;
  30@0 s=1.standalone c=Ra x=RA_TO_BECOME_REPH m=80000040 p=7 g=50,
  5@2 s=1.standalone c=M x=PRE_M m=80000000 p=10 g=2, 13@2 s=1.standalone c=PLACEHOLDER x=PRE_C m=80000000 p=7 g=2,
  4@2 s=1.standalone c=H x=PRE_C m=80000000 p=12 g=2, 35@2 s=1.standalone c=C x=PRE_C m=80000000 p=7 g=50,
  13@2 s=1.standalone c=CS x=BASE_C m=80000000 p=7 g=2, 7@11 s=1.standalone c=M x=AFTER_POST m=80000020 p=12 g=2;
  13@0 c=PLACEHOLDER x=PRE_C m=80000000, 4@0 c=H x=PRE_C m=80000000, 30@0 c=Ra x=RA_TO_BECOME_REPH m=80000040,
  5@0 c=M x=PRE_M m=80000000, 35@0 c=C x=PRE_C m=80000000, 13@0 c=CS x=BASE_C m=80000000,
  7@11 c=M x=AFTER_POST m=80000020
Ra MPst Ra H PLACEHOLDER M M; reph=BEFORE_SUB level=1 rphf=80 before=20 after=50 half=20;
  30@0 s=1.consonant c=Ra x=RA_TO_BECOME_REPH m=800000A0 p=7 g=50,
  5@4 s=1.consonant c=MPst x=PRE_M m=80000020 p=10 g=2, 1@4 s=1.consonant c=Ra x=PRE_C m=80000020 p=7 g=2,
  4@4 s=1.consonant c=H x=PRE_C m=80000020 p=12 g=2, 13@4 s=1.consonant c=PLACEHOLDER x=BASE_C m=80000000 p=7 g=2,
  6@12 s=1.consonant c=M x=AFTER_SUB m=80000050 p=10 g=2, 7@14 s=1.consonant c=M x=BEFORE_POST m=80000050 p=12 g=2;
  1@0 c=Ra x=PRE_C m=80000020, 4@0 c=H x=PRE_C m=80000020, 30@0 c=Ra x=RA_TO_BECOME_REPH m=800000A0,
  5@0 c=MPst x=PRE_M m=80000020, 13@0 c=PLACEHOLDER x=BASE_C m=80000000, 6@12 c=M x=AFTER_SUB m=80000050,
  7@14 c=M x=BEFORE_POST m=80000050
M Ra H ZWJ C H VD A; reph=AFTER_POST after=50 pref=20;
  5@0 s=1.consonant c=M x=PRE_M m=80000000 p=10 g=2, 1@0 s=1.consonant c=Ra x=PRE_C m=80000000 p=7 g=2,
  4@0 s=1.consonant c=H x=PRE_C m=80000000 p=12 g=2, 10@0 s=1.consonant c=ZWJ x=PRE_C m=80000000 p=289 g=2,
  2@0 s=1.consonant c=C x=BASE_C m=80000000 p=7 g=2, 35@0 s=1.consonant c=H x=POST_C m=80000070 p=12 g=50,
  8@0 s=1.consonant c=VD x=SMVD m=80000050 p=12 g=2, 8@0 s=1.consonant c=A x=SMVD m=80000050 p=12 g=2;
  1@0 c=Ra x=PRE_C m=80000000, 4@0 c=H x=PRE_C m=80000000, 10@0 c=ZWJ x=PRE_C m=80000000,
  35@0 c=H x=POST_C m=80000070, 5@0 c=M x=PRE_M m=80000000, 2@0 c=C x=BASE_C m=80000000, 8@0 c=VD x=SMVD m=80000050,
  8@0 c=A x=SMVD m=80000050
M CS N H C H Ra; reph=AFTER_POST rphf=80 after=50 pref=20;
  5@0 s=1.consonant c=M x=PRE_M m=80000000 p=10 g=2, 13@0 s=1.consonant c=CS x=PRE_C m=80000000 p=7 g=2,
  9@0 s=1.consonant c=N x=PRE_C m=80000000 p=12 g=2, 4@0 s=1.consonant c=H x=PRE_C m=80000000 p=12 g=2,
  3@0 s=1.consonant c=C x=BASE_C m=80000000 p=7 g=2, 4@0 s=1.consonant c=H x=BELOW_C m=80000050 p=12 g=2,
  1@0 s=1.consonant c=Ra x=BELOW_C m=80000050 p=7 g=2;
  13@0 c=CS x=PRE_C m=80000000, 9@0 c=N x=PRE_C m=80000000, 4@0 c=H x=PRE_C m=80000000, 5@0 c=M x=PRE_M m=80000000,
  3@0 c=C x=BASE_C m=80000000, 4@0 c=H x=BELOW_C m=80000050, 1@0 c=Ra x=BELOW_C m=80000050
Ra C H C H PLACEHOLDER; reph=BEFORE_POST rphf=200 before=20 after=110 half=20 pref=80 init=40;
  30@0 s=1.consonant c=Ra x=RA_TO_BECOME_REPH m=80000220 p=7 g=50, 2@1 s=1.consonant c=C x=PRE_C m=80000020 p=7 g=2,
  4@2 s=1.consonant c=H x=PRE_C m=80000020 p=12 g=2, 3@3 s=1.consonant c=C x=PRE_C m=80000020 p=7 g=2,
  4@3 s=1.consonant c=H x=PRE_C m=80000020 p=12 g=2, 13@4 s=1.consonant c=PLACEHOLDER x=BASE_C m=80000000 p=7 g=2;
  2@0 c=C x=PRE_C m=80000020, 4@0 c=H x=PRE_C m=80000020, 30@0 c=Ra x=RA_TO_BECOME_REPH m=80000220,
  3@3 c=C x=PRE_C m=80000020, 4@3 c=H x=PRE_C m=80000020, 13@4 c=PLACEHOLDER x=BASE_C m=80000000
Ra PLACEHOLDER RS H C N M; reph=AFTER_MAIN level=1 rphf=80 before=30 after=10 half=20 init=40;
  30@0 s=1.standalone c=Ra x=RA_TO_BECOME_REPH m=800000B0 p=7 g=50,
  13@3 s=1.standalone c=PLACEHOLDER x=PRE_C m=80000030 p=7 g=2, 8@3 s=1.standalone c=RS x=PRE_C m=80000030 p=12 g=2,
  4@4 s=1.standalone c=H x=PRE_C m=80000030 p=12 g=2, 13@6 s=1.standalone c=C x=BASE_C m=80000000 p=7 g=2,
  9@7 s=1.standalone c=N x=BASE_C m=80000010 p=12 g=2, 6@8 s=1.standalone c=M x=AFTER_MAIN m=80000010 p=10 g=2;
  13@0 c=PLACEHOLDER x=PRE_C m=80000030, 8@0 c=RS x=PRE_C m=80000030, 4@0 c=H x=PRE_C m=80000030,
  30@0 c=Ra x=RA_TO_BECOME_REPH m=800000B0, 13@6 c=C x=BASE_C m=80000000, 9@7 c=N x=BASE_C m=80000010,
  6@8 c=M x=AFTER_MAIN m=80000010
Ra PLACEHOLDER H Ra H C; reph=AFTER_POST level=1 rphf=200 before=30 after=110 half=20 pref=80 init=40;
  30@0 s=1.vowel c=Ra x=RA_TO_BECOME_REPH m=80000230 p=7 g=50,
  13@2 s=1.vowel c=PLACEHOLDER x=PRE_C m=80000030 p=7 g=2, 4@2 s=1.vowel c=H x=PRE_C m=80000030 p=12 g=2,
  1@3 s=1.vowel c=Ra x=PRE_C m=80000030 p=7 g=2, 4@4 s=1.vowel c=H x=PRE_C m=80000030 p=12 g=2,
  13@7 s=1.vowel c=C x=BASE_C m=80000000 p=7 g=2;
  13@0 c=PLACEHOLDER x=PRE_C m=80000030, 4@0 c=H x=PRE_C m=80000030, 1@0 c=Ra x=PRE_C m=80000030,
  4@0 c=H x=PRE_C m=80000030, 13@0 c=C x=BASE_C m=80000000, 30@0 c=Ra x=RA_TO_BECOME_REPH m=80000230
Ra C H ZWNJ C N M; reph=BEFORE_POST rphf=80 before=10 after=50 pref=20;
  30@0 s=1.consonant c=Ra x=RA_TO_BECOME_REPH m=80000090 p=7 g=50, 3@4 s=1.consonant c=C x=BASE_C m=80000000 p=7 g=2,
  4@4 s=1.consonant c=H x=BELOW_C m=80000050 p=12 g=2, 11@6 s=1.consonant c=ZWNJ x=BELOW_C m=80000050 p=545 g=2,
  2@6 s=1.consonant c=C x=BELOW_C m=80000050 p=7 g=2, 9@7 s=1.consonant c=N x=BELOW_C m=80000050 p=12 g=2,
  6@9 s=1.consonant c=M x=AFTER_SUB m=80000050 p=10 g=2;
  3@0 c=C x=BASE_C m=80000000, 4@0 c=H x=BELOW_C m=80000050, 11@0 c=ZWNJ x=BELOW_C m=80000050,
  2@0 c=C x=BELOW_C m=80000050, 9@0 c=N x=BELOW_C m=80000050, 6@0 c=M x=AFTER_SUB m=80000050,
  30@0 c=Ra x=RA_TO_BECOME_REPH m=80000090
M Ra H CS RS H V M; reph=BEFORE_POST rphf=80 before=60 after=30 half=40;
  5@0 s=1.vowel c=M x=PRE_M m=80000060 p=10 g=2, 1@0 s=1.vowel c=Ra x=PRE_C m=80000060 p=7 g=2,
  4@0 s=1.vowel c=H x=PRE_C m=80000060 p=12 g=2, 13@0 s=1.vowel c=CS x=PRE_C m=80000060 p=7 g=2,
  8@0 s=1.vowel c=RS x=PRE_C m=80000060 p=12 g=2, 4@0 s=1.vowel c=H x=PRE_C m=80000060 p=12 g=2,
  13@0 s=1.vowel c=V x=BASE_C m=80000000 p=7 g=2, 6@11 s=1.vowel c=M x=AFTER_SUB m=80000030 p=10 g=2;
  1@0 c=Ra x=PRE_C m=80000060, 4@0 c=H x=PRE_C m=80000060, 13@0 c=CS x=PRE_C m=80000060, 8@0 c=RS x=PRE_C m=80000060,
  4@0 c=H x=PRE_C m=80000060, 5@0 c=M x=PRE_M m=80000060, 13@0 c=V x=BASE_C m=80000000,
  6@11 c=M x=AFTER_SUB m=80000030
Ra C H PLACEHOLDER H M MPst MPst; reph=BEFORE_POST rphf=40 after=10 pref=20;
  30@0 s=1.consonant c=Ra x=RA_TO_BECOME_REPH m=80000040 p=7 g=50, 2@3 s=1.consonant c=C x=PRE_C m=80000000 p=7 g=2,
  4@3 s=1.consonant c=H x=PRE_C m=80000000 p=12 g=2, 13@4 s=1.consonant c=PLACEHOLDER x=BASE_C m=80000000 p=7 g=2,
  4@5 s=1.consonant c=H x=BASE_C m=80000010 p=12 g=2, 7@7 s=1.consonant c=M x=AFTER_MAIN m=80000010 p=12 g=2,
  6@8 s=1.consonant c=MPst x=AFTER_MAIN m=80000010 p=10 g=2,
  6@8 s=1.consonant c=MPst x=BEFORE_POST m=80000010 p=10 g=2;
  2@0 c=C x=PRE_C m=80000000, 4@0 c=H x=PRE_C m=80000000, 30@0 c=Ra x=RA_TO_BECOME_REPH m=80000040,
  13@4 c=PLACEHOLDER x=BASE_C m=80000000, 4@5 c=H x=BASE_C m=80000010, 7@7 c=M x=AFTER_MAIN m=80000010,
  6@8 c=MPst x=AFTER_MAIN m=80000010, 6@8 c=MPst x=BEFORE_POST m=80000010
Ra H M C H ZWNJ CS M; reph=BEFORE_SUB level=1 rphf=80 before=20 after=10 half=20 init=40;
  1@0 s=1.vowel c=Ra x=RA_TO_BECOME_REPH m=800000A0 p=7 g=2,
  31@2 s=1.vowel c=H x=RA_TO_BECOME_REPH m=800000A0 p=12 g=50, 5@3 s=1.vowel c=M x=PRE_M m=80000020 p=10 g=2,
  3@3 s=1.vowel c=C x=PRE_C m=80000000 p=7 g=2, 4@3 s=1.vowel c=H x=PRE_C m=80000000 p=12 g=2,
  11@3 s=1.vowel c=ZWNJ x=PRE_C m=80000020 p=545 g=2, 13@3 s=1.vowel c=CS x=BASE_C m=80000000 p=7 g=2,
  7@3 s=1.vowel c=M x=AFTER_MAIN m=80000010 p=12 g=2;
  1@0 c=Ra x=RA_TO_BECOME_REPH m=800000A0, 31@2 c=H x=RA_TO_BECOME_REPH m=800000A0, 3@3 c=C x=PRE_C m=80000000,
  4@3 c=H x=PRE_C m=80000000, 11@3 c=ZWNJ x=PRE_C m=80000020, 5@3 c=M x=PRE_M m=80000020,
  13@3 c=CS x=BASE_C m=80000000, 7@3 c=M x=AFTER_MAIN m=80000010
M Ra H Ra H ZWNJ C M VD; reph=AFTER_MAIN level=1 rphf=80 after=50 init=20;
  5@0 s=1.consonant c=M x=PRE_M m=80000000 p=10 g=2, 1@0 s=1.consonant c=Ra x=PRE_C m=80000000 p=7 g=2,
  4@0 s=1.consonant c=H x=PRE_C m=80000000 p=12 g=2, 1@0 s=1.consonant c=Ra x=PRE_C m=80000000 p=7 g=2,
  4@0 s=1.consonant c=H x=PRE_C m=80000000 p=12 g=2, 11@0 s=1.consonant c=ZWNJ x=PRE_C m=80000000 p=545 g=2,
  2@0 s=1.consonant c=C x=BASE_C m=80000000 p=7 g=2, 6@9 s=1.consonant c=M x=BEFORE_POST m=80000050 p=10 g=2,
  8@10 s=1.consonant c=VD x=SMVD m=80000050 p=12 g=2;
  1@0 c=Ra x=PRE_C m=80000000, 4@0 c=H x=PRE_C m=80000000, 1@0 c=Ra x=PRE_C m=80000000, 4@0 c=H x=PRE_C m=80000000,
  11@0 c=ZWNJ x=PRE_C m=80000000, 5@0 c=M x=PRE_M m=80000000, 2@0 c=C x=BASE_C m=80000000,
  6@9 c=M x=BEFORE_POST m=80000050, 8@10 c=VD x=SMVD m=80000050
Ra PLACEHOLDER RS H V CM H ZWJ Ra RS; reph=BEFORE_POST rphf=80 before=10 after=40 half=10 init=20;
  30@0 s=1.consonant c=Ra x=RA_TO_BECOME_REPH m=80000090 p=7 g=50,
  13@2 s=1.consonant c=PLACEHOLDER x=PRE_C m=80000010 p=7 g=2, 8@3 s=1.consonant c=RS x=PRE_C m=80000010 p=12 g=2,
  4@4 s=1.consonant c=H x=PRE_C m=80000010 p=12 g=2, 13@6 s=1.consonant c=V x=PRE_C m=80000010 p=7 g=2,
  13@8 s=1.consonant c=CM x=PRE_C m=80000010 p=7 g=2, 4@9 s=1.consonant c=H x=PRE_C m=80000010 p=12 g=2,
  10@12 s=1.consonant c=ZWJ x=PRE_C m=80000010 p=289 g=2, 1@14 s=1.consonant c=Ra x=BASE_C m=80000000 p=7 g=2,
  8@16 s=1.consonant c=RS x=BASE_C m=80000040 p=12 g=2;
  13@0 c=PLACEHOLDER x=PRE_C m=80000010, 8@0 c=RS x=PRE_C m=80000010, 4@0 c=H x=PRE_C m=80000010,
  30@0 c=Ra x=RA_TO_BECOME_REPH m=80000090, 13@6 c=V x=PRE_C m=80000010, 13@8 c=CM x=PRE_C m=80000010,
  4@9 c=H x=PRE_C m=80000010, 10@12 c=ZWJ x=PRE_C m=80000010, 1@14 c=Ra x=BASE_C m=80000000,
  8@16 c=RS x=BASE_C m=80000040
MPst C H Ra RS H ZWJ V RS MPst SM; reph=AFTER_POST rphf=40 after=10 pref=20;
  5@0 s=1.vowel c=MPst x=PRE_M m=80000000 p=10 g=2, 3@0 s=1.vowel c=C x=PRE_C m=80000000 p=7 g=2,
  4@0 s=1.vowel c=H x=PRE_C m=80000000 p=12 g=2, 1@0 s=1.vowel c=Ra x=PRE_C m=80000000 p=7 g=2,
  8@0 s=1.vowel c=RS x=PRE_C m=80000000 p=12 g=2, 4@0 s=1.vowel c=H x=PRE_C m=80000000 p=12 g=2,
  10@0 s=1.vowel c=ZWJ x=PRE_C m=80000000 p=289 g=2, 13@0 s=1.vowel c=V x=BASE_C m=80000000 p=7 g=2,
  8@0 s=1.vowel c=RS x=BASE_C m=80000010 p=12 g=2, 7@0 s=1.vowel c=MPst x=BELOW_C m=80000010 p=12 g=2,
  8@13 s=1.vowel c=SM x=SMVD m=80000010 p=12 g=2;
  3@0 c=C x=PRE_C m=80000000, 4@0 c=H x=PRE_C m=80000000, 1@0 c=Ra x=PRE_C m=80000000, 8@0 c=RS x=PRE_C m=80000000,
  4@0 c=H x=PRE_C m=80000000, 10@0 c=ZWJ x=PRE_C m=80000000, 5@0 c=MPst x=PRE_M m=80000000,
  13@0 c=V x=BASE_C m=80000000, 8@0 c=RS x=BASE_C m=80000010, 7@0 c=MPst x=BELOW_C m=80000010,
  8@13 c=SM x=SMVD m=80000010";
