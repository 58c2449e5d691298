//! Syllables before their forms, one in each row.

// A name has the categories of the glyphs.
pub(crate) static ROWS: &str = "
# name; options, with the lists of glyphs that have a form; glyphs; glyphs afterwards
C; mode=Implicit virama=4; 2@0 s=1.vowel c=C x=BASE_C m=80000000; 2@0 c=C x=BASE_C m=80000000
M; mode=Logical rphf=20 init=10; 7@0 s=1.vowel c=M x=BELOW_C m=80000000; 7@0 c=M x=PRE_C m=80000000
C; mode=Logical virama=4 below_of=3+4 before=10 after=10 init=20; 3@0 s=1.non c=C x=BASE_C m=80000000;
  3@0 c=C x=BELOW_C m=80000000
C; mode=Implicit virama=4 level=1 after=10 init=20; 2@0 s=1.consonant c=C x=BASE_C m=80000000;
  2@0 c=C x=BASE_C m=80000000
V; mode=Implicit virama=4 rphf=20 before=10 half=10; 13@0 s=1.standalone c=V x=END m=80000000;
  13@0 c=V x=BASE_C m=80000000
C H; mode=Explicit virama=4 after=10;
  13@0 s=1.standalone c=C x=BASE_C m=80000000, 4@3 s=1.standalone c=H x=END m=80000000;
  13@0 c=C x=BASE_C m=80000000, 4@3 c=H x=BASE_C m=80000010
C; mode=Implicit virama=4 level=1 before=10 half=10 pref=20; 3@0 s=1.consonant c=C x=BASE_C m=80000000;
  3@0 c=C x=BASE_C m=80000000
C; mode=Implicit virama=4 below_of=3+4 before=10 after=10 init=20; 3@0 s=1.consonant c=C x=BASE_C m=80000000;
  3@0 c=C x=BASE_C m=80000000
M; mode=Logical virama=4 rphf=40 before=10 after=30; 5@0 s=1.vowel c=M x=PRE_M m=80000000; 5@0 c=M x=PRE_M m=80000010
Ra H; mode=Implicit virama=4 pref_of=4+1 post_of=4+1 level=1 after=20 pref=10;
  1@0 s=1.symbol c=Ra x=BASE_C m=80000000, 4@2 s=1.symbol c=H x=END m=80000000;
  1@0 c=Ra x=POST_C m=80000000, 4@2 c=H x=END m=80000000
CS M; mode=Implicit virama=4 level=1 before=30 after=10 half=20;
  13@0 s=1.standalone c=CS x=BASE_C m=80000000, 5@2 s=1.standalone c=M x=PRE_M m=80000000;
  5@0 c=M x=PRE_M m=80000030, 13@0 c=CS x=BASE_C m=80000000
M; mode=Logical virama=4 level=1 rphf=40 before=10 after=30; 6@0 s=1.broken c=M x=BEFORE_SUB m=80000000;
  6@0 c=M x=PRE_C m=80000010
Repha A; mode=Implicit level=1 rphf=20 before=10 half=10;
  12@0 s=1.consonant c=Repha x=END m=80000000, 8@2 s=1.consonant c=A x=SMVD m=80000000;
  12@0 c=Repha x=PRE_C m=80000010, 8@2 c=A x=PRE_C m=80000010
Ra H ZWNJ; mode=Implicit virama=4 pref_of=4+1 post_of=4+1 level=1 pref=10;
  1@0 s=1.consonant c=Ra x=END m=80000000, 4@2 s=1.consonant c=H x=END m=80000000,
  11@3 s=1.consonant c=ZWNJ x=END m=80000000;
  1@0 c=Ra x=BASE_C m=80000000, 4@2 c=H x=BASE_C m=80000000, 11@3 c=ZWNJ x=BASE_C m=80000000
C; mode=Logical virama=4 below_of=2+4 level=1 rphf=20 init=10; 2@0 s=1.consonant c=C x=BASE_C m=80000000;
  2@0 c=C x=BASE_C m=80000000
C; mode=Logical virama=4 rphf=80 before=20 after=30 pref=40; 13@0 s=1.vowel c=C x=END m=80000000;
  13@0 c=C x=BASE_C m=80000000
Ra H C; mode=Implicit virama=4 reph_of=1+4 level=1 rphf=10;
  1@0 s=1.consonant c=Ra x=END m=80000000, 4@1 s=1.consonant c=H x=END m=80000000,
  13@2 s=1.consonant c=C x=END m=80000000;
  1@0 c=Ra x=RA_TO_BECOME_REPH m=80000010, 4@1 c=H x=RA_TO_BECOME_REPH m=80000010, 13@2 c=C x=BASE_C m=80000000
Ra H; mode=Implicit virama=4 reph_of=1+4 pref_of=4+1 post_of=4+1 rphf=40 after=20 pref=10;
  1@0 s=1.consonant c=Ra x=END m=80000000, 4@3 s=1.consonant c=H x=END m=80000000;
  1@0 c=Ra x=BASE_C m=80000000, 4@3 c=H x=BASE_C m=80000020
Ra H; mode=Implicit virama=4 level=1 rphf=40 before=30 after=10 half=20;
  1@0 s=1.vowel c=Ra x=BASE_C m=80000000, 4@2 s=1.vowel c=H x=END m=80000000;
  1@0 c=Ra x=BASE_C m=80000000, 4@2 c=H x=BASE_C m=80000010
Repha V M; mode=Logical virama=4 level=1 rphf=20 before=10 half=10;
  12@0 s=1.consonant c=Repha x=END m=80000000, 13@1 s=1.consonant c=V x=BASE_C m=80000000,
  6@2 s=1.consonant c=M x=BEFORE_POST m=80000000;
  12@0 c=Repha x=RA_TO_BECOME_REPH m=80000030, 13@1 c=V x=BASE_C m=80000000, 6@2 c=M x=BEFORE_POST m=80000000
C H Ra M; mode=Logical virama=4 post_of=3+4 after=10;
  3@0 s=1.broken c=C x=BASE_C m=80000000, 4@1 s=1.broken c=H x=END m=80000000,
  1@2 s=1.broken c=Ra x=BASE_C m=80000000, 6@3 s=1.broken c=M x=AFTER_SUB m=80000000;
  3@0 c=C x=PRE_C m=80000000, 4@1 c=H x=PRE_C m=80000000, 1@2 c=Ra x=BASE_C m=80000000, 6@3 c=M x=AFTER_SUB m=80000010
Repha; mode=Logical virama=4 level=1 rphf=40 after=30; 12@0 s=1.consonant c=Repha x=END m=80000000;
  12@0 c=Repha x=BASE_C m=80000000
Ra H PLACEHOLDER M; mode=Implicit virama=4 reph_of=1+4 rphf=10;
  1@0 s=1.broken c=Ra x=BASE_C m=80000000, 4@2 s=1.broken c=H x=END m=80000000,
  13@5 s=1.broken c=PLACEHOLDER x=BASE_C m=80000000, 5@6 s=1.broken c=M x=PRE_M m=80000000;
  1@0 c=Ra x=RA_TO_BECOME_REPH m=80000010, 4@2 c=H x=RA_TO_BECOME_REPH m=80000010, 5@5 c=M x=PRE_M m=80000000,
  13@5 c=PLACEHOLDER x=BASE_C m=80000000
Ra H A M; mode=Explicit virama=4 after=10;
  1@0 s=1.consonant c=Ra x=END m=80000000, 4@2 s=1.consonant c=H x=END m=80000000,
  8@3 s=1.consonant c=A x=SMVD m=80000000, 6@4 s=1.consonant c=M x=BEFORE_POST m=80000000;
  1@0 c=Ra x=BASE_C m=80000000, 4@2 c=H x=BASE_C m=80000010, 6@3 c=M x=BEFORE_POST m=80000010, 8@3 c=A x=SMVD m=80000010
C CM; mode=Implicit virama=4 level=1 rphf=80 before=10 after=40 half=10 pref=20;
  13@0 s=1.non c=C x=END m=80000000, 13@1 s=1.non c=CM x=END m=80000000;
  13@0 c=C x=END m=80000000, 13@1 c=CM x=END m=80000000
Repha C; mode=Implicit virama=4 below_of=4+3 level=1 rphf=80 before=30 after=10 half=20 init=40;
  12@0 s=1.consonant c=Repha x=END m=80000000, 3@1 s=1.consonant c=C x=BASE_C m=80000000;
  12@0 c=Repha x=PRE_C m=80000030, 3@1 c=C x=BASE_C m=80000000
Ra H ZWJ; mode=Implicit virama=4 pref_of=4+1 post_of=4+1 before=20 after=10 half=20 pref=40;
  1@0 s=1.broken c=Ra x=BASE_C m=80000000, 4@2 s=1.broken c=H x=END m=80000000, 10@3 s=1.broken c=ZWJ x=END m=80000000;
  1@0 c=Ra x=PRE_C m=80000020, 4@2 c=H x=PRE_C m=80000020, 10@3 c=ZWJ x=PRE_C m=80000020
Repha M; mode=Implicit virama=4 level=1 rphf=80 after=50 init=20;
  12@0 s=1.standalone c=Repha x=END m=80000000, 5@0 s=1.standalone c=M x=PRE_M m=80000000;
  5@0 c=M x=PRE_M m=80000000, 12@0 c=Repha x=PRE_C m=80000000
PLACEHOLDER H CS; mode=Logical rphf=40 before=20 after=30;
  13@0 s=1.consonant c=PLACEHOLDER x=BASE_C m=80000000, 4@0 s=1.consonant c=H x=END m=80000000,
  13@3 s=1.consonant c=CS x=END m=80000000;
  13@0 c=PLACEHOLDER x=PRE_C m=80000020, 4@0 c=H x=PRE_C m=80000020, 13@3 c=CS x=BASE_C m=80000000
PLACEHOLDER M; mode=Implicit virama=4 rphf=40 after=30;
  13@0 s=1.consonant c=PLACEHOLDER x=END m=80000000, 5@1 s=1.consonant c=M x=PRE_M m=80000000;
  5@0 c=M x=PRE_M m=80000000, 13@0 c=PLACEHOLDER x=BASE_C m=80000000
Ra H Ra; mode=Logical virama=4 reph_of=1+4 below_of=4+1 rphf=20 before=10 half=10;
  1@0 s=1.consonant c=Ra x=BASE_C m=80000000, 4@1 s=1.consonant c=H x=END m=80000000,
  1@4 s=1.consonant c=Ra x=END m=80000000;
  1@0 c=Ra x=BASE_C m=80000000, 4@1 c=H x=BELOW_C m=80000000, 1@4 c=Ra x=BELOW_C m=80000000
C H C; mode=Implicit virama=4 level=1 rphf=40 before=10 after=10 init=20;
  2@0 s=1.consonant c=C x=BASE_C m=80000000, 4@2 s=1.consonant c=H x=END m=80000000,
  13@3 s=1.consonant c=C x=END m=80000000;
  2@0 c=C x=PRE_C m=80000010, 4@2 c=H x=PRE_C m=80000010, 13@3 c=C x=BASE_C m=80000000
CS H Ra; mode=Implicit virama=4 reph_of=1+4 below_of=4+1 level=1 rphf=20 pref=10;
  13@0 s=1.standalone c=CS x=END m=80000000, 4@3 s=1.standalone c=H x=END m=80000000,
  1@4 s=1.standalone c=Ra x=BASE_C m=80000000;
  13@0 c=CS x=BASE_C m=80000000, 4@3 c=H x=BELOW_C m=80000000, 1@4 c=Ra x=BELOW_C m=80000000
Ra H ZWNJ; mode=Explicit virama=4 reph_of=1+4 level=1 rphf=40 after=10 init=20;
  1@0 s=1.vowel c=Ra x=END m=80000000, 4@3 s=1.vowel c=H x=END m=80000000, 11@3 s=1.vowel c=ZWNJ x=END m=80000000;
  1@0 c=Ra x=BASE_C m=80000000, 4@3 c=H x=BASE_C m=80000010, 11@3 c=ZWNJ x=BASE_C m=80000010
Ra H M; mode=Implicit virama=4 reph_of=1+4 pref_of=4+1 below_of=4+1 post_of=4+1 rphf=20 pref=10;
  1@0 s=1.vowel c=Ra x=BASE_C m=80000000, 4@2 s=1.vowel c=H x=END m=80000000, 5@3 s=1.vowel c=M x=PRE_M m=80000000;
  5@0 c=M x=PRE_M m=80000000, 1@0 c=Ra x=BASE_C m=80000000, 4@0 c=H x=BASE_C m=80000000
Ra H ZWNJ; mode=Implicit virama=4 pref_of=4+1 post_of=4+1 level=1 rphf=20 pref=10;
  1@0 s=1.consonant c=Ra x=END m=80000000, 4@1 s=1.consonant c=H x=END m=80000000,
  11@2 s=1.consonant c=ZWNJ x=END m=80000000;
  1@0 c=Ra x=BASE_C m=80000000, 4@1 c=H x=BASE_C m=80000000, 11@2 c=ZWNJ x=BASE_C m=80000000
Ra H C; mode=Implicit virama=4 pref_of=4+1 post_of=4+1,4+3 after=40 pref=20 init=10;
  1@0 s=1.standalone c=Ra x=BASE_C m=80000000, 4@1 s=1.standalone c=H x=END m=80000000,
  3@2 s=1.standalone c=C x=BASE_C m=80000000;
  1@0 c=Ra x=BASE_C m=80000000, 4@1 c=H x=POST_C m=80000040, 3@2 c=C x=POST_C m=80000040
C H; mode=Explicit virama=4 post_of=4+3 level=1 rphf=80 before=20 after=50 half=20;
  3@0 s=1.broken c=C x=BASE_C m=80000000, 4@3 s=1.broken c=H x=END m=80000000;
  3@0 c=C x=BASE_C m=80000000, 4@3 c=H x=BASE_C m=80000050
PLACEHOLDER M; mode=Logical rphf=80 before=10 after=10 pref=40 init=20;
  13@0 s=1.consonant c=PLACEHOLDER x=BASE_C m=80000000, 7@2 s=1.consonant c=M x=BEFORE_SUB m=80000000;
  13@0 c=PLACEHOLDER x=BASE_C m=80000000, 7@2 c=M x=BEFORE_SUB m=80000010
H; mode=Logical virama=4 rphf=100 before=60 after=30 half=40 init=80; 4@0 s=1.vowel c=H x=END m=80000000;
  4@0 c=H m=80000060
Ra H ZWJ V; mode=Explicit virama=4 before=10 half=10 pref=20;
  1@0 s=1.vowel c=Ra x=END m=80000000, 4@3 s=1.vowel c=H x=END m=80000000, 10@3 s=1.vowel c=ZWJ x=END m=80000000,
  13@4 s=1.vowel c=V x=BASE_C m=80000000;
  1@0 c=Ra x=PRE_C m=80000010, 4@3 c=H x=PRE_C m=80000010, 10@3 c=ZWJ x=PRE_C m=80000010, 13@4 c=V x=BASE_C m=80000000
Repha Ra; mode=Logical virama=4 level=1 rphf=80 after=50 init=20;
  12@0 s=1.standalone c=Repha x=END m=80000000, 1@1 s=1.standalone c=Ra x=BASE_C m=80000000;
  12@0 c=Repha x=RA_TO_BECOME_REPH m=80000080, 1@1 c=Ra x=BASE_C m=80000000
Ra H PLACEHOLDER; mode=Explicit virama=4 below_of=4+1 after=20 init=10;
  1@0 s=1.symbol c=Ra x=END m=80000000, 4@2 s=1.symbol c=H x=END m=80000000,
  13@5 s=1.symbol c=PLACEHOLDER x=BASE_C m=80000000;
  1@0 c=Ra x=BELOW_C m=80000000, 4@2 c=H x=END m=80000000, 13@5 c=PLACEHOLDER x=BASE_C m=80000000
Ra H M; mode=Implicit virama=4 reph_of=1+4 below_of=4+1 level=1 rphf=40 before=30 after=10 half=20;
  1@0 s=1.consonant c=Ra x=END m=80000000, 4@1 s=1.consonant c=H x=END m=80000000,
  5@4 s=1.consonant c=M x=PRE_M m=80000000;
  5@0 c=M x=PRE_M m=80000030, 1@0 c=Ra x=BASE_C m=80000000, 4@0 c=H x=BASE_C m=80000010
Ra H ZWJ; mode=Implicit virama=4 reph_of=1+4,1+4+10 rphf=20 init=10;
  1@0 s=1.consonant c=Ra x=BASE_C m=80000000, 4@2 s=1.consonant c=H x=END m=80000000,
  10@3 s=1.consonant c=ZWJ x=END m=80000000;
  1@0 c=Ra x=PRE_C m=80000000, 4@2 c=H x=PRE_C m=80000000, 10@3 c=ZWJ x=PRE_C m=80000000
PLACEHOLDER CM; mode=Implicit level=1 before=30 after=10 half=20 pref=80 init=40;
  13@0 s=1.consonant c=PLACEHOLDER x=BASE_C m=80000000, 13@3 s=1.consonant c=CM x=END m=80000000;
  13@0 c=PLACEHOLDER x=PRE_C m=80000030, 13@3 c=CM x=PRE_C m=80000030
C H C; mode=Logical virama=4 level=1 rphf=80 before=60 after=30 half=40;
  2@0 s=1.consonant c=C x=BASE_C m=80000000, 4@0 s=1.consonant c=H x=END m=80000000,
  2@3 s=1.consonant c=C x=BASE_C m=80000000;
  2@0 c=C x=PRE_C m=80000060, 4@0 c=H x=PRE_C m=80000060, 2@3 c=C x=BASE_C m=80000000
MPst SM M; mode=Implicit virama=4 rphf=80 after=10 pref=40 init=20;
  6@0 s=1.consonant c=MPst x=BEFORE_POST m=80000000, 8@1 s=1.consonant c=SM x=SMVD m=80000000,
  6@3 s=1.consonant c=M x=BELOW_C m=80000000;
  6@0 c=MPst x=PRE_C m=80000000, 8@1 c=SM x=PRE_C m=80000000, 6@3 c=M x=PRE_C m=80000000
Ra H CS M; mode=Explicit virama=4 reph_of=1+4 level=1 rphf=20 after=10;
  1@0 s=1.broken c=Ra x=END m=80000000, 4@1 s=1.broken c=H x=END m=80000000, 13@2 s=1.broken c=CS x=BASE_C m=80000000,
  6@5 s=1.broken c=M x=BELOW_C m=80000000;
  1@0 c=Ra x=PRE_C m=80000000, 4@1 c=H x=PRE_C m=80000000, 13@2 c=CS x=BASE_C m=80000000, 6@5 c=M x=BELOW_C m=80000010
Ra M M; mode=Implicit virama=4 rphf=80 before=60 after=30 half=40;
  1@0 s=1.broken c=Ra x=END m=80000000, 6@1 s=1.broken c=M x=AFTER_POST m=80000000,
  5@2 s=1.broken c=M x=PRE_M m=80000000;
  5@0 c=M x=PRE_M m=80000060, 1@0 c=Ra x=BASE_C m=80000000, 6@0 c=M x=AFTER_POST m=80000030
C H M; mode=Implicit rphf=40 before=10 half=10 pref=20;
  13@0 s=1.vowel c=C x=BASE_C m=80000000, 4@3 s=1.vowel c=H x=END m=80000000, 5@4 s=1.vowel c=M x=PRE_M m=80000000;
  5@0 c=M x=PRE_M m=80000010, 13@0 c=C x=BASE_C m=80000000, 4@0 c=H x=BASE_C m=80000000
CS M MPst MPst; mode=Implicit virama=4 before=20 after=50 half=20;
  13@0 s=1.consonant c=CS x=END m=80000000, 6@3 s=1.consonant c=M x=AFTER_SUB m=80000000,
  5@4 s=1.consonant c=MPst x=PRE_M m=80000000, 5@6 s=1.consonant c=MPst x=PRE_M m=80000000;
  5@0 c=MPst x=PRE_M m=80000020, 5@0 c=MPst x=PRE_M m=80000020, 13@0 c=CS x=BASE_C m=80000000,
  6@0 c=M x=AFTER_SUB m=80000050
Ra RS H C; mode=Implicit virama=4 reph_of=1+4 pref_of=4+1 post_of=4+1 rphf=40 after=10 pref=20;
  1@0 s=1.consonant c=Ra x=BASE_C m=80000000, 8@0 s=1.consonant c=RS x=END m=80000000,
  4@1 s=1.consonant c=H x=END m=80000000, 13@2 s=1.consonant c=C x=END m=80000000;
  1@0 c=Ra x=PRE_C m=80000000, 8@0 c=RS x=PRE_C m=80000000, 4@1 c=H x=PRE_C m=80000000, 13@2 c=C x=BASE_C m=80000000
C M N M; mode=Logical virama=4 rphf=20 before=10 after=10;
  3@0 s=1.consonant c=C x=BASE_C m=80000000, 5@2 s=1.consonant c=M x=PRE_M m=80000000,
  9@3 s=1.consonant c=N x=END m=80000000, 5@3 s=1.consonant c=M x=PRE_M m=80000000;
  5@0 c=M x=PRE_M m=80000010, 5@0 c=M x=PRE_M m=80000010, 9@0 c=N x=PRE_M m=80000010, 3@0 c=C x=BASE_C m=80000000
A M MPst; mode=Logical virama=4 before=60 after=B0 half=40;
  8@0 s=1.consonant c=A x=SMVD m=80000000, 7@3 s=1.consonant c=M x=BEFORE_SUB m=80000000,
  6@5 s=1.consonant c=MPst x=BEFORE_POST m=80000000;
  8@0 c=A x=PRE_C m=80000060, 7@3 c=M x=PRE_C m=80000060, 6@5 c=MPst x=PRE_C m=80000060
Ra M A; mode=Implicit virama=4 level=1 rphf=80 before=20 after=10 half=20 pref=40;
  1@0 s=1.standalone c=Ra x=END m=80000000, 6@1 s=1.standalone c=M x=AFTER_SUB m=80000000,
  8@2 s=1.standalone c=A x=SMVD m=80000000;
  1@0 c=Ra x=BASE_C m=80000000, 6@1 c=M x=AFTER_SUB m=80000010, 8@2 c=A x=SMVD m=80000010
Ra H CS M A; mode=Explicit virama=4 reph_of=1+4 level=1 rphf=20 init=10;
  1@0 s=1.broken c=Ra x=END m=80000000, 4@2 s=1.broken c=H x=END m=80000000, 13@2 s=1.broken c=CS x=END m=80000000,
  5@2 s=1.broken c=M x=PRE_M m=80000000, 8@5 s=1.broken c=A x=SMVD m=80000000;
  5@0 c=M x=PRE_M m=80000000, 1@0 c=Ra x=PRE_C m=80000000, 4@0 c=H x=PRE_C m=80000000, 13@0 c=CS x=BASE_C m=80000000,
  8@5 c=A x=SMVD m=80000000
Ra H C H C; mode=Implicit virama=4 pref_of=4+3 post_of=4+3 level=1 after=10 pref=20;
  1@0 s=1.standalone c=Ra x=BASE_C m=80000000, 4@2 s=1.standalone c=H x=END m=80000000,
  3@3 s=1.standalone c=C x=BASE_C m=80000000, 4@5 s=1.standalone c=H x=END m=80000000,
  13@6 s=1.standalone c=C x=BASE_C m=80000000;
  1@0 c=Ra x=PRE_C m=80000000, 4@2 c=H x=PRE_C m=80000000, 3@3 c=C x=PRE_C m=80000000, 4@5 c=H x=PRE_C m=80000000,
  13@6 c=C x=BASE_C m=80000000
CS N M; mode=Explicit virama=4 level=1 rphf=40 after=10 pref=20;
  13@0 s=1.consonant c=CS x=END m=80000000, 9@2 s=1.consonant c=N x=END m=80000000,
  5@3 s=1.consonant c=M x=PRE_M m=80000000;
  5@0 c=M x=PRE_M m=80000000, 13@0 c=CS x=BASE_C m=80000000, 9@0 c=N x=BASE_C m=80000010
C; mode=Implicit virama=4 below_of=2+4 post_of=4+2 level=1 rphf=200 before=60 after=130 half=40 pref=80;
  2@0 s=1.non c=C x=END m=80000000; 2@0 c=C x=BELOW_C m=80000000
Ra H ZWJ M M; mode=Explicit virama=4 reph_of=1+4,1+4+10 rphf=10;
  1@0 s=1.vowel c=Ra x=BASE_C m=80000000, 4@1 s=1.vowel c=H x=END m=80000000, 10@3 s=1.vowel c=ZWJ x=END m=80000000,
  6@5 s=1.vowel c=M x=BELOW_C m=80000000, 6@7 s=1.vowel c=M x=BEFORE_POST m=80000000;
  1@0 c=Ra x=RA_TO_BECOME_REPH m=80000010, 4@1 c=H x=RA_TO_BECOME_REPH m=80000010,
  10@3 c=ZWJ x=RA_TO_BECOME_REPH m=80000010, 6@5 c=M x=BELOW_C m=80000000, 6@7 c=M x=BEFORE_POST m=80000000
Repha C H C H M; mode=Implicit virama=4 post_of=4+3 level=1 after=10;
  12@0 s=1.non c=Repha x=END m=80000000, 3@1 s=1.non c=C x=BASE_C m=80000000, 4@2 s=1.non c=H x=END m=80000000,
  2@3 s=1.non c=C x=END m=80000000, 4@6 s=1.non c=H x=END m=80000000, 6@6 s=1.non c=M x=AFTER_POST m=80000000;
  12@0 c=Repha x=END m=80000000, 3@1 c=C x=POST_C m=80000000, 4@2 c=H x=END m=80000000, 2@3 c=C x=END m=80000000,
  4@6 c=H x=END m=80000000, 6@6 c=M x=AFTER_POST m=80000000
PLACEHOLDER H C H CS M; mode=Implicit virama=4 level=1 after=10;
  13@0 s=1.consonant c=PLACEHOLDER x=END m=80000000, 4@3 s=1.consonant c=H x=END m=80000000,
  2@3 s=1.consonant c=C x=BASE_C m=80000000, 4@6 s=1.consonant c=H x=END m=80000000,
  13@8 s=1.consonant c=CS x=BASE_C m=80000000, 7@9 s=1.consonant c=M x=BELOW_C m=80000000;
  13@0 c=PLACEHOLDER x=PRE_C m=80000000, 4@3 c=H x=PRE_C m=80000000, 2@3 c=C x=PRE_C m=80000000,
  4@6 c=H x=PRE_C m=80000000, 13@8 c=CS x=BASE_C m=80000000, 7@9 c=M x=BELOW_C m=80000010
Repha PLACEHOLDER M N M; mode=Explicit virama=4 rphf=20 init=10;
  12@0 s=1.broken c=Repha x=END m=80000000, 13@2 s=1.broken c=PLACEHOLDER x=END m=80000000,
  7@4 s=1.broken c=M x=BEFORE_SUB m=80000000, 9@5 s=1.broken c=N x=END m=80000000,
  7@7 s=1.broken c=M x=AFTER_MAIN m=80000000;
  12@0 c=Repha x=PRE_C m=80000000, 13@2 c=PLACEHOLDER x=BASE_C m=80000000, 7@4 c=M x=AFTER_MAIN m=80000000,
  7@4 c=M x=BEFORE_SUB m=80000000, 9@4 c=N x=BEFORE_SUB m=80000000
Ra SM M M; mode=Explicit level=1 before=40 after=30 half=40 pref=80;
  1@0 s=1.consonant c=Ra x=BASE_C m=80000000, 8@2 s=1.consonant c=SM x=SMVD m=80000000,
  5@5 s=1.consonant c=M x=PRE_M m=80000000, 7@6 s=1.consonant c=M x=AFTER_MAIN m=80000000;
  5@0 c=M x=PRE_M m=80000040, 1@0 c=Ra x=BASE_C m=80000000, 7@0 c=M x=AFTER_MAIN m=80000030, 8@0 c=SM x=SMVD m=80000030
Ra H C M; mode=Implicit virama=4 reph_of=1+4 below_of=4+1 level=1 rphf=40 after=30;
  1@0 s=1.broken c=Ra x=BASE_C m=80000000, 4@2 s=1.broken c=H x=END m=80000000,
  2@4 s=1.broken c=C x=BASE_C m=80000000, 5@7 s=1.broken c=M x=PRE_M m=80000000;
  1@0 c=Ra x=RA_TO_BECOME_REPH m=80000040, 4@2 c=H x=RA_TO_BECOME_REPH m=80000040, 5@4 c=M x=PRE_M m=80000000,
  2@4 c=C x=BASE_C m=80000000
Ra H C N; mode=Logical virama=4 reph_of=1+4 pref_of=4+1 below_of=4+1 post_of=4+1 rphf=40 pref=20 init=10;
  1@0 s=1.consonant c=Ra x=END m=80000000, 4@1 s=1.consonant c=H x=END m=80000000,
  2@3 s=1.consonant c=C x=END m=80000000, 9@4 s=1.consonant c=N x=END m=80000000;
  1@0 c=Ra x=PRE_C m=80000000, 4@1 c=H x=PRE_C m=80000000, 2@3 c=C x=BASE_C m=80000000, 9@4 c=N x=BASE_C m=80000000
Ra H C H C; mode=Implicit virama=4 reph_of=1+4 post_of=3+4 rphf=40 after=20 init=10;
  1@0 s=1.standalone c=Ra x=BASE_C m=80000000, 4@2 s=1.standalone c=H x=END m=80000000,
  3@3 s=1.standalone c=C x=BASE_C m=80000000, 4@4 s=1.standalone c=H x=END m=80000000,
  13@5 s=1.standalone c=C x=END m=80000000;
  1@0 c=Ra x=RA_TO_BECOME_REPH m=80000040, 4@2 c=H x=RA_TO_BECOME_REPH m=80000040, 3@3 c=C x=PRE_C m=80000000,
  4@4 c=H x=PRE_C m=80000000, 13@5 c=C x=BASE_C m=80000000
Ra H ZWJ PLACEHOLDER MPst; mode=Explicit virama=4 reph_of=1+4 below_of=4+1 rphf=20 pref=10;
  1@0 s=1.vowel c=Ra x=END m=80000000, 4@1 s=1.vowel c=H x=END m=80000000, 10@3 s=1.vowel c=ZWJ x=END m=80000000,
  13@4 s=1.vowel c=PLACEHOLDER x=END m=80000000, 6@4 s=1.vowel c=MPst x=AFTER_POST m=80000000;
  1@0 c=Ra x=RA_TO_BECOME_REPH m=80000020, 4@1 c=H x=RA_TO_BECOME_REPH m=80000020,
  10@3 c=ZWJ x=RA_TO_BECOME_REPH m=80000020, 13@4 c=PLACEHOLDER x=BASE_C m=80000000,
  6@4 c=MPst x=AFTER_POST m=80000000
Ra H H A M; mode=Implicit virama=4 reph_of=1+4 level=1 rphf=40 before=20 after=30;
  1@0 s=1.standalone c=Ra x=BASE_C m=80000000, 4@1 s=1.standalone c=H x=END m=80000000,
  4@2 s=1.standalone c=H x=END m=80000000, 8@3 s=1.standalone c=A x=SMVD m=80000000,
  6@5 s=1.standalone c=M x=BEFORE_POST m=80000000;
  1@0 c=Ra x=BASE_C m=80000000, 4@1 c=H x=BASE_C m=80000030, 4@2 c=H x=BASE_C m=80000030,
  6@3 c=M x=BEFORE_POST m=80000030, 8@3 c=A x=SMVD m=80000030
Ra H PLACEHOLDER;
  mode=Implicit virama=4 reph_of=1+4 pref_of=4+1 post_of=4+1 level=1 rphf=100 before=20 after=B0 pref=40;
  1@0 s=1.consonant c=Ra x=BASE_C m=80000000, 4@2 s=1.consonant c=H x=END m=80000000,
  13@3 s=1.consonant c=PLACEHOLDER x=END m=80000000;
  1@0 c=Ra x=RA_TO_BECOME_REPH m=80000120, 4@2 c=H x=RA_TO_BECOME_REPH m=80000120,
  13@3 c=PLACEHOLDER x=BASE_C m=80000000
Ra H C M M; mode=Logical virama=4 pref_of=4+3 post_of=4+3 level=1 before=10 after=40 half=10 pref=20;
  1@0 s=1.consonant c=Ra x=END m=80000000, 4@0 s=1.consonant c=H x=END m=80000000,
  3@0 s=1.consonant c=C x=END m=80000000, 5@1 s=1.consonant c=M x=PRE_M m=80000000,
  6@4 s=1.consonant c=M x=BELOW_C m=80000000;
  5@0 c=M x=PRE_M m=80000010, 1@0 c=Ra x=BASE_C m=80000000, 6@0 c=M x=BELOW_C m=80000040, 4@0 c=H x=POST_C m=80000060,
  3@0 c=C x=POST_C m=80000060
Ra H ZWNJ; mode=Logical virama=4 reph_of=1+4 pref_of=4+1 post_of=4+1 level=1 rphf=80 before=10 half=10 pref=40 init=20;
  1@0 s=1.consonant c=Ra x=BASE_C m=80000000, 4@1 s=1.consonant c=H x=END m=80000000,
  11@2 s=1.consonant c=ZWNJ x=END m=80000000;
  1@0 c=Ra x=BASE_C m=80000000, 4@1 c=H x=BASE_C m=80000000, 11@2 c=ZWNJ x=BASE_C m=80000000
V H ZWJ C N M; mode=Logical virama=4 below_of=4+3 before=10 after=10 init=20;
  13@0 s=1.standalone c=V x=BASE_C m=80000000, 4@1 s=1.standalone c=H x=END m=80000000,
  10@2 s=1.standalone c=ZWJ x=END m=80000000, 3@2 s=1.standalone c=C x=END m=80000000,
  9@5 s=1.standalone c=N x=END m=80000000, 7@7 s=1.standalone c=M x=AFTER_MAIN m=80000000;
  13@0 c=V x=PRE_C m=80000010, 4@1 c=H x=PRE_C m=80000010, 10@2 c=ZWJ x=PRE_C m=80000010, 3@2 c=C x=BASE_C m=80000000,
  9@5 c=N x=BASE_C m=80000010, 7@7 c=M x=AFTER_MAIN m=80000010
PLACEHOLDER H Ra N; mode=Implicit virama=4 reph_of=1+4 level=1 rphf=80 before=10 after=40 half=10 pref=20;
  13@0 s=1.consonant c=PLACEHOLDER x=END m=80000000, 4@1 s=1.consonant c=H x=END m=80000000,
  1@2 s=1.consonant c=Ra x=END m=80000000, 9@3 s=1.consonant c=N x=END m=80000000;
  13@0 c=PLACEHOLDER x=PRE_C m=80000010, 4@1 c=H x=PRE_C m=80000010, 1@2 c=Ra x=BASE_C m=80000000,
  9@3 c=N x=BASE_C m=80000040
Ra H Ra N SM M M; mode=Implicit virama=4 level=1;
  1@0 s=1.consonant c=Ra x=BASE_C m=80000000, 4@1 s=1.consonant c=H x=END m=80000000,
  1@2 s=1.consonant c=Ra x=END m=80000000, 9@3 s=1.consonant c=N x=END m=80000000,
  8@4 s=1.consonant c=SM x=SMVD m=80000000, 6@5 s=1.consonant c=M x=BELOW_C m=80000000,
  7@7 s=1.consonant c=M x=BEFORE_SUB m=80000000;
  1@0 c=Ra x=PRE_C m=80000000, 4@1 c=H x=PRE_C m=80000000, 1@2 c=Ra x=BASE_C m=80000000, 9@3 c=N x=BASE_C m=80000000,
  7@4 c=M x=BEFORE_SUB m=80000000, 6@4 c=M x=BELOW_C m=80000000, 8@4 c=SM x=SMVD m=80000000
Ra H CS H C; mode=Implicit virama=4 reph_of=1+4 pref_of=4+1 below_of=4+1 post_of=4+1 rphf=40 before=10 half=10 pref=20;
  1@0 s=1.symbol c=Ra x=END m=80000000, 4@2 s=1.symbol c=H x=END m=80000000, 13@3 s=1.symbol c=CS x=END m=80000000,
  4@4 s=1.symbol c=H x=END m=80000000, 3@7 s=1.symbol c=C x=BASE_C m=80000000;
  1@0 c=Ra x=BELOW_C m=80000000, 4@2 c=H x=END m=80000000, 13@3 c=CS x=END m=80000000, 4@4 c=H x=END m=80000000,
  3@7 c=C x=BASE_C m=80000000
CS H C N; mode=Implicit virama=4 pref_of=4+3 post_of=4+3 level=1 rphf=80 before=30 after=10 half=20 pref=40;
  13@0 s=1.consonant c=CS x=BASE_C m=80000000, 4@1 s=1.consonant c=H x=END m=80000000,
  3@2 s=1.consonant c=C x=BASE_C m=80000000, 9@3 s=1.consonant c=N x=END m=80000000;
  13@0 c=CS x=BASE_C m=80000000, 4@1 c=H x=POST_C m=80000050, 3@2 c=C x=POST_C m=80000050, 9@3 c=N x=POST_C m=80000010
C H ZWNJ V; mode=Implicit virama=4 below_of=4+3 rphf=100 before=20 after=30 pref=80 init=40;
  3@0 s=1.consonant c=C x=BASE_C m=80000000, 4@3 s=1.consonant c=H x=END m=80000000,
  11@5 s=1.consonant c=ZWNJ x=END m=80000000, 13@8 s=1.consonant c=V x=BASE_C m=80000000;
  3@0 c=C x=PRE_C m=80000020, 4@3 c=H x=PRE_C m=80000020, 11@5 c=ZWNJ x=PRE_C m=80000020, 13@8 c=V x=BASE_C m=80000000
Ra H PLACEHOLDER H C; mode=Implicit virama=4 reph_of=1+4 pref_of=4+3 post_of=4+3 rphf=40 before=10 half=10 pref=20;
  1@0 s=1.vowel c=Ra x=END m=80000000, 4@1 s=1.vowel c=H x=END m=80000000,
  13@3 s=1.vowel c=PLACEHOLDER x=END m=80000000, 4@4 s=1.vowel c=H x=END m=80000000,
  3@6 s=1.vowel c=C x=BASE_C m=80000000;
  1@0 c=Ra x=RA_TO_BECOME_REPH m=80000050, 4@1 c=H x=RA_TO_BECOME_REPH m=80000050,
  13@3 c=PLACEHOLDER x=BASE_C m=80000000, 4@4 c=H x=POST_C m=80000020, 3@6 c=C x=POST_C m=80000020
PLACEHOLDER H V H Ra; mode=Implicit virama=4 reph_of=1+4 pref_of=4+1 post_of=4+1 rphf=40 before=10 after=10 pref=20;
  13@0 s=1.consonant c=PLACEHOLDER x=END m=80000000, 4@1 s=1.consonant c=H x=END m=80000000,
  13@2 s=1.consonant c=V x=END m=80000000, 4@4 s=1.consonant c=H x=END m=80000000,
  1@5 s=1.consonant c=Ra x=BASE_C m=80000000;
  13@0 c=PLACEHOLDER x=PRE_C m=80000010, 4@1 c=H x=PRE_C m=80000010, 13@2 c=V x=BASE_C m=80000000,
  4@4 c=H x=POST_C m=80000030, 1@5 c=Ra x=POST_C m=80000030
Ra H MPst N M; mode=Implicit virama=4 pref_of=4+1 below_of=4+1 post_of=4+1 before=20 after=30 pref=40;
  1@0 s=1.broken c=Ra x=BASE_C m=80000000, 4@2 s=1.broken c=H x=END m=80000000,
  6@4 s=1.broken c=MPst x=AFTER_SUB m=80000000, 9@5 s=1.broken c=N x=END m=80000000,
  7@5 s=1.broken c=M x=AFTER_POST m=80000000;
  1@0 c=Ra x=BASE_C m=80000000, 4@2 c=H x=BASE_C m=80000030, 6@4 c=MPst x=AFTER_SUB m=80000030,
  9@5 c=N x=AFTER_SUB m=80000030, 7@5 c=M x=AFTER_POST m=80000030
Ra H ZWNJ V N N; mode=Explicit virama=4 before=10 after=40 half=10 init=20;
  1@0 s=1.vowel c=Ra x=END m=80000000, 4@0 s=1.vowel c=H x=END m=80000000, 11@1 s=1.vowel c=ZWNJ x=END m=80000000,
  13@2 s=1.vowel c=V x=BASE_C m=80000000, 9@3 s=1.vowel c=N x=END m=80000000, 9@6 s=1.vowel c=N x=END m=80000000;
  1@0 c=Ra x=PRE_C m=80000000, 4@0 c=H x=PRE_C m=80000000, 11@1 c=ZWNJ x=PRE_C m=80000010,
  13@2 c=V x=BASE_C m=80000000, 9@3 c=N x=BASE_C m=80000040, 9@6 c=N x=BASE_C m=80000040
V N H PLACEHOLDER; mode=Implicit virama=4 level=1 rphf=80 before=20 after=50 half=20;
  13@0 s=1.broken c=V x=END m=80000000, 9@1 s=1.broken c=N x=END m=80000000, 4@4 s=1.broken c=H x=END m=80000000,
  13@5 s=1.broken c=PLACEHOLDER x=END m=80000000;
  13@0 c=V x=PRE_C m=80000020, 9@1 c=N x=PRE_C m=80000020, 4@4 c=H x=PRE_C m=80000020,
  13@5 c=PLACEHOLDER x=BASE_C m=80000000
V H PLACEHOLDER H M M; mode=Implicit virama=4 rphf=20 before=10 after=10;
  13@0 s=1.consonant c=V x=BASE_C m=80000000, 4@1 s=1.consonant c=H x=END m=80000000,
  13@2 s=1.consonant c=PLACEHOLDER x=END m=80000000, 4@3 s=1.consonant c=H x=END m=80000000,
  7@5 s=1.consonant c=M x=BEFORE_POST m=80000000, 5@6 s=1.consonant c=M x=PRE_M m=80000000;
  5@0 c=M x=PRE_M m=80000010, 13@0 c=V x=PRE_C m=80000010, 4@0 c=H x=PRE_C m=80000010,
  13@0 c=PLACEHOLDER x=BASE_C m=80000000, 4@0 c=H x=BASE_C m=80000010, 7@0 c=M x=BEFORE_POST m=80000010
V H C MPst VD; mode=Implicit virama=4 rphf=40 before=20 after=10 half=20;
  13@0 s=1.consonant c=V x=END m=80000000, 4@1 s=1.consonant c=H x=END m=80000000,
  3@2 s=1.consonant c=C x=BASE_C m=80000000, 7@2 s=1.consonant c=MPst x=AFTER_SUB m=80000000,
  8@3 s=1.consonant c=VD x=SMVD m=80000000;
  13@0 c=V x=PRE_C m=80000020, 4@1 c=H x=PRE_C m=80000020, 3@2 c=C x=BASE_C m=80000000,
  7@2 c=MPst x=AFTER_SUB m=80000010, 8@3 c=VD x=SMVD m=80000010
Ra H ZWJ MPst; mode=Explicit virama=4 reph_of=1+4,1+4+10 level=1 rphf=100 before=20 after=90 half=20 init=40;
  1@0 s=1.consonant c=Ra x=END m=80000000, 4@1 s=1.consonant c=H x=END m=80000000,
  10@2 s=1.consonant c=ZWJ x=END m=80000000, 7@3 s=1.consonant c=MPst x=BELOW_C m=80000000;
  1@0 c=Ra x=RA_TO_BECOME_REPH m=80000120, 4@1 c=H x=RA_TO_BECOME_REPH m=80000120,
  10@2 c=ZWJ x=RA_TO_BECOME_REPH m=80000120, 7@3 c=MPst x=BELOW_C m=80000020
C H C CM H CS; mode=Implicit virama=4 rphf=40 before=20 after=10 half=20;
  3@0 s=1.vowel c=C x=BASE_C m=80000000, 4@2 s=1.vowel c=H x=END m=80000000, 13@3 s=1.vowel c=C x=END m=80000000,
  13@4 s=1.vowel c=CM x=END m=80000000, 4@5 s=1.vowel c=H x=END m=80000000, 13@8 s=1.vowel c=CS x=END m=80000000;
  3@0 c=C x=PRE_C m=80000020, 4@2 c=H x=PRE_C m=80000020, 13@3 c=C x=PRE_C m=80000020, 13@4 c=CM x=PRE_C m=80000020,
  4@5 c=H x=PRE_C m=80000020, 13@8 c=CS x=BASE_C m=80000000
Ra H M MPst M; mode=Implicit virama=4 level=1 rphf=80 before=20 after=30 init=40;
  1@0 s=1.standalone c=Ra x=END m=80000000, 4@1 s=1.standalone c=H x=END m=80000000,
  7@2 s=1.standalone c=M x=BELOW_C m=80000000, 5@3 s=1.standalone c=MPst x=PRE_M m=80000000,
  7@4 s=1.standalone c=M x=BELOW_C m=80000000;
  5@0 c=MPst x=PRE_M m=80000020, 1@0 c=Ra x=BASE_C m=80000000, 4@0 c=H x=BASE_C m=80000030,
  7@0 c=M x=BELOW_C m=80000030, 7@4 c=M x=BELOW_C m=80000030
C H ZWNJ V VD N M; mode=Implicit virama=4 rphf=20 after=10;
  13@0 s=1.consonant c=C x=BASE_C m=80000000, 4@2 s=1.consonant c=H x=END m=80000000,
  11@2 s=1.consonant c=ZWNJ x=END m=80000000, 13@5 s=1.consonant c=V x=BASE_C m=80000000,
  8@6 s=1.consonant c=VD x=SMVD m=80000000, 9@6 s=1.consonant c=N x=END m=80000000,
  6@8 s=1.consonant c=M x=BEFORE_SUB m=80000000;
  13@0 c=C x=PRE_C m=80000000, 4@2 c=H x=PRE_C m=80000000, 11@2 c=ZWNJ x=PRE_C m=80000000,
  13@5 c=V x=BASE_C m=80000000, 6@6 c=M x=BEFORE_SUB m=80000010, 8@6 c=VD x=SMVD m=80000010, 9@6 c=N x=SMVD m=80000010
C M A; mode=Implicit virama=4 level=1 rphf=100 before=20 after=B0 pref=40;
  13@0 s=1.vowel c=C x=BASE_C m=80000000, 5@3 s=1.vowel c=M x=PRE_M m=80000000, 8@5 s=1.vowel c=A x=SMVD m=80000000;
  5@0 c=M x=PRE_M m=80000020, 13@0 c=C x=BASE_C m=80000000, 8@5 c=A x=SMVD m=800000B0
Ra H ZWNJ Ra H CS N; mode=Explicit virama=4 reph_of=1+4 level=1 rphf=20 after=10;
  1@0 s=1.consonant c=Ra x=BASE_C m=80000000, 4@3 s=1.consonant c=H x=END m=80000000,
  11@4 s=1.consonant c=ZWNJ x=END m=80000000, 1@7 s=1.consonant c=Ra x=END m=80000000,
  4@10 s=1.consonant c=H x=END m=80000000, 13@13 s=1.consonant c=CS x=BASE_C m=80000000,
  9@13 s=1.consonant c=N x=END m=80000000;
  1@0 c=Ra x=PRE_C m=80000000, 4@3 c=H x=PRE_C m=80000000, 11@4 c=ZWNJ x=PRE_C m=80000000,
  1@7 c=Ra x=PRE_C m=80000000, 4@10 c=H x=PRE_C m=80000000, 13@13 c=CS x=BASE_C m=80000000,
  9@13 c=N x=BASE_C m=80000010
Repha C H CS; mode=Implicit virama=4 level=1 rphf=100 before=20 after=30 pref=80 init=40;
  12@0 s=1.consonant c=Repha x=END m=80000000, 13@3 s=1.consonant c=C x=BASE_C m=80000000,
  4@4 s=1.consonant c=H x=END m=80000000, 13@6 s=1.consonant c=CS x=BASE_C m=80000000;
  12@0 c=Repha x=PRE_C m=80000020, 13@3 c=C x=PRE_C m=80000020, 4@4 c=H x=PRE_C m=80000020,
  13@6 c=CS x=BASE_C m=80000000
C M M MPst; mode=Explicit virama=4 below_of=3+4 rphf=100 before=40 after=B0 half=40;
  3@0 s=1.consonant c=C x=END m=80000000, 7@2 s=1.consonant c=M x=AFTER_POST m=80000000,
  7@2 s=1.consonant c=M x=BEFORE_SUB m=80000000, 6@4 s=1.consonant c=MPst x=BEFORE_POST m=80000000;
  3@0 c=C x=BASE_C m=80000000, 7@2 c=M x=BEFORE_SUB m=800000B0, 6@2 c=MPst x=BEFORE_POST m=800000B0,
  7@2 c=M x=AFTER_POST m=800000B0
Ra H C H PLACEHOLDER H C; mode=Logical virama=4 below_of=4+3 post_of=3+4 before=10 after=30;
  1@0 s=1.consonant c=Ra x=BASE_C m=80000000, 4@1 s=1.consonant c=H x=END m=80000000,
  13@4 s=1.consonant c=C x=BASE_C m=80000000, 4@6 s=1.consonant c=H x=END m=80000000,
  13@7 s=1.consonant c=PLACEHOLDER x=END m=80000000, 4@8 s=1.consonant c=H x=END m=80000000,
  3@10 s=1.consonant c=C x=END m=80000000;
  1@0 c=Ra x=PRE_C m=80000010, 4@1 c=H x=PRE_C m=80000010, 13@4 c=C x=PRE_C m=80000010, 4@6 c=H x=PRE_C m=80000010,
  13@7 c=PLACEHOLDER x=BASE_C m=80000000, 4@8 c=H x=BELOW_C m=80000030, 3@10 c=C x=BELOW_C m=80000030
PLACEHOLDER H C H M MPst; mode=Implicit virama=4 level=1 rphf=80 before=10 half=10 pref=40 init=20;
  13@0 s=1.consonant c=PLACEHOLDER x=END m=80000000, 4@1 s=1.consonant c=H x=END m=80000000,
  13@3 s=1.consonant c=C x=BASE_C m=80000000, 4@4 s=1.consonant c=H x=END m=80000000,
  6@5 s=1.consonant c=M x=AFTER_POST m=80000000, 5@6 s=1.consonant c=MPst x=PRE_M m=80000000;
  5@0 c=MPst x=PRE_M m=80000010, 13@0 c=PLACEHOLDER x=PRE_C m=80000010, 4@0 c=H x=PRE_C m=80000010,
  13@0 c=C x=BASE_C m=80000000, 4@0 c=H x=BASE_C m=80000000, 6@0 c=M x=AFTER_POST m=80000000
C H M SM M; mode=Implicit virama=4 level=1 rphf=100 before=10 after=90 pref=40 init=20;
  3@0 s=1.consonant c=C x=END m=80000000, 4@3 s=1.consonant c=H x=END m=80000000,
  7@4 s=1.consonant c=M x=BEFORE_POST m=80000000, 8@7 s=1.consonant c=SM x=SMVD m=80000000,
  6@8 s=1.consonant c=M x=AFTER_MAIN m=80000000;
  3@0 c=C x=BASE_C m=80000000, 4@3 c=H x=BASE_C m=80000090, 6@4 c=M x=AFTER_MAIN m=80000090,
  7@4 c=M x=BEFORE_POST m=80000090, 8@4 c=SM x=SMVD m=80000090
Ra H PLACEHOLDER M MPst;
  mode=Implicit virama=4 reph_of=1+4 pref_of=4+1 post_of=4+1 rphf=100 before=20 after=30 pref=80 init=40;
  1@0 s=1.non c=Ra x=BASE_C m=80000000, 4@0 s=1.non c=H x=END m=80000000, 13@3 s=1.non c=PLACEHOLDER x=END m=80000000,
  6@5 s=1.non c=M x=BELOW_C m=80000000, 7@6 s=1.non c=MPst x=BELOW_C m=80000000;
  1@0 c=Ra x=POST_C m=80000000, 4@0 c=H x=END m=80000000, 13@3 c=PLACEHOLDER x=END m=80000000,
  6@5 c=M x=BELOW_C m=80000000, 7@6 c=MPst x=BELOW_C m=80000000
Ra H C H C MPst M; mode=Implicit virama=4 reph_of=1+4 below_of=4+1 level=1 rphf=20 after=10;
  1@0 s=1.consonant c=Ra x=BASE_C m=80000000, 4@3 s=1.consonant c=H x=END m=80000000,
  13@4 s=1.consonant c=C x=BASE_C m=80000000, 4@7 s=1.consonant c=H x=END m=80000000,
  13@8 s=1.consonant c=C x=BASE_C m=80000000, 6@11 s=1.consonant c=MPst x=BELOW_C m=80000000,
  6@14 s=1.consonant c=M x=AFTER_POST m=80000000;
  1@0 c=Ra x=RA_TO_BECOME_REPH m=80000020, 4@3 c=H x=RA_TO_BECOME_REPH m=80000020, 13@4 c=C x=PRE_C m=80000000,
  4@7 c=H x=PRE_C m=80000000, 13@8 c=C x=BASE_C m=80000000, 6@11 c=MPst x=BELOW_C m=80000010,
  6@14 c=M x=AFTER_POST m=80000010
CS H ZWJ C CM H CS A; mode=Implicit virama=4 level=1 before=10 after=20 half=10;
  13@0 s=1.consonant c=CS x=BASE_C m=80000000, 4@2 s=1.consonant c=H x=END m=80000000,
  10@3 s=1.consonant c=ZWJ x=END m=80000000, 3@4 s=1.consonant c=C x=BASE_C m=80000000,
  13@7 s=1.consonant c=CM x=END m=80000000, 4@8 s=1.consonant c=H x=END m=80000000,
  13@9 s=1.consonant c=CS x=BASE_C m=80000000, 8@12 s=1.consonant c=A x=SMVD m=80000000;
  13@0 c=CS x=PRE_C m=80000010, 4@2 c=H x=PRE_C m=80000010, 10@3 c=ZWJ x=PRE_C m=80000010, 3@4 c=C x=PRE_C m=80000010,
  13@7 c=CM x=PRE_C m=80000010, 4@8 c=H x=PRE_C m=80000010, 13@9 c=CS x=BASE_C m=80000000, 8@12 c=A x=SMVD m=80000020
V H C H C; mode=Implicit virama=4 below_of=4+2 rphf=200 before=60 after=30 half=40 pref=100 init=80;
  13@0 s=1.symbol c=V x=BASE_C m=80000000, 4@1 s=1.symbol c=H x=END m=80000000, 13@2 s=1.symbol c=C x=END m=80000000,
  4@3 s=1.symbol c=H x=END m=80000000, 2@5 s=1.symbol c=C x=BASE_C m=80000000;
  13@0 c=V x=BASE_C m=80000000, 4@1 c=H x=END m=80000000, 13@2 c=C x=END m=80000000, 4@3 c=H x=END m=80000000,
  2@5 c=C x=BELOW_C m=80000000
C H C CM M; mode=Logical virama=4 below_of=4+3 rphf=200 before=60 after=130 half=40 init=80;
  13@0 s=1.consonant c=C x=END m=80000000, 4@0 s=1.consonant c=H x=END m=80000000,
  3@3 s=1.consonant c=C x=BASE_C m=80000000, 13@5 s=1.consonant c=CM x=END m=80000000,
  6@6 s=1.consonant c=M x=BEFORE_SUB m=80000000;
  13@0 c=C x=PRE_C m=80000060, 4@0 c=H x=PRE_C m=80000060, 3@3 c=C x=PRE_C m=80000060, 13@5 c=CM x=PRE_C m=80000060,
  6@6 c=M x=BEFORE_SUB m=80000060
Ra H PLACEHOLDER H Ra RS H CS M; mode=Implicit virama=4 pref=10;
  1@0 s=1.consonant c=Ra x=BASE_C m=80000000, 4@2 s=1.consonant c=H x=END m=80000000,
  13@3 s=1.consonant c=PLACEHOLDER x=BASE_C m=80000000, 4@3 s=1.consonant c=H x=END m=80000000,
  1@5 s=1.consonant c=Ra x=BASE_C m=80000000, 8@6 s=1.consonant c=RS x=END m=80000000,
  4@8 s=1.consonant c=H x=END m=80000000, 13@9 s=1.consonant c=CS x=BASE_C m=80000000,
  6@12 s=1.consonant c=M x=BEFORE_SUB m=80000000;
  1@0 c=Ra x=PRE_C m=80000000, 4@2 c=H x=PRE_C m=80000000, 13@3 c=PLACEHOLDER x=PRE_C m=80000000,
  4@3 c=H x=PRE_C m=80000000, 1@5 c=Ra x=PRE_C m=80000000, 8@6 c=RS x=PRE_C m=80000000, 4@8 c=H x=PRE_C m=80000000,
  13@9 c=CS x=BASE_C m=80000000, 6@12 c=M x=BEFORE_SUB m=80000000
V H ZWJ CS H; mode=Implicit virama=4 level=1 rphf=200 before=60 after=130 half=40 pref=80;
  13@0 s=1.consonant c=V x=BASE_C m=80000000, 4@2 s=1.consonant c=H x=END m=80000000,
  10@3 s=1.consonant c=ZWJ x=END m=80000000, 13@4 s=1.consonant c=CS x=END m=80000000,
  4@5 s=1.consonant c=H x=END m=80000000;
  13@0 c=V x=PRE_C m=80000060, 4@2 c=H x=PRE_C m=80000060, 10@3 c=ZWJ x=PRE_C m=80000060,
  13@4 c=CS x=BASE_C m=80000000, 4@5 c=H x=BASE_C m=80000130
Ra H ZWJ Ra MPst; mode=Explicit virama=4 below_of=4+1 level=1 rphf=100 after=B0 init=40;
  1@0 s=1.consonant c=Ra x=END m=80000000, 4@1 s=1.consonant c=H x=END m=80000000,
  10@2 s=1.consonant c=ZWJ x=END m=80000000, 1@4 s=1.consonant c=Ra x=BASE_C m=80000000,
  5@5 s=1.consonant c=MPst x=PRE_M m=80000000;
  5@0 c=MPst x=PRE_M m=80000000, 1@0 c=Ra x=PRE_C m=80000000, 4@0 c=H x=PRE_C m=80000000,
  10@0 c=ZWJ x=PRE_C m=80000000, 1@0 c=Ra x=BASE_C m=80000000
Repha CS N H CS N H V M; mode=Explicit virama=4 before=10 half=10;
  12@0 s=1.consonant c=Repha x=END m=80000000, 13@0 s=1.consonant c=CS x=BASE_C m=80000000,
  9@1 s=1.consonant c=N x=END m=80000000, 4@2 s=1.consonant c=H x=END m=80000000,
  13@5 s=1.consonant c=CS x=END m=80000000, 9@6 s=1.consonant c=N x=END m=80000000,
  4@8 s=1.consonant c=H x=END m=80000000, 13@10 s=1.consonant c=V x=BASE_C m=80000000,
  6@11 s=1.consonant c=M x=BEFORE_POST m=80000000;
  12@0 c=Repha x=PRE_C m=80000010, 13@0 c=CS x=PRE_C m=80000010, 9@1 c=N x=PRE_C m=80000010,
  4@2 c=H x=PRE_C m=80000010, 13@5 c=CS x=PRE_C m=80000010, 9@6 c=N x=PRE_C m=80000010, 4@8 c=H x=PRE_C m=80000010,
  13@10 c=V x=BASE_C m=80000000, 6@11 c=M x=BEFORE_POST m=80000000
Ra H Ra H Ra H M VD;
  mode=Explicit virama=4 reph_of=1+4 pref_of=4+1 post_of=4+1 level=1 rphf=40 before=10 half=10 pref=20;
  1@0 s=1.consonant c=Ra x=END m=80000000, 4@1 s=1.consonant c=H x=END m=80000000,
  1@3 s=1.consonant c=Ra x=END m=80000000, 4@4 s=1.consonant c=H x=END m=80000000,
  1@6 s=1.consonant c=Ra x=BASE_C m=80000000, 4@7 s=1.consonant c=H x=END m=80000000,
  7@9 s=1.consonant c=M x=BEFORE_SUB m=80000000, 8@9 s=1.consonant c=VD x=SMVD m=80000000;
  1@0 c=Ra x=BASE_C m=80000000, 7@1 c=M x=BEFORE_SUB m=80000000, 4@1 c=H x=POST_C m=80000020,
  1@1 c=Ra x=POST_C m=80000020, 4@1 c=H x=POST_C m=80000000, 1@1 c=Ra x=POST_C m=80000000,
  4@1 c=H x=POST_C m=80000000, 8@1 c=VD x=SMVD m=80000000
V RS H PLACEHOLDER M VD M; mode=Implicit virama=4 rphf=80 before=60 after=30 half=40;
  13@0 s=1.vowel c=V x=BASE_C m=80000000, 8@1 s=1.vowel c=RS x=END m=80000000, 4@2 s=1.vowel c=H x=END m=80000000,
  13@5 s=1.vowel c=PLACEHOLDER x=BASE_C m=80000000, 5@6 s=1.vowel c=M x=PRE_M m=80000000,
  8@8 s=1.vowel c=VD x=SMVD m=80000000, 5@10 s=1.vowel c=M x=PRE_M m=80000000;
  5@0 c=M x=PRE_M m=80000060, 5@0 c=M x=PRE_M m=80000060, 13@0 c=V x=PRE_C m=80000060, 8@0 c=RS x=PRE_C m=80000060,
  4@0 c=H x=PRE_C m=80000060, 13@0 c=PLACEHOLDER x=BASE_C m=80000000, 8@0 c=VD x=SMVD m=80000030
Ra H PLACEHOLDER CM H PLACEHOLDER M; mode=Implicit virama=4 before=10 after=10 pref=40 init=20;
  1@0 s=1.vowel c=Ra x=BASE_C m=80000000, 4@3 s=1.vowel c=H x=END m=80000000,
  13@4 s=1.vowel c=PLACEHOLDER x=BASE_C m=80000000, 13@5 s=1.vowel c=CM x=END m=80000000,
  4@8 s=1.vowel c=H x=END m=80000000, 13@9 s=1.vowel c=PLACEHOLDER x=BASE_C m=80000000,
  7@12 s=1.vowel c=M x=BEFORE_POST m=80000000;
  1@0 c=Ra x=PRE_C m=80000010, 4@3 c=H x=PRE_C m=80000010, 13@4 c=PLACEHOLDER x=PRE_C m=80000010,
  13@5 c=CM x=PRE_C m=80000010, 4@8 c=H x=PRE_C m=80000010, 13@9 c=PLACEHOLDER x=BASE_C m=80000000,
  7@12 c=M x=BEFORE_POST m=80000010
Ra H PLACEHOLDER H C MPst M; mode=Implicit virama=4 reph_of=1+4 rphf=80 before=20 after=30 init=40;
  1@0 s=1.consonant c=Ra x=END m=80000000, 4@2 s=1.consonant c=H x=END m=80000000,
  13@3 s=1.consonant c=PLACEHOLDER x=END m=80000000, 4@4 s=1.consonant c=H x=END m=80000000,
  2@4 s=1.consonant c=C x=END m=80000000, 6@5 s=1.consonant c=MPst x=BELOW_C m=80000000,
  5@6 s=1.consonant c=M x=PRE_M m=80000000;
  1@0 c=Ra x=RA_TO_BECOME_REPH m=800000A0, 4@2 c=H x=RA_TO_BECOME_REPH m=800000A0, 5@3 c=M x=PRE_M m=80000020,
  13@3 c=PLACEHOLDER x=PRE_C m=80000020, 4@3 c=H x=PRE_C m=80000020, 2@3 c=C x=BASE_C m=80000000,
  6@3 c=MPst x=BELOW_C m=80000030
Repha C H Ra H ZWJ PLACEHOLDER M; mode=Implicit virama=4 reph_of=1+4 level=1 rphf=40 before=10 after=20 half=10;
  12@0 s=1.consonant c=Repha x=END m=80000000, 2@2 s=1.consonant c=C x=BASE_C m=80000000,
  4@3 s=1.consonant c=H x=END m=80000000, 1@5 s=1.consonant c=Ra x=BASE_C m=80000000,
  4@8 s=1.consonant c=H x=END m=80000000, 10@10 s=1.consonant c=ZWJ x=END m=80000000,
  13@10 s=1.consonant c=PLACEHOLDER x=BASE_C m=80000000, 5@12 s=1.consonant c=M x=PRE_M m=80000000;
  5@0 c=M x=PRE_M m=80000010, 12@0 c=Repha x=PRE_C m=80000010, 2@0 c=C x=PRE_C m=80000010, 4@0 c=H x=PRE_C m=80000010,
  1@0 c=Ra x=PRE_C m=80000010, 4@0 c=H x=PRE_C m=80000010, 10@0 c=ZWJ x=PRE_C m=80000010,
  13@0 c=PLACEHOLDER x=BASE_C m=80000000
Ra H PLACEHOLDER H CS M; mode=Implicit virama=4 reph_of=1+4 level=1 rphf=100 before=10 after=80 half=10 pref=40 init=20;
  1@0 s=1.consonant c=Ra x=BASE_C m=80000000, 4@1 s=1.consonant c=H x=END m=80000000,
  13@3 s=1.consonant c=PLACEHOLDER x=END m=80000000, 4@5 s=1.consonant c=H x=END m=80000000,
  13@6 s=1.consonant c=CS x=END m=80000000, 6@7 s=1.consonant c=M x=AFTER_MAIN m=80000000;
  1@0 c=Ra x=RA_TO_BECOME_REPH m=80000110, 4@1 c=H x=RA_TO_BECOME_REPH m=80000110,
  13@3 c=PLACEHOLDER x=PRE_C m=80000010, 4@5 c=H x=PRE_C m=80000010, 13@6 c=CS x=BASE_C m=80000000,
  6@7 c=M x=AFTER_MAIN m=80000080
Repha V H PLACEHOLDER M M; mode=Implicit virama=4 rphf=200 after=130 pref=80 init=40;
  12@0 s=1.consonant c=Repha x=END m=80000000, 13@3 s=1.consonant c=V x=BASE_C m=80000000,
  4@4 s=1.consonant c=H x=END m=80000000, 13@5 s=1.consonant c=PLACEHOLDER x=BASE_C m=80000000,
  6@6 s=1.consonant c=M x=BEFORE_SUB m=80000000, 5@7 s=1.consonant c=M x=PRE_M m=80000000;
  5@0 c=M x=PRE_M m=80000000, 12@0 c=Repha x=PRE_C m=80000000, 13@0 c=V x=PRE_C m=80000000,
  4@0 c=H x=PRE_C m=80000000, 13@0 c=PLACEHOLDER x=BASE_C m=80000000, 6@0 c=M x=BEFORE_SUB m=80000130
Ra H PLACEHOLDER H PLACEHOLDER MPst M MPst; mode=Logical reph_of=1+4 level=1 rphf=40 before=20 after=30;
  1@0 s=1.consonant c=Ra x=BASE_C m=80000000, 4@3 s=1.consonant c=H x=END m=80000000,
  13@4 s=1.consonant c=PLACEHOLDER x=BASE_C m=80000000, 4@4 s=1.consonant c=H x=END m=80000000,
  13@6 s=1.consonant c=PLACEHOLDER x=BASE_C m=80000000, 5@7 s=1.consonant c=MPst x=PRE_M m=80000000,
  7@8 s=1.consonant c=M x=BEFORE_POST m=80000000, 7@11 s=1.consonant c=MPst x=AFTER_SUB m=80000000;
  5@0 c=MPst x=PRE_M m=80000020, 1@0 c=Ra x=PRE_C m=80000020, 4@0 c=H x=PRE_C m=80000020,
  13@0 c=PLACEHOLDER x=PRE_C m=80000020, 4@0 c=H x=PRE_C m=80000020, 13@0 c=PLACEHOLDER x=BASE_C m=80000000,
  7@8 c=MPst x=AFTER_SUB m=80000030, 7@8 c=M x=BEFORE_POST m=80000030
Ra H Ra H C M M; mode=Implicit virama=4 reph_of=1+4 rphf=100 before=20 after=B0 pref=40;
  1@0 s=1.broken c=Ra x=BASE_C m=80000000, 4@1 s=1.broken c=H x=END m=80000000,
  1@2 s=1.broken c=Ra x=BASE_C m=80000000, 4@3 s=1.broken c=H x=END m=80000000,
  13@6 s=1.broken c=C x=BASE_C m=80000000, 6@9 s=1.broken c=M x=AFTER_MAIN m=80000000,
  7@11 s=1.broken c=M x=AFTER_POST m=80000000;
  1@0 c=Ra x=RA_TO_BECOME_REPH m=80000120, 4@1 c=H x=RA_TO_BECOME_REPH m=80000120, 1@2 c=Ra x=PRE_C m=80000020,
  4@3 c=H x=PRE_C m=80000020, 13@6 c=C x=BASE_C m=80000000, 6@9 c=M x=AFTER_MAIN m=800000B0,
  7@11 c=M x=AFTER_POST m=800000B0
C H ZWJ Ra H CS M;
  mode=Implicit virama=4 reph_of=1+4 pref_of=4+1 below_of=4+1 post_of=4+1,4+3 level=1 rphf=100 before=20 after=B0
   pref=40;
  3@0 s=1.standalone c=C x=END m=80000000, 4@3 s=1.standalone c=H x=END m=80000000,
  10@4 s=1.standalone c=ZWJ x=END m=80000000, 1@4 s=1.standalone c=Ra x=BASE_C m=80000000,
  4@7 s=1.standalone c=H x=END m=80000000, 13@8 s=1.standalone c=CS x=BASE_C m=80000000,
  7@9 s=1.standalone c=M x=AFTER_SUB m=80000000;
  3@0 c=C x=PRE_C m=80000020, 4@3 c=H x=PRE_C m=80000020, 10@4 c=ZWJ x=PRE_C m=80000020, 1@4 c=Ra x=PRE_C m=80000020,
  4@7 c=H x=PRE_C m=80000020, 13@8 c=CS x=BASE_C m=80000000, 7@9 c=M x=AFTER_SUB m=800000B0
C CM H ZWNJ C H ZWJ CS N M; mode=Explicit before=10 half=10 pref=20;
  13@0 s=1.consonant c=C x=END m=80000000, 13@0 s=1.consonant c=CM x=END m=80000000,
  4@2 s=1.consonant c=H x=END m=80000000, 11@3 s=1.consonant c=ZWNJ x=END m=80000000,
  13@4 s=1.consonant c=C x=BASE_C m=80000000, 4@5 s=1.consonant c=H x=END m=80000000,
  10@6 s=1.consonant c=ZWJ x=END m=80000000, 13@9 s=1.consonant c=CS x=BASE_C m=80000000,
  9@12 s=1.consonant c=N x=END m=80000000, 6@13 s=1.consonant c=M x=AFTER_SUB m=80000000;
  13@0 c=C x=PRE_C m=80000010, 13@0 c=CM x=PRE_C m=80000000, 4@2 c=H x=PRE_C m=80000000,
  11@3 c=ZWNJ x=PRE_C m=80000010, 13@4 c=C x=PRE_C m=80000010, 4@5 c=H x=PRE_C m=80000010,
  10@6 c=ZWJ x=PRE_C m=80000010, 13@9 c=CS x=BASE_C m=80000000, 9@12 c=N x=BASE_C m=80000000,
  6@13 c=M x=AFTER_SUB m=80000000
Ra H C H C N H C;
  mode=Implicit virama=4 reph_of=1+4 below_of=4+3 post_of=4+3 level=1 rphf=100 before=60 after=B0 half=40;
  1@0 s=1.consonant c=Ra x=BASE_C m=80000000, 4@3 s=1.consonant c=H x=END m=80000000,
  13@6 s=1.consonant c=C x=END m=80000000, 4@6 s=1.consonant c=H x=END m=80000000,
  3@8 s=1.consonant c=C x=BASE_C m=80000000, 9@9 s=1.consonant c=N x=END m=80000000,
  4@11 s=1.consonant c=H x=END m=80000000, 2@12 s=1.consonant c=C x=END m=80000000;
  1@0 c=Ra x=RA_TO_BECOME_REPH m=80000160, 4@3 c=H x=RA_TO_BECOME_REPH m=80000160, 13@6 c=C x=PRE_C m=80000060,
  4@6 c=H x=PRE_C m=80000060, 3@8 c=C x=PRE_C m=80000060, 9@9 c=N x=PRE_C m=80000060, 4@11 c=H x=PRE_C m=80000060,
  2@12 c=C x=BASE_C m=80000000
Ra H ZWJ V H Ra H M; mode=Implicit virama=4 reph_of=1+4 rphf=100 before=30 after=90 half=20 init=40;
  1@0 s=1.consonant c=Ra x=END m=80000000, 4@1 s=1.consonant c=H x=END m=80000000,
  10@3 s=1.consonant c=ZWJ x=END m=80000000, 13@6 s=1.consonant c=V x=END m=80000000,
  4@8 s=1.consonant c=H x=END m=80000000, 1@11 s=1.consonant c=Ra x=END m=80000000,
  4@11 s=1.consonant c=H x=END m=80000000, 5@14 s=1.consonant c=M x=PRE_M m=80000000;
  5@0 c=M x=PRE_M m=80000030, 1@0 c=Ra x=PRE_C m=80000030, 4@0 c=H x=PRE_C m=80000030, 10@0 c=ZWJ x=PRE_C m=80000030,
  13@0 c=V x=PRE_C m=80000030, 4@0 c=H x=PRE_C m=80000030, 1@0 c=Ra x=BASE_C m=80000000, 4@0 c=H x=BASE_C m=80000090
C H Ra CM H Ra M MPst M; mode=Implicit virama=4 reph_of=1+4 post_of=4+3 rphf=80 before=20 after=50 half=20;
  3@0 s=1.vowel c=C x=BASE_C m=80000000, 4@1 s=1.vowel c=H x=END m=80000000, 1@2 s=1.vowel c=Ra x=END m=80000000,
  13@5 s=1.vowel c=CM x=END m=80000000, 4@6 s=1.vowel c=H x=END m=80000000, 1@7 s=1.vowel c=Ra x=BASE_C m=80000000,
  7@10 s=1.vowel c=M x=AFTER_POST m=80000000, 7@11 s=1.vowel c=MPst x=BEFORE_SUB m=80000000,
  5@13 s=1.vowel c=M x=PRE_M m=80000000;
  5@0 c=M x=PRE_M m=80000020, 3@0 c=C x=PRE_C m=80000020, 4@0 c=H x=PRE_C m=80000020, 1@0 c=Ra x=PRE_C m=80000020,
  13@0 c=CM x=PRE_C m=80000020, 4@0 c=H x=PRE_C m=80000020, 1@0 c=Ra x=BASE_C m=80000000,
  7@0 c=MPst x=BEFORE_SUB m=80000050, 7@0 c=M x=AFTER_POST m=80000050
Ra H ZWNJ CS H C M M M;
  mode=Implicit virama=4 reph_of=1+4 pref_of=4+1 post_of=4+1 rphf=80 before=10 after=40 half=10 pref=20;
  1@0 s=1.consonant c=Ra x=BASE_C m=80000000, 4@0 s=1.consonant c=H x=END m=80000000,
  11@1 s=1.consonant c=ZWNJ x=END m=80000000, 13@4 s=1.consonant c=CS x=BASE_C m=80000000,
  4@4 s=1.consonant c=H x=END m=80000000, 13@5 s=1.consonant c=C x=END m=80000000,
  7@5 s=1.consonant c=M x=BEFORE_SUB m=80000000, 5@6 s=1.consonant c=M x=PRE_M m=80000000,
  6@6 s=1.consonant c=M x=BELOW_C m=80000000;
  5@0 c=M x=PRE_M m=80000010, 1@0 c=Ra x=PRE_C m=80000000, 4@0 c=H x=PRE_C m=80000000, 11@0 c=ZWNJ x=PRE_C m=80000010,
  13@0 c=CS x=PRE_C m=80000010, 4@0 c=H x=PRE_C m=80000010, 13@0 c=C x=BASE_C m=80000000,
  7@0 c=M x=BEFORE_SUB m=80000040, 6@0 c=M x=BELOW_C m=80000040
CS RS H ZWJ Ra SM MPst;
  mode=Logical virama=4 reph_of=1+4,1+4+10 pref_of=4+1 post_of=4+1 level=1 rphf=400 before=60 after=230 half=40
   pref=100 init=80;
  13@0 s=1.consonant c=CS x=BASE_C m=80000000, 8@3 s=1.consonant c=RS x=END m=80000000,
  4@4 s=1.consonant c=H x=END m=80000000, 10@5 s=1.consonant c=ZWJ x=END m=80000000,
  1@8 s=1.consonant c=Ra x=END m=80000000, 8@9 s=1.consonant c=SM x=SMVD m=80000000,
  7@12 s=1.consonant c=MPst x=BELOW_C m=80000000;
  13@0 c=CS x=PRE_C m=80000060, 8@3 c=RS x=PRE_C m=80000060, 4@4 c=H x=PRE_C m=80000060,
  10@5 c=ZWJ x=PRE_C m=80000060, 1@8 c=Ra x=BASE_C m=80000000, 7@9 c=MPst x=BELOW_C m=80000230,
  8@9 c=SM x=SMVD m=80000230
Ra H C H ZWJ C H Ra M; mode=Implicit virama=4 reph_of=1+4,1+4+10 post_of=3+4 level=1 rphf=80 after=40 pref=20 init=10;
  1@0 s=1.consonant c=Ra x=BASE_C m=80000000, 4@1 s=1.consonant c=H x=END m=80000000,
  3@4 s=1.consonant c=C x=BASE_C m=80000000, 4@6 s=1.consonant c=H x=END m=80000000,
  10@7 s=1.consonant c=ZWJ x=END m=80000000, 3@9 s=1.consonant c=C x=BASE_C m=80000000,
  4@12 s=1.consonant c=H x=END m=80000000, 1@14 s=1.consonant c=Ra x=END m=80000000,
  6@17 s=1.consonant c=M x=AFTER_POST m=80000000;
  1@0 c=Ra x=RA_TO_BECOME_REPH m=80000080, 4@1 c=H x=RA_TO_BECOME_REPH m=80000080, 3@4 c=C x=PRE_C m=80000000,
  4@6 c=H x=PRE_C m=80000000, 10@7 c=ZWJ x=PRE_C m=80000000, 3@9 c=C x=PRE_C m=80000000, 4@12 c=H x=PRE_C m=80000000,
  1@14 c=Ra x=BASE_C m=80000000, 6@17 c=M x=AFTER_POST m=80000040
Repha CS H ZWNJ C RS M A MPst; mode=Implicit virama=4 pref_of=4+3 post_of=4+3 level=1 rphf=80 after=40 pref=20 init=10;
  12@0 s=1.consonant c=Repha x=END m=80000000, 13@1 s=1.consonant c=CS x=END m=80000000,
  4@4 s=1.consonant c=H x=END m=80000000, 11@6 s=1.consonant c=ZWNJ x=END m=80000000,
  3@9 s=1.consonant c=C x=END m=80000000, 8@11 s=1.consonant c=RS x=END m=80000000,
  7@12 s=1.consonant c=M x=AFTER_SUB m=80000000, 8@13 s=1.consonant c=A x=SMVD m=80000000,
  6@15 s=1.consonant c=MPst x=BEFORE_SUB m=80000000;
  12@0 c=Repha x=PRE_C m=80000000, 13@1 c=CS x=BASE_C m=80000000, 6@4 c=MPst x=BEFORE_SUB m=80000040,
  7@4 c=M x=AFTER_SUB m=80000040, 4@4 c=H x=POST_C m=80000040, 11@4 c=ZWNJ x=POST_C m=80000040,
  3@4 c=C x=POST_C m=80000040, 8@4 c=RS x=POST_C m=80000040, 8@4 c=A x=SMVD m=80000040";
