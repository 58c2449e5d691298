//! Syllables before their forms, two in each row.

// A name has the categories of the glyphs.
pub(crate) static ROWS: &str = "
# name; options, with the lists of glyphs that have a form; glyphs; glyphs afterwards
Ra H M VD V; mode=Implicit virama=4 reph_of=1+4 level=1 rphf=40 after=30;
  1@0 s=1.broken c=Ra x=END m=80000000, 4@1 s=1.broken c=H x=END m=80000000,
  7@4 s=1.broken c=M x=AFTER_MAIN m=80000000, 8@5 s=1.broken c=VD x=SMVD m=80000000,
  13@6 s=2.consonant c=V x=END m=80000000;
  1@0 c=Ra x=BASE_C m=80000000, 4@1 c=H x=BASE_C m=80000030, 7@4 c=M x=AFTER_MAIN m=80000030,
  8@5 c=VD x=SMVD m=80000030, 13@6 c=V x=BASE_C m=80000000
Ra H M M M; mode=Implicit virama=4 reph_of=1+4 level=1 rphf=80 before=20 after=50 half=20;
  1@0 s=1.broken c=Ra x=END m=80000000, 4@1 s=1.broken c=H x=END m=80000000, 7@4 s=2.vowel c=M x=BELOW_C m=80000000,
  7@5 s=2.vowel c=M x=BEFORE_SUB m=80000000, 7@8 s=2.vowel c=M x=BEFORE_POST m=80000000;
  1@0 c=Ra x=BASE_C m=80000000, 4@1 c=H x=BASE_C m=80000050, 7@4 c=M x=PRE_C m=80000020, 7@5 c=M x=PRE_C m=80000020,
  7@8 c=M x=PRE_C m=80000020
C Ra H M MPst M; mode=Logical before=10 after=20 half=10;
  2@0 s=1.broken c=C x=END m=80000000, 1@1 s=2.consonant c=Ra x=BASE_C m=80000000,
  4@2 s=2.consonant c=H x=END m=80000000, 6@4 s=2.consonant c=M x=BEFORE_POST m=80000000,
  7@4 s=2.consonant c=MPst x=AFTER_MAIN m=80000000, 5@4 s=2.consonant c=M x=PRE_M m=80000000;
  2@0 c=C x=BASE_C m=80000000, 5@1 c=M x=PRE_M m=80000010, 1@1 c=Ra x=BASE_C m=80000000, 4@1 c=H x=BASE_C m=80000020,
  7@1 c=MPst x=AFTER_MAIN m=80000020, 6@1 c=M x=BEFORE_POST m=80000020
C M M Ra H M; mode=Implicit virama=4 reph_of=1+4 rphf=40 before=10 after=10 pref=20;
  13@0 s=1.symbol c=C x=END m=80000000, 6@3 s=1.symbol c=M x=BEFORE_POST m=80000000,
  5@3 s=1.symbol c=M x=PRE_M m=80000000, 1@6 s=2.standalone c=Ra x=END m=80000000,
  4@7 s=2.standalone c=H x=END m=80000000, 7@8 s=2.standalone c=M x=BEFORE_SUB m=80000000;
  13@0 c=C x=END m=80000000, 6@3 c=M x=BEFORE_POST m=80000000, 5@3 c=M x=PRE_M m=80000000,
  1@6 c=Ra x=BASE_C m=80000000, 4@7 c=H x=BASE_C m=80000010, 7@8 c=M x=BEFORE_SUB m=80000010
Repha Ra H C;
  mode=Logical virama=4 reph_of=1+4 below_of=4+3 post_of=3+4 level=1 rphf=100 before=30 after=90 half=20 init=40;
  12@0 s=1.consonant c=Repha x=END m=80000000, 1@1 s=2.non c=Ra x=END m=80000000, 4@2 s=2.non c=H x=END m=80000000,
  3@5 s=2.non c=C x=BASE_C m=80000000;
  12@0 c=Repha x=BASE_C m=80000000, 1@1 c=Ra x=END m=80000000, 4@2 c=H x=END m=80000000, 3@5 c=C x=BELOW_C m=80000000
C Ra H ZWNJ V H M; mode=Explicit virama=4 pref=20 init=10;
  3@0 s=1.non c=C x=END m=80000000, 1@1 s=2.broken c=Ra x=BASE_C m=80000000, 4@2 s=2.broken c=H x=END m=80000000,
  11@3 s=2.broken c=ZWNJ x=END m=80000000, 13@4 s=2.broken c=V x=END m=80000000, 4@5 s=2.broken c=H x=END m=80000000,
  7@6 s=2.broken c=M x=AFTER_POST m=80000000;
  3@0 c=C x=END m=80000000, 1@1 c=Ra x=PRE_C m=80000000, 4@2 c=H x=PRE_C m=80000000, 11@3 c=ZWNJ x=PRE_C m=80000000,
  13@4 c=V x=BASE_C m=80000000, 4@5 c=H x=BASE_C m=80000000, 7@6 c=M x=AFTER_POST m=80000000
Ra H ZWNJ C M Repha Ra; mode=Explicit virama=4 level=1 rphf=20 after=10;
  1@0 s=1.non c=Ra x=END m=80000000, 4@1 s=1.non c=H x=END m=80000000, 11@3 s=1.non c=ZWNJ x=END m=80000000,
  13@6 s=1.non c=C x=BASE_C m=80000000, 6@6 s=1.non c=M x=BEFORE_POST m=80000000,
  12@9 s=2.broken c=Repha x=END m=80000000, 1@11 s=2.broken c=Ra x=END m=80000000;
  1@0 c=Ra x=END m=80000000, 4@1 c=H x=END m=80000000, 11@3 c=ZWNJ x=END m=80000000, 13@6 c=C x=BASE_C m=80000000,
  6@6 c=M x=BEFORE_POST m=80000000, 12@9 c=Repha x=PRE_C m=80000000, 1@11 c=Ra x=BASE_C m=80000000
Ra H C H C Ra H M; mode=Implicit virama=4 reph_of=1+4 level=1 rphf=10;
  1@0 s=1.consonant c=Ra x=END m=80000000, 4@1 s=1.consonant c=H x=END m=80000000,
  3@2 s=1.consonant c=C x=BASE_C m=80000000, 4@3 s=1.consonant c=H x=END m=80000000,
  3@4 s=1.consonant c=C x=BASE_C m=80000000, 1@4 s=2.non c=Ra x=BASE_C m=80000000, 4@7 s=2.non c=H x=END m=80000000,
  7@8 s=2.non c=M x=BEFORE_SUB m=80000000;
  1@0 c=Ra x=RA_TO_BECOME_REPH m=80000010, 4@1 c=H x=RA_TO_BECOME_REPH m=80000010, 3@2 c=C x=PRE_C m=80000000,
  4@3 c=H x=PRE_C m=80000000, 3@4 c=C x=BASE_C m=80000000, 1@4 c=Ra x=BASE_C m=80000000, 4@7 c=H x=END m=80000000,
  7@8 c=M x=BEFORE_SUB m=80000000
Ra H C RS Ra;
  mode=Implicit virama=4 reph_of=1+4 pref_of=4+3 below_of=4+3 post_of=4+3 level=1 rphf=100 before=30 after=90 half=20
   pref=40;
  1@0 s=1.symbol c=Ra x=END m=80000000, 4@1 s=1.symbol c=H x=END m=80000000, 3@2 s=1.symbol c=C x=END m=80000000,
  8@3 s=1.symbol c=RS x=END m=80000000, 1@3 s=2.consonant c=Ra x=BASE_C m=80000000;
  1@0 c=Ra x=END m=80000000, 4@1 c=H x=END m=80000000, 3@2 c=C x=BELOW_C m=80000000, 8@3 c=RS x=END m=80000000,
  1@3 c=Ra x=BASE_C m=80000000
Repha C H M M A; mode=Implicit virama=4 below_of=4+2 level=1 rphf=80 before=20 after=30 init=40;
  12@0 s=1.consonant c=Repha x=END m=80000000, 2@1 s=1.consonant c=C x=BASE_C m=80000000,
  4@2 s=2.standalone c=H x=END m=80000000, 7@4 s=2.standalone c=M x=AFTER_POST m=80000000,
  6@5 s=2.standalone c=M x=BELOW_C m=80000000, 8@6 s=2.standalone c=A x=SMVD m=80000000;
  12@0 c=Repha x=PRE_C m=80000020, 2@1 c=C x=BASE_C m=80000000, 4@2 c=H m=80000020, 7@4 c=M x=PRE_C m=80000020,
  6@5 c=M x=PRE_C m=80000020, 8@6 c=A x=PRE_C m=80000020
Ra H MPst N M M; mode=Implicit virama=4 reph_of=1+4 pref_of=4+1 post_of=4+1 level=1 rphf=80 after=10 pref=40 init=20;
  1@0 s=1.consonant c=Ra x=BASE_C m=80000000, 4@3 s=1.consonant c=H x=END m=80000000,
  5@3 s=1.consonant c=MPst x=PRE_M m=80000000, 9@4 s=1.consonant c=N x=END m=80000000,
  6@5 s=2.symbol c=M x=AFTER_POST m=80000000, 6@7 s=2.symbol c=M x=BEFORE_SUB m=80000000;
  5@0 c=MPst x=PRE_M m=80000000, 9@0 c=N x=PRE_M m=80000000, 1@0 c=Ra x=BASE_C m=80000000,
  4@0 c=H x=BASE_C m=80000010, 6@5 c=M x=AFTER_POST m=80000000, 6@7 c=M x=BEFORE_SUB m=80000000
C M MPst C; mode=Implicit virama=4 below_of=4+2,2+4 level=1 rphf=200 before=60 after=130 half=40 pref=80;
  13@0 s=1.vowel c=C x=BASE_C m=80000000, 7@1 s=1.vowel c=M x=AFTER_SUB m=80000000,
  7@4 s=1.vowel c=MPst x=BEFORE_SUB m=80000000, 2@6 s=2.consonant c=C x=BASE_C m=80000000;
  13@0 c=C x=BASE_C m=80000000, 7@1 c=MPst x=BEFORE_SUB m=80000130, 7@1 c=M x=AFTER_SUB m=80000130,
  2@6 c=C x=BASE_C m=80000000
C Ra H ZWJ C H ZWNJ Ra; mode=Logical virama=4 post_of=4+2 level=1 after=20 init=10;
  13@0 s=1.consonant c=C x=BASE_C m=80000000, 1@1 s=2.symbol c=Ra x=BASE_C m=80000000,
  4@3 s=2.symbol c=H x=END m=80000000, 10@3 s=2.symbol c=ZWJ x=END m=80000000, 2@6 s=2.symbol c=C x=BASE_C m=80000000,
  4@8 s=2.symbol c=H x=END m=80000000, 11@9 s=2.symbol c=ZWNJ x=END m=80000000,
  1@11 s=2.symbol c=Ra x=BASE_C m=80000000;
  13@0 c=C x=BASE_C m=80000000, 1@1 c=Ra x=BASE_C m=80000000, 4@3 c=H x=END m=80000000, 10@3 c=ZWJ x=END m=80000000,
  2@6 c=C x=POST_C m=80000000, 4@8 c=H x=END m=80000000, 11@9 c=ZWNJ x=END m=80000000, 1@11 c=Ra x=BASE_C m=80000000
Ra H M Ra H CS M; mode=Explicit virama=4 reph_of=1+4 rphf=40 before=10 half=10 pref=20;
  1@0 s=1.consonant c=Ra x=BASE_C m=80000000, 4@1 s=1.consonant c=H x=END m=80000000,
  5@4 s=1.consonant c=M x=PRE_M m=80000000, 1@6 s=2.symbol c=Ra x=BASE_C m=80000000,
  4@7 s=2.symbol c=H x=END m=80000000, 13@8 s=2.symbol c=CS x=BASE_C m=80000000,
  6@11 s=2.symbol c=M x=BEFORE_POST m=80000000;
  5@0 c=M x=PRE_M m=80000010, 1@0 c=Ra x=BASE_C m=80000000, 4@0 c=H x=BASE_C m=80000000, 1@6 c=Ra x=BASE_C m=80000000,
  4@7 c=H x=END m=80000000, 13@8 c=CS x=BASE_C m=80000000, 6@11 c=M x=BEFORE_POST m=80000000
Ra H CS H C M; mode=Explicit virama=4 below_of=4+3 rphf=80 after=50 pref=20;
  1@0 s=1.consonant c=Ra x=END m=80000000, 4@2 s=1.consonant c=H x=END m=80000000,
  13@3 s=2.consonant c=CS x=END m=80000000, 4@4 s=2.consonant c=H x=END m=80000000,
  3@4 s=2.consonant c=C x=BASE_C m=80000000, 6@7 s=2.consonant c=M x=BEFORE_POST m=80000000;
  1@0 c=Ra x=BASE_C m=80000000, 4@2 c=H x=BASE_C m=80000050, 13@3 c=CS x=BASE_C m=80000000,
  4@4 c=H x=BELOW_C m=80000050, 3@4 c=C x=BELOW_C m=80000050, 6@7 c=M x=BEFORE_POST m=80000050
Ra H Ra H ZWJ C VD MPst M; mode=Explicit virama=4 after=20 pref=10;
  1@0 s=1.non c=Ra x=END m=80000000, 4@1 s=1.non c=H x=END m=80000000, 1@4 s=2.vowel c=Ra x=BASE_C m=80000000,
  4@7 s=2.vowel c=H x=END m=80000000, 10@10 s=2.vowel c=ZWJ x=END m=80000000, 13@13 s=2.vowel c=C x=BASE_C m=80000000,
  8@16 s=2.vowel c=VD x=SMVD m=80000000, 5@17 s=2.vowel c=MPst x=PRE_M m=80000000,
  5@18 s=2.vowel c=M x=PRE_M m=80000000;
  1@0 c=Ra x=END m=80000000, 4@1 c=H x=END m=80000000, 5@4 c=M x=PRE_M m=80000000, 5@4 c=MPst x=PRE_M m=80000000,
  1@4 c=Ra x=PRE_C m=80000000, 4@4 c=H x=PRE_C m=80000000, 10@4 c=ZWJ x=PRE_C m=80000000,
  13@4 c=C x=BASE_C m=80000000, 8@4 c=VD x=SMVD m=80000020
Ra H C M Ra H ZWNJ C M; mode=Implicit virama=4 rphf=20 before=10 half=10;
  1@0 s=1.consonant c=Ra x=END m=80000000, 4@2 s=1.consonant c=H x=END m=80000000,
  3@3 s=1.consonant c=C x=BASE_C m=80000000, 5@4 s=1.consonant c=M x=PRE_M m=80000000,
  1@5 s=2.vowel c=Ra x=BASE_C m=80000000, 4@7 s=2.vowel c=H x=END m=80000000, 11@8 s=2.vowel c=ZWNJ x=END m=80000000,
  13@9 s=2.vowel c=C x=BASE_C m=80000000, 6@10 s=2.vowel c=M x=BEFORE_POST m=80000000;
  5@0 c=M x=PRE_M m=80000010, 1@0 c=Ra x=PRE_C m=80000010, 4@0 c=H x=PRE_C m=80000010, 3@0 c=C x=BASE_C m=80000000,
  1@5 c=Ra x=PRE_C m=80000000, 4@7 c=H x=PRE_C m=80000000, 11@8 c=ZWNJ x=PRE_C m=80000010,
  13@9 c=C x=BASE_C m=80000000, 6@10 c=M x=BEFORE_POST m=80000000
Repha Ra M Ra H ZWNJ C H; mode=Implicit virama=4 reph_of=1+4 rphf=80 after=50 init=20;
  12@0 s=1.consonant c=Repha x=END m=80000000, 1@0 s=1.consonant c=Ra x=BASE_C m=80000000,
  7@3 s=1.consonant c=M x=AFTER_POST m=80000000, 1@4 s=2.non c=Ra x=BASE_C m=80000000,
  4@4 s=2.non c=H x=END m=80000000, 11@6 s=2.non c=ZWNJ x=END m=80000000, 13@8 s=2.non c=C x=BASE_C m=80000000,
  4@9 s=2.non c=H x=END m=80000000;
  12@0 c=Repha x=PRE_C m=80000000, 1@0 c=Ra x=BASE_C m=80000000, 7@3 c=M x=AFTER_POST m=80000050,
  1@4 c=Ra x=BASE_C m=80000000, 4@4 c=H x=END m=80000000, 11@6 c=ZWNJ x=END m=80000000, 13@8 c=C x=BASE_C m=80000000,
  4@9 c=H x=END m=80000000
Ra H ZWJ C M A MPst CS;
  mode=Implicit virama=4 reph_of=1+4,1+4+10 below_of=4+1 post_of=3+4 level=1 rphf=40 after=20 init=10;
  1@0 s=1.consonant c=Ra x=BASE_C m=80000000, 4@1 s=1.consonant c=H x=END m=80000000,
  10@2 s=1.consonant c=ZWJ x=END m=80000000, 3@3 s=1.consonant c=C x=BASE_C m=80000000,
  5@4 s=1.consonant c=M x=PRE_M m=80000000, 8@5 s=1.consonant c=A x=SMVD m=80000000,
  6@6 s=1.consonant c=MPst x=AFTER_MAIN m=80000000, 13@7 s=2.non c=CS x=BASE_C m=80000000;
  5@0 c=M x=PRE_M m=80000000, 1@0 c=Ra x=PRE_C m=80000000, 4@0 c=H x=PRE_C m=80000000, 10@0 c=ZWJ x=PRE_C m=80000000,
  3@0 c=C x=BASE_C m=80000000, 6@5 c=MPst x=AFTER_MAIN m=80000020, 8@5 c=A x=SMVD m=80000020,
  13@7 c=CS x=BASE_C m=80000000
Repha Ra H C VD Ra H V M; mode=Logical virama=4 reph_of=1+4 rphf=40 after=20 pref=10;
  12@0 s=1.standalone c=Repha x=END m=80000000, 1@2 s=1.standalone c=Ra x=END m=80000000,
  4@4 s=1.standalone c=H x=END m=80000000, 2@5 s=1.standalone c=C x=BASE_C m=80000000,
  8@8 s=1.standalone c=VD x=SMVD m=80000000, 1@9 s=2.standalone c=Ra x=END m=80000000,
  4@11 s=2.standalone c=H x=END m=80000000, 13@12 s=2.standalone c=V x=BASE_C m=80000000,
  7@13 s=2.standalone c=M x=AFTER_SUB m=80000000;
  12@0 c=Repha x=RA_TO_BECOME_REPH m=80000040, 1@2 c=Ra x=PRE_C m=80000000, 4@4 c=H x=PRE_C m=80000000,
  2@5 c=C x=BASE_C m=80000000, 8@8 c=VD x=SMVD m=80000020, 1@9 c=Ra x=PRE_C m=80000000, 4@11 c=H x=PRE_C m=80000000,
  13@12 c=V x=BASE_C m=80000000, 7@13 c=M x=AFTER_SUB m=80000020
V H ZWJ C H MPst C; mode=Explicit virama=4 below_of=2+4 rphf=80 before=20 after=10 half=20 pref=40;
  13@0 s=1.standalone c=V x=BASE_C m=80000000, 4@1 s=1.standalone c=H x=END m=80000000,
  10@2 s=1.standalone c=ZWJ x=END m=80000000, 13@5 s=1.standalone c=C x=BASE_C m=80000000,
  4@7 s=1.standalone c=H x=END m=80000000, 6@8 s=1.standalone c=MPst x=BELOW_C m=80000000,
  2@9 s=2.consonant c=C x=BASE_C m=80000000;
  13@0 c=V x=PRE_C m=80000020, 4@1 c=H x=PRE_C m=80000020, 10@2 c=ZWJ x=PRE_C m=80000020,
  13@5 c=C x=BASE_C m=80000000, 4@7 c=H x=BASE_C m=80000010, 6@8 c=MPst x=BELOW_C m=80000010,
  2@9 c=C x=BASE_C m=80000000
C A M Ra H V SM; mode=Explicit virama=4 reph_of=1+4 below_of=4+1 rphf=100 before=20 after=90 half=20 init=40;
  13@0 s=1.vowel c=C x=BASE_C m=80000000, 8@2 s=1.vowel c=A x=SMVD m=80000000,
  6@4 s=1.vowel c=M x=BEFORE_SUB m=80000000, 1@5 s=2.consonant c=Ra x=BASE_C m=80000000,
  4@6 s=2.consonant c=H x=END m=80000000, 13@6 s=2.consonant c=V x=BASE_C m=80000000,
  8@8 s=2.consonant c=SM x=SMVD m=80000000;
  13@0 c=C x=BASE_C m=80000000, 6@2 c=M x=BEFORE_SUB m=80000090, 8@2 c=A x=SMVD m=80000090,
  1@5 c=Ra x=PRE_C m=80000020, 4@6 c=H x=PRE_C m=80000020, 13@6 c=V x=BASE_C m=80000000, 8@8 c=SM x=SMVD m=80000090
Ra H ZWNJ C Ra H C H M; mode=Explicit virama=4 reph_of=1+4 pref_of=4+1 post_of=4+1 rphf=80 after=50 pref=20;
  1@0 s=1.consonant c=Ra x=END m=80000000, 4@3 s=1.consonant c=H x=END m=80000000,
  11@4 s=1.consonant c=ZWNJ x=END m=80000000, 13@5 s=1.consonant c=C x=END m=80000000,
  1@6 s=2.consonant c=Ra x=BASE_C m=80000000, 4@6 s=2.consonant c=H x=END m=80000000,
  3@7 s=2.consonant c=C x=BASE_C m=80000000, 4@8 s=2.consonant c=H x=END m=80000000,
  5@8 s=2.consonant c=M x=PRE_M m=80000000;
  1@0 c=Ra x=PRE_C m=80000000, 4@3 c=H x=PRE_C m=80000000, 11@4 c=ZWNJ x=PRE_C m=80000000,
  13@5 c=C x=BASE_C m=80000000, 5@6 c=M x=PRE_M m=80000000, 1@6 c=Ra x=PRE_C m=80000000, 4@6 c=H x=PRE_C m=80000000,
  3@6 c=C x=BASE_C m=80000000, 4@6 c=H x=BASE_C m=80000050
Ra H C C H PLACEHOLDER M M;
  mode=Implicit virama=4 reph_of=1+4 pref_of=4+1 post_of=4+1 rphf=200 before=20 after=110 half=20 pref=80 init=40;
  1@0 s=1.consonant c=Ra x=END m=80000000, 4@1 s=1.consonant c=H x=END m=80000000,
  2@2 s=1.consonant c=C x=END m=80000000, 13@4 s=2.broken c=C x=BASE_C m=80000000,
  4@5 s=2.broken c=H x=END m=80000000, 13@8 s=2.broken c=PLACEHOLDER x=END m=80000000,
  6@11 s=2.broken c=M x=BELOW_C m=80000000, 5@12 s=2.broken c=M x=PRE_M m=80000000;
  1@0 c=Ra x=RA_TO_BECOME_REPH m=80000220, 4@1 c=H x=RA_TO_BECOME_REPH m=80000220, 2@2 c=C x=BASE_C m=80000000,
  5@4 c=M x=PRE_M m=80000020, 13@4 c=C x=PRE_C m=80000020, 4@4 c=H x=PRE_C m=80000020,
  13@4 c=PLACEHOLDER x=BASE_C m=80000000, 6@4 c=M x=BELOW_C m=80000110
C N M Ra H C A MPst M;
  mode=Implicit virama=4 reph_of=1+4 below_of=4+1,4+2 post_of=4+2 level=1 rphf=80 before=30 after=50 half=20;
  2@0 s=1.symbol c=C x=END m=80000000, 9@1 s=1.symbol c=N x=END m=80000000,
  7@1 s=1.symbol c=M x=BEFORE_SUB m=80000000, 1@1 s=2.symbol c=Ra x=BASE_C m=80000000,
  4@3 s=2.symbol c=H x=END m=80000000, 3@3 s=2.symbol c=C x=END m=80000000, 8@5 s=2.symbol c=A x=SMVD m=80000000,
  6@7 s=2.symbol c=MPst x=BEFORE_SUB m=80000000, 5@8 s=2.symbol c=M x=PRE_M m=80000000;
  2@0 c=C x=BELOW_C m=80000000, 9@1 c=N x=END m=80000000, 7@1 c=M x=BEFORE_SUB m=80000000,
  1@1 c=Ra x=BELOW_C m=80000000, 4@3 c=H x=END m=80000000, 3@3 c=C x=END m=80000000, 8@5 c=A x=SMVD m=80000000,
  6@7 c=MPst x=BEFORE_SUB m=80000000, 5@8 c=M x=PRE_M m=80000000
Ra H ZWNJ C C H C H C H; mode=Implicit virama=4 below_of=2+4 post_of=4+3 level=1 rphf=40 before=10 after=20 half=10;
  1@0 s=1.consonant c=Ra x=END m=80000000, 4@3 s=1.consonant c=H x=END m=80000000,
  11@3 s=1.consonant c=ZWNJ x=END m=80000000, 13@5 s=1.consonant c=C x=BASE_C m=80000000,
  3@6 s=2.consonant c=C x=BASE_C m=80000000, 4@7 s=2.consonant c=H x=END m=80000000,
  3@8 s=2.consonant c=C x=END m=80000000, 4@10 s=2.consonant c=H x=END m=80000000,
  2@11 s=2.consonant c=C x=BASE_C m=80000000, 4@13 s=2.consonant c=H x=END m=80000000;
  1@0 c=Ra x=PRE_C m=80000000, 4@3 c=H x=PRE_C m=80000000, 11@3 c=ZWNJ x=PRE_C m=80000010,
  13@5 c=C x=BASE_C m=80000000, 3@6 c=C x=PRE_C m=80000010, 4@7 c=H x=PRE_C m=80000010, 3@8 c=C x=BASE_C m=80000000,
  4@10 c=H x=BELOW_C m=80000020, 2@11 c=C x=BELOW_C m=80000020, 4@13 c=H x=BELOW_C m=80000020
Ra H ZWJ Ra H Ra MPst M M;
  mode=Explicit virama=4 reph_of=1+4,1+4+10 rphf=200 before=20 after=110 half=20 pref=80 init=40;
  1@0 s=1.consonant c=Ra x=END m=80000000, 4@2 s=1.consonant c=H x=END m=80000000,
  10@2 s=1.consonant c=ZWJ x=END m=80000000, 1@3 s=2.consonant c=Ra x=BASE_C m=80000000,
  4@4 s=2.consonant c=H x=END m=80000000, 1@7 s=2.consonant c=Ra x=BASE_C m=80000000,
  6@10 s=2.consonant c=MPst x=AFTER_POST m=80000000, 6@11 s=2.consonant c=M x=BEFORE_POST m=80000000,
  7@12 s=2.consonant c=M x=AFTER_POST m=80000000;
  1@0 c=Ra x=RA_TO_BECOME_REPH m=80000220, 4@2 c=H x=RA_TO_BECOME_REPH m=80000220,
  10@2 c=ZWJ x=RA_TO_BECOME_REPH m=80000220, 1@3 c=Ra x=PRE_C m=80000020, 4@4 c=H x=PRE_C m=80000020,
  1@7 c=Ra x=BASE_C m=80000000, 6@10 c=M x=BEFORE_POST m=80000110, 6@10 c=MPst x=AFTER_POST m=80000110,
  7@12 c=M x=AFTER_POST m=80000110
Ra H ZWJ C H V CM M Ra H PLACEHOLDER MPst; mode=Explicit rphf=80 after=10 pref=40 init=20;
  1@0 s=1.consonant c=Ra x=END m=80000000, 4@1 s=1.consonant c=H x=END m=80000000,
  10@2 s=1.consonant c=ZWJ x=END m=80000000, 2@5 s=1.consonant c=C x=BASE_C m=80000000,
  4@6 s=1.consonant c=H x=END m=80000000, 13@9 s=1.consonant c=V x=END m=80000000,
  13@11 s=1.consonant c=CM x=END m=80000000, 7@12 s=1.consonant c=M x=BELOW_C m=80000000,
  1@13 s=2.consonant c=Ra x=END m=80000000, 4@16 s=2.consonant c=H x=END m=80000000,
  13@16 s=2.consonant c=PLACEHOLDER x=BASE_C m=80000000, 6@17 s=2.consonant c=MPst x=BEFORE_POST m=80000000;
  1@0 c=Ra x=PRE_C m=80000000, 4@1 c=H x=PRE_C m=80000000, 10@2 c=ZWJ x=PRE_C m=80000000, 2@5 c=C x=PRE_C m=80000000,
  4@6 c=H x=PRE_C m=80000000, 13@9 c=V x=PRE_C m=80000000, 13@11 c=CM x=PRE_C m=80000000,
  7@12 c=M x=BELOW_C m=80000000, 1@13 c=Ra x=PRE_C m=80000000, 4@16 c=H x=PRE_C m=80000000,
  13@16 c=PLACEHOLDER x=BASE_C m=80000000, 6@17 c=MPst x=BEFORE_POST m=80000010
PLACEHOLDER CM H ZWJ C N H C M N M Ra H C H Ra M;
  mode=Implicit virama=4 reph_of=1+4,1+4+10 below_of=2+4 level=1 rphf=20 before=10 half=10;
  13@0 s=1.consonant c=PLACEHOLDER x=BASE_C m=80000000, 13@1 s=1.consonant c=CM x=END m=80000000,
  4@4 s=1.consonant c=H x=END m=80000000, 10@5 s=1.consonant c=ZWJ x=END m=80000000,
  2@6 s=1.consonant c=C x=BASE_C m=80000000, 9@9 s=1.consonant c=N x=END m=80000000,
  4@11 s=1.consonant c=H x=END m=80000000, 2@11 s=1.consonant c=C x=BASE_C m=80000000,
  5@14 s=1.consonant c=M x=PRE_M m=80000000, 9@16 s=1.consonant c=N x=END m=80000000,
  5@17 s=1.consonant c=M x=PRE_M m=80000000, 1@18 s=2.non c=Ra x=END m=80000000, 4@20 s=2.non c=H x=END m=80000000,
  2@20 s=2.non c=C x=BASE_C m=80000000, 4@21 s=2.non c=H x=END m=80000000, 1@22 s=2.non c=Ra x=END m=80000000,
  7@25 s=2.non c=M x=BELOW_C m=80000000;
  5@0 c=M x=PRE_M m=80000010, 5@0 c=M x=PRE_M m=80000010, 9@0 c=N x=PRE_M m=80000010,
  13@0 c=PLACEHOLDER x=PRE_C m=80000010, 13@0 c=CM x=PRE_C m=80000010, 4@0 c=H x=PRE_C m=80000010,
  10@0 c=ZWJ x=PRE_C m=80000010, 2@0 c=C x=BASE_C m=80000000, 9@0 c=N x=BELOW_C m=80000000,
  4@0 c=H x=BELOW_C m=80000000, 2@0 c=C x=BELOW_C m=80000000, 1@18 c=Ra x=END m=80000000, 4@20 c=H x=END m=80000000,
  2@20 c=C x=BELOW_C m=80000000, 4@21 c=H x=END m=80000000, 1@22 c=Ra x=END m=80000000, 7@25 c=M x=BELOW_C m=80000000
C M MPst N Ra H Ra H ZWNJ PLACEHOLDER H ZWNJ Ra N M M;
  mode=Logical virama=4 reph_of=1+4 below_of=4+1 level=1 rphf=80 before=20 after=50 half=20;
  2@0 s=1.consonant c=C x=BASE_C m=80000000, 5@2 s=1.consonant c=M x=PRE_M m=80000000,
  5@4 s=1.consonant c=MPst x=PRE_M m=80000000, 9@5 s=1.consonant c=N x=END m=80000000,
  1@6 s=2.broken c=Ra x=BASE_C m=80000000, 4@7 s=2.broken c=H x=END m=80000000, 1@9 s=2.broken c=Ra x=END m=80000000,
  4@10 s=2.broken c=H x=END m=80000000, 11@12 s=2.broken c=ZWNJ x=END m=80000000,
  13@13 s=2.broken c=PLACEHOLDER x=BASE_C m=80000000, 4@16 s=2.broken c=H x=END m=80000000,
  11@19 s=2.broken c=ZWNJ x=END m=80000000, 1@21 s=2.broken c=Ra x=BASE_C m=80000000,
  9@21 s=2.broken c=N x=END m=80000000, 5@22 s=2.broken c=M x=PRE_M m=80000000,
  6@23 s=2.broken c=M x=BEFORE_SUB m=80000000;
  5@0 c=MPst x=PRE_M m=80000020, 9@0 c=N x=PRE_M m=80000020, 5@0 c=M x=PRE_M m=80000020, 2@0 c=C x=BASE_C m=80000000,
  5@6 c=M x=PRE_M m=80000020, 1@6 c=Ra x=PRE_C m=80000020, 4@6 c=H x=PRE_C m=80000020, 1@6 c=Ra x=PRE_C m=80000000,
  4@6 c=H x=PRE_C m=80000000, 11@6 c=ZWNJ x=PRE_C m=80000020, 13@6 c=PLACEHOLDER x=BASE_C m=80000000,
  6@6 c=M x=BEFORE_SUB m=80000050, 4@6 c=H x=BELOW_C m=80000050, 11@6 c=ZWNJ x=BELOW_C m=80000050,
  1@6 c=Ra x=BELOW_C m=80000050, 9@6 c=N x=BELOW_C m=80000050
Ra H CS H C CM H C M Ra H C H ZWNJ CS H V H M N MPst;
  mode=Implicit virama=4 reph_of=1+4 pref_of=4+1 below_of=4+2 post_of=4+1 level=1 rphf=40 before=10 after=10 pref=20;
  1@0 s=1.vowel c=Ra x=END m=80000000, 4@3 s=1.vowel c=H x=END m=80000000, 13@5 s=1.vowel c=CS x=END m=80000000,
  4@6 s=1.vowel c=H x=END m=80000000, 2@9 s=1.vowel c=C x=END m=80000000, 13@12 s=1.vowel c=CM x=END m=80000000,
  4@14 s=1.vowel c=H x=END m=80000000, 3@15 s=1.vowel c=C x=BASE_C m=80000000,
  6@16 s=1.vowel c=M x=AFTER_POST m=80000000, 1@17 s=2.consonant c=Ra x=END m=80000000,
  4@19 s=2.consonant c=H x=END m=80000000, 13@22 s=2.consonant c=C x=BASE_C m=80000000,
  4@24 s=2.consonant c=H x=END m=80000000, 11@25 s=2.consonant c=ZWNJ x=END m=80000000,
  13@28 s=2.consonant c=CS x=END m=80000000, 4@28 s=2.consonant c=H x=END m=80000000,
  13@29 s=2.consonant c=V x=END m=80000000, 4@30 s=2.consonant c=H x=END m=80000000,
  5@31 s=2.consonant c=M x=PRE_M m=80000000, 9@33 s=2.consonant c=N x=END m=80000000,
  5@34 s=2.consonant c=MPst x=PRE_M m=80000000;
  1@0 c=Ra x=RA_TO_BECOME_REPH m=80000050, 4@3 c=H x=RA_TO_BECOME_REPH m=80000050, 13@5 c=CS x=PRE_C m=80000010,
  4@6 c=H x=PRE_C m=80000010, 2@9 c=C x=PRE_C m=80000010, 13@12 c=CM x=PRE_C m=80000010, 4@14 c=H x=PRE_C m=80000010,
  3@15 c=C x=BASE_C m=80000000, 6@16 c=M x=AFTER_POST m=80000010, 1@17 c=Ra x=RA_TO_BECOME_REPH m=80000050,
  4@19 c=H x=RA_TO_BECOME_REPH m=80000050, 5@22 c=MPst x=PRE_M m=80000010, 5@22 c=M x=PRE_M m=80000010,
  9@22 c=N x=PRE_M m=80000010, 13@22 c=C x=PRE_C m=80000010, 4@22 c=H x=PRE_C m=80000010,
  11@22 c=ZWNJ x=PRE_C m=80000010, 13@22 c=CS x=PRE_C m=80000010, 4@22 c=H x=PRE_C m=80000010,
  13@22 c=V x=BASE_C m=80000000, 4@22 c=H x=BASE_C m=80000010";
