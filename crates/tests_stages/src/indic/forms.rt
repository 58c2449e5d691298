//! A font that forms the listed glyphs, and one that forms nothing.
ghost use Rattle.std.specs.Prelude.{◌≡◌, ◌∷◌};
ghost use Rattle.std.specs.List.{list_any};
ghost use Rattle.std.specs.Str.{bytes_eq};

use script_indic_reordering::forms::IndicForms;

/// The glyphs that a font would form, by the form.
#[derive(Drop)]
pub struct ListedForms {
    pub reph: Vec<Vec<u32>>,
    pub pref: Vec<Vec<u32>>,
    pub below: Vec<Vec<u32>>,
    pub post: Vec<Vec<u32>>,
}

fn lists(rows: &[Vec<u32>], glyphs: &[u32]) -> bool
    ensures { result ≡ list_any (λ r. bytes_eq r.items glyphs.now) rows.now }
{
    rows.iter().any(|row| row.as_slice() == glyphs)
}

impl IndicForms for ListedForms {
    ghost use Rattle.std.specs.List.{list_any};
    ghost use Rattle.std.specs.Str.{bytes_eq};

    ghost forms_of = { λ f. record {
      reph = λ ns. list_any (λ r. bytes_eq r.items ns) f.reph.items;
      pref = λ ns. list_any (λ r. bytes_eq r.items ns) f.pref.items;
      below = λ ns. list_any (λ r. bytes_eq r.items ns) f.below.items;
      post = λ ns. list_any (λ r. bytes_eq r.items ns) f.post.items;
    } };

    fn forms_reph(&self, ra: u32, halant: u32) -> bool {
        lists(&self.reph, &[ra, halant])
    }

    fn forms_reph_with_joiner(&self, ra: u32, halant: u32, joiner: u32) -> bool {
        lists(&self.reph, &[ra, halant, joiner])
    }

    fn forms_pref(&self, halant: u32, consonant: u32) -> bool {
        lists(&self.pref, &[halant, consonant])
    }

    fn forms_below(&self, first: u32, second: u32) -> bool {
        lists(&self.below, &[first, second])
    }

    fn forms_post(&self, first: u32, second: u32) -> bool {
        lists(&self.post, &[first, second])
    }
}

/// A font without forms.
#[derive(Clone, Copy)]
pub struct NoForms;

impl IndicForms for NoForms {
    ghost use Rattle.std.specs.Prelude.{false};

    ghost forms_of = { λ f. record {
      reph = λ ns. false;
      pref = λ ns. false;
      below = λ ns. false;
      post = λ ns. false;
    } };

    fn forms_reph(&self, _ra: u32, _halant: u32) -> bool {
        false
    }

    fn forms_reph_with_joiner(&self, _ra: u32, _halant: u32, _joiner: u32) -> bool {
        false
    }

    fn forms_pref(&self, _halant: u32, _consonant: u32) -> bool {
        false
    }

    fn forms_below(&self, _first: u32, _second: u32) -> bool {
        false
    }

    fn forms_post(&self, _first: u32, _second: u32) -> bool {
        false
    }
}
