//! Pieces of a text that is cut.
ghost use Rattle.std.specs.Prelude.{◌≡◌, ◌-◌};
ghost use Rattle.std.specs.Int.RustNames.{bit_and, bit_or};

use crate::alike::Answer;
use crate::trial::Trial;
use buffer_common::constants::BufferFlags;
use buffer_glyphs::cause::ShapeCause;
use buffer_glyphs::level::BufferClusterLevel;
use buffer_wrappers::unicode_buffer::UnicodeBuffer;
use shape_pipeline::ShapePlan;
use shell_readers::fault::RunFault;

/// A piece of a text with the text around it, and the level at which it is shaped.
#[derive(Clone, Copy)]
pub(crate) struct Piece<'a> {
    before: &'a str,
    pub(crate) text: &'a str,
    after: &'a str,
    level: BufferClusterLevel,
}

/// The two pieces of a text that is cut at a byte, `None` where no character begins there.
pub(crate) fn pieces_at<'a>(
    text: &'a str,
    at: usize,
    level: BufferClusterLevel,
) -> Option<(Piece<'a>, Piece<'a>)> {
    let (first, second) = text.split_at_checked(at)?;
    let early = Piece {
        before: "",
        text: first,
        after: second,
        level,
    };
    let late = Piece {
        before: first,
        text: second,
        after: "",
        level,
    };
    Some((early, late))
}

impl<'a> Piece<'a> {
    /// A text by itself.
    pub(crate) fn whole(text: &'a str, level: BufferClusterLevel) -> Piece<'a> {
        Piece {
            before: "",
            text,
            after: "",
            level,
        }
    }

    pub(crate) fn shaped(&self, trial: &Trial<'_>, plan: &ShapePlan) -> Result<Answer, RunFault> {
        let text = self.buffer(trial, plan)?;
        trial.shaped_by(plan, text)
    }

    /// Whether the piece leaves some of its budget of nested lookups.
    pub(crate) fn leaves_budget(
        &self,
        trial: &Trial<'_>,
        plan: &ShapePlan,
    ) -> Result<bool, RunFault> {
        let text = self.buffer(trial, plan)?;
        trial.leaves_budget(text)
    }

    /// The piece with the clusters, the direction and the script of the whole, and the text around it as its context.
    fn buffer(&self, trial: &Trial<'_>, plan: &ShapePlan) -> Result<UnicodeBuffer, RunFault> {
        let mut text = trial.empty(self.level, self.flags(trial.options.buffer_flags))?;
        text.set_direction(plan.script_plan.direction);
        if let Some(script) = plan.script_plan.script {
            text.set_script(script);
        }
        text.set_pre_context(self.before);
        text.set_post_context(self.after);
        self.add_characters(&mut text)?;
        Ok(text)
    }

    fn add_characters(&self, text: &mut UnicodeBuffer) -> Result<(), RunFault> {
        for (at, c) in self.text.char_indices() {
            if !text.add(c, self.cluster(at)?)? {
                return Err(RunFault::Shape(ShapeCause::TooLong));
            }
        }
        Ok(())
    }

    /// The cluster of a character of the piece by its byte: its byte in the whole.
    fn cluster(&self, at: usize) -> Result<u32, RunFault> {
        let cluster = u32::try_from(self.before.len().saturating_add(at));
        cluster.map_err(|_| RunFault::Shape(ShapeCause::TooLong))
    }

    /// The flags of the whole with those for its beginning and its end only where the piece has these, and with the request
    /// for safe breaks alone.
    fn flags(&self, flags: BufferFlags) -> BufferFlags {
        let flags = with_safe_breaks(flags);
        let flags = if self.before.is_empty() {
            flags
        } else {
            without(flags, BufferFlags::BEGINNING_OF_TEXT)
        };
        if self.after.is_empty() {
            flags
        } else {
            without(flags, BufferFlags::END_OF_TEXT)
        }
    }
}

/// Flags with the request for safe breaks alone, and without dotted circles: where these are inserted depends on the
/// syllables of the whole text.
fn with_safe_breaks(flags: BufferFlags) -> BufferFlags
    ensures { result.0 ≡ bit_or (flags.0 - bit_and flags.0 464) 272 }
{
    BufferFlags(without(flags, BufferFlags(464)).0 | 272)
}

fn without(flags: BufferFlags, removed: BufferFlags) -> BufferFlags
    ensures { result.0 ≡ flags.0 - bit_and flags.0 removed.0 }
{
    BufferFlags(flags.0 - (flags.0 & removed.0))
}
