//! The settings of a text, limits, and the ends of runs of glyphs.
ghost use Rattle.std.specs.Prelude.{◌≡◌, false, IfOk};

use buffer_core::buffer::hb_buffer_t;
use buffer_wrappers::unicode_buffer::UnicodeBuffer;
use std::alloc::{AllocError, Global};
use std::process::Abort;
use std::test::Fail;

fn has_limits(buffer: &mut hb_buffer_t) -> bool
    requires { buffer.old.is_open ≡ false }
{
    buffer.enter();
    let entered = (buffer.max_len(), buffer.max_ops()) == (16384, 16384);
    buffer.set_max_ops(-1);
    let set = (buffer.max_ops(), buffer.allocate_lig_id()) == (-1, 1);
    buffer.leave();
    entered && set && (buffer.max_len(), buffer.max_ops()) == (0x3FFF_FFFF, 0x1FFF_FFFF)
}

fn gives_ligature_numbers(buffer: &mut hb_buffer_t) -> bool {
    for want in [1, 2, 3, 4, 5, 6, 7, 1] {
        if buffer.allocate_lig_id() != want {
            return false;
        }
    }
    true
}

fn sets_limits(alloc: Global) -> bool {
    let mut buffer = hb_buffer_t::new(alloc);
    has_limits(&mut buffer) && gives_ligature_numbers(&mut buffer)
}

#[test]
fn sets_limits_and_gives_ligature_numbers(rt: HostRuntime) {
    assert!(rt; sets_limits(rt.alloc()));
}

/// The characters before and after a text that a buffer keeps are these.
fn keeps(buffer: &mut hb_buffer_t, text: &str, pre: &str, post: &str) -> bool {
    buffer.set_pre_context(text);
    buffer.set_post_context(text);
    buffer.pre_context().iter().copied().eq(pre.chars())
        && buffer.post_context().iter().copied().eq(post.chars())
}

fn keeps_each(rt: &impl Abort, buffer: &mut hb_buffer_t) {
    for (text, pre, post) in [
        ("", "", ""),
        ("aé€", "€éa", "aé€"),
        ("abcdefg", "gfedc", "abcde"),
    ] {
        assert!(rt; keeps(buffer, text, pre, post), "{text}");
    }
}

#[test]
fn keeps_five_characters_of_the_text_around(rt: HostRuntime) {
    let mut buffer = hb_buffer_t::new(rt.alloc());
    keeps_each(&rt, &mut buffer);
}

/// Three characters, the first two in one cluster.
fn two_clusters(alloc: Global) -> Result<hb_buffer_t, AllocError>
    ensures { IfOk result (λ b. b.is_open ≡ false) }
{
    let mut text = UnicodeBuffer::new(alloc);
    text.add('a', 0)?;
    text.add('b', 0)?;
    text.add('c', 1)?;
    Ok(text.into_buffer())
}

fn ends_of(buffer: &hb_buffer_t) -> [usize; 4]
    requires { buffer.now.is_open ≡ false }
{
    [
        buffer.next_cluster(0),
        buffer.next_syllable(1),
        buffer.next_grapheme(1),
        buffer.next_cluster(3),
    ]
}

#[test]
fn finds_where_runs_end(rt: HostRuntime) -> Result<(), Fail> {
    let buffer = two_clusters(rt.alloc())?;
    assert_eq!(rt; ends_of(&buffer), [2, 3, 2, 3]);
    Ok(())
}
