//! Walks a buffer of a million glyphs, glyph by glyph, by ligatures, and by pairs that are merged in the output; sorts
//! such buffers and reverses their groups, with clusters that rise and that fall. Clusters in no order are left out:
//! each merge would walk the list.
ghost use Rattle.std.specs.Prelude.{◌≡◌, true, false, OnOk, IfOk};
ghost use Rattle.buffer_core.specs.Sides.{all_glyphs};

use buffer_core::buffer::hb_buffer_t;
use std::alloc::{AllocError, Global};
use std::io;
use std::time::Instant;

const COUNT: u32 = 1_000_000;

/// A buffer of glyphs, each in its own cluster, with an output open.
fn filled(alloc: Global) -> Result<hb_buffer_t, AllocError>
    ensures { IfOk result (λ b. b.is_open ≡ true) }
{
    let mut buffer = hb_buffer_t::new(alloc);
    for cluster in 0..COUNT {
        if !buffer.add('a', cluster)? {
            break;
        }
    }
    buffer.clear_output()?;
    Ok(buffer)
}

/// Outputs each glyph.
fn walk(buffer: &mut hb_buffer_t) -> Result<(), AllocError>
    requires { buffer.old.is_open ≡ true }
    ensures { OnOk result (all_glyphs buffer.new ≡ all_glyphs buffer.old) }
{
    while buffer.idx() < buffer.len() {
        if !buffer.next_glyph()? {
            break;
        }
    }
    buffer.sync()?;
    Ok(())
}

/// Makes a ligature of each two glyphs.
fn ligate(buffer: &mut hb_buffer_t) -> Result<(), AllocError>
    requires { buffer.old.is_open ≡ true }
{
    for _ in 0..COUNT {
        if buffer.len() - buffer.idx() < 2 || !buffer.replace_glyphs(2, 1, &[7])? {
            break;
        }
    }
    buffer.sync()?;
    Ok(())
}

/// Sets each second glyph once it is in the output, and merges it with the previous one.
fn compose(buffer: &mut hb_buffer_t) -> Result<(), AllocError>
    requires { buffer.old.is_open ≡ true }
{
    for _ in 0..COUNT {
        if buffer.len() - buffer.idx() < 2 {
            break;
        }
        if !buffer.next_glyphs(2)? {
            break;
        }
        write_last(buffer);
        merge_last_two(buffer);
    }
    buffer.sync()?;
    Ok(())
}

fn write_last(buffer: &mut hb_buffer_t)
    requires open { buffer.old.is_open ≡ true }
    ensures open { buffer.new.is_open ≡ true }
{
    if buffer.out_len() > 0 {
        buffer.prev_mut().glyph_id = 7;
    }
}

fn merge_last_two(buffer: &mut hb_buffer_t)
    requires open { buffer.old.is_open ≡ true }
    ensures open { buffer.new.is_open ≡ true }
{
    let end = buffer.out_len();
    buffer.merge_out_clusters(end.saturating_sub(2), end);
}

/// The order of clusters from glyph to glyph.
#[derive(Clone, Copy)]
enum Going {
    Rising,
    Falling,
}

/// The cluster of a glyph. The second of each two glyphs shares its cluster with the next one.
fn cluster_at(going: Going, index: u32) -> u32 {
    match going {
        Going::Rising => index / 2 + index % 2,
        Going::Falling => COUNT.saturating_sub(index) / 2,
    }
}

/// A buffer of glyphs, each two of which are in the wrong order.
fn swapped(alloc: Global, going: Going) -> Result<hb_buffer_t, AllocError>
    ensures { IfOk result (λ b. b.is_open ≡ false) }
{
    let mut buffer = hb_buffer_t::new(alloc);
    for index in 0..COUNT {
        let character = char::from_u32(0x1_0000 + (index ^ 1)).unwrap_or('a');
        if !buffer.add(character, cluster_at(going, index))? {
            break;
        }
    }
    Ok(buffer)
}

/// Sorts each two glyphs.
fn sort(rt: &HostRuntime, name: &str, buffer: &mut hb_buffer_t) -> io::Result<()>
    requires { buffer.old.is_open ≡ false }
{
    let start = Instant::now(rt)?;
    let count = buffer.len();
    buffer.sort(rt.alloc(), 0, count, |glyph| glyph.glyph_id)?;
    print_time(rt, name, start, buffer.len())
}

/// Reverses the order of pairs.
fn turn(rt: &HostRuntime, name: &str, buffer: &mut hb_buffer_t) -> io::Result<()>
    requires { buffer.old.is_open ≡ false }
{
    let start = Instant::now(rt)?;
    buffer.reverse_groups(
        |before, after| before.glyph_id / 2 == after.glyph_id / 2,
        true,
    );
    print_time(rt, name, start, buffer.len())
}

fn time_sort(rt: &HostRuntime, name: &str, going: Going) -> io::Result<()> {
    let mut buffer = swapped(rt.alloc(), going)?;
    sort(rt, name, &mut buffer)
}

fn time_turn(rt: &HostRuntime, name: &str, going: Going) -> io::Result<()> {
    let mut buffer = swapped(rt.alloc(), going)?;
    turn(rt, name, &mut buffer)
}

fn print_time(rt: &HostRuntime, name: &str, start: Instant, left: usize) -> io::Result<()> {
    let nanoseconds = start.elapsed(rt)?.as_nanos() / COUNT as u128;
    println!(rt; "{name}: {left} glyphs")?;
    eprintln!(rt; "{name}: {nanoseconds} ns a glyph")
}

fn time_walk(rt: &HostRuntime, buffer: &mut hb_buffer_t) -> io::Result<()>
    requires { buffer.old.is_open ≡ true }
{
    let start = Instant::now(rt)?;
    walk(buffer)?;
    print_time(rt, "next_glyph", start, buffer.len())
}

fn time_ligatures(rt: &HostRuntime, buffer: &mut hb_buffer_t) -> io::Result<()>
    requires { buffer.old.is_open ≡ true }
{
    let start = Instant::now(rt)?;
    ligate(buffer)?;
    print_time(rt, "replace_glyphs", start, buffer.len())
}

fn time_merges(rt: &HostRuntime, buffer: &mut hb_buffer_t) -> io::Result<()>
    requires { buffer.old.is_open ≡ true }
{
    let start = Instant::now(rt)?;
    compose(buffer)?;
    print_time(rt, "prev_mut, merge_out_clusters", start, buffer.len())
}

/// What is measured on a newly filled buffer.
#[derive(Clone, Copy)]
enum Task {
    Walk,
    Ligate,
    Compose,
}

fn time(rt: &HostRuntime, task: Task) -> io::Result<()> {
    let mut buffer = filled(rt.alloc())?;
    match task {
        Task::Walk => time_walk(rt, &mut buffer),
        Task::Ligate => time_ligatures(rt, &mut buffer),
        Task::Compose => time_merges(rt, &mut buffer),
    }
}

pub(crate) fn run(rt: &HostRuntime) -> io::Result<()> {
    for task in [Task::Walk, Task::Ligate, Task::Compose] {
        time(rt, task)?;
    }
    time_sort(rt, "sort, rising", Going::Rising)?;
    time_turn(rt, "reverse_groups, rising", Going::Rising)?;
    time_sort(rt, "sort, falling", Going::Falling)?;
    time_turn(rt, "reverse_groups, falling", Going::Falling)
}
