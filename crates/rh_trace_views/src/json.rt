//! The JSON of a `stat`, of trays and of the last line; `viewing.rt` makes that of a line.

ghost use Rattle.std.specs.Prelude.{◌≡◌, ◌++◌, IfOk, OnOk};
ghost use Rattle.std.specs.List.{flat_map};
ghost use Rattle.rh_engine.specs.Trays.{tray_of};
ghost use Rattle.rh_trace_views.specs.Views.{json_log, json_space, json_stat, json_total, json_tray, json_trays, json_work};

use crate::buffer::{put, put_part};
use rh_core::Stat;
use rh_engine::Trays;
use rh_layout::OutOfMemory;
use rh_partial::PartialReplica;
use rh_syntax::TrayName;
use rh_text::LineText;
use rh_trace::Summary;
use std::alloc::Allocator;

/// Puts the members of a heap's words and of whether a cycle is on.
fn put_space<A: Allocator>(text: &mut Vec<u8, A>, stat: &Stat) -> Result<(), OutOfMemory>
    ensures { OnOk result (text.new.items ≡ text.old.items ++ json_space stat.now) }
{
    put_part(text, b"\"used\":", stat.used)?;
    put_part(text, b",\"free\":", stat.free)?;
    if stat.cycle {
        put(text, b",\"cycle\":true")?;
        Ok(())
    } else {
        put(text, b",\"cycle\":false")?;
        Ok(())
    }
}

/// Puts the members of a heap's epoch, of its last store and of its log.
fn put_log<A: Allocator>(text: &mut Vec<u8, A>, stat: &Stat) -> Result<(), OutOfMemory>
    ensures { OnOk result (text.new.items ≡ text.old.items ++ json_log stat.now) }
{
    put_part(text, b",\"epoch\":", stat.epoch)?;
    put_part(text, b",\"number\":", stat.number)?;
    put_part(text, b",\"log\":", stat.log)?;
    Ok(())
}

/// Puts the members of a cycle's work.
fn put_work<A: Allocator>(text: &mut Vec<u8, A>, stat: &Stat) -> Result<(), OutOfMemory>
    ensures { OnOk result (text.new.items ≡ text.old.items ++ json_work stat.now) }
{
    put_part(text, b",\"granted\":", stat.granted)?;
    put_part(text, b",\"spent\":", stat.spent)?;
    put_part(text, b",\"placed\":", stat.placed)?;
    put_part(text, b",\"missing\":", stat.missing)?;
    put_part(text, b",\"idle\":", stat.idle)?;
    Ok(())
}

/// Puts the members of a heap's numbers.
///
/// # Errors
///
/// `OutOfMemory` where memory for them was refused.
pub(crate) fn put_json_stat<A: Allocator>(
    text: &mut Vec<u8, A>,
    stat: &Stat,
) -> Result<(), OutOfMemory>
    ensures { OnOk result (text.new.items ≡ text.old.items ++ json_stat stat.now) }
{
    put_space(text, stat)?;
    put_log(text, stat)?;
    put_work(text, stat)?;
    Ok(())
}

/// Puts a comma, and the object of a tray.
fn put_json_tray<A: Allocator + Copy, B: Allocator>(
    text: &mut Vec<u8, B>,
    name: TrayName,
    replica: &PartialReplica<A>,
) -> Result<(), OutOfMemory>
    ensures { OnOk result (text.new.items
        ≡ text.old.items ++ json_tray name (tray_of replica.now)) }
{
    put(text, b",{\"name\":\"")?;
    put(text, name.as_bytes())?;
    put_part(text, b"\",\"epoch\":", replica.epoch())?;
    put_part(text, b",\"entries\":", replica.len() as u64)?;
    put(text, b"}")?;
    Ok(())
}

/// The objects of trays, with a comma before each.
fn listed_trays<A: Allocator + Copy>(alloc: A, trays: &Trays<A>) -> Result<Vec<u8, A>, OutOfMemory>
    ensures { IfOk result (λ text. text.items
        ≡ flat_map (λ t. json_tray t.0 t.1) trays.now) }
{
    let mut text = Vec::new(alloc);
    for i in 0..trays.len() {
        if let Some(tray) = trays.tray(i) {
            put_json_tray(&mut text, tray.0, tray.1)?;
        }
    }
    Ok(text)
}

/// Puts the objects of trays, with a comma between.
///
/// # Errors
///
/// `OutOfMemory` where memory for them was refused.
pub(crate) fn put_json_trays<A: Allocator + Copy>(
    alloc: A,
    text: &mut Vec<u8, A>,
    trays: &Trays<A>,
) -> Result<(), OutOfMemory>
    ensures { OnOk result (text.new.items ≡ text.old.items ++ json_trays trays.now) }
{
    let listed = listed_trays(alloc, trays)?;
    match listed.split_first() {
        Some((_comma, objects)) => put(text, objects),
        None => Ok(()),
    }
}

/// The text becomes the object of what a run adds up to.
pub(crate) fn put_json_total(text: &mut LineText, summary: &Summary)
    ensures { text.new ≡ json_total summary.now }
{
    text.clear();
    text.put_part(b"{\"total\":{\"commands\":", summary.commands);
    text.put_part(b",\"refused\":", summary.refused);
    text.put_part(b",\"flips\":", summary.flips);
    text.put_part(b",\"rootwords\":", summary.root_words);
    text.put(b"}}\n");
}
