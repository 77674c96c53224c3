//! The search for distances: a breadth-first search from the target, against the channels.

ghost use Rattle.std.specs.Prelude.{◌≡◌, ℕ, ◌+◌, ◌<◌, ◌≤◌, ◌^◌, length, vec_len, replicate, None, IfOk, OnOk};
ghost use Rattle.route_find.specs.Search.{AreBelow, AreEnds, IsSearch, IsFound, distance_of as the_distance_of, first};

use crate::numbers::{Numbers, ends};
use crate::reach::Reach;
use qc_base::NoMemory;
use std::alloc::Global;
use trap_model::Channel;

// The distance of a place so far.
fn distance_of(rows: &[Option<Reach>], place: u32) -> u32
    ensures { result ≡ the_distance_of rows.now place }
{
    match rows.get(place as usize) {
        Some(Some(reach)) => reach.distance,
        _ => 0,
    }
}

// Reaches the places from which a channel leads to the place at that index of the queue.
fn expand(
    rows: &mut [Option<Reach>],
    queue: &mut Vec<u32>,
    channels: &[Channel],
    ends: &[Numbers],
    head: usize,
) -> Result<(), NoMemory>
    requires few { length rows.old < 2 ^ 32 }
    requires channels { AreBelow (length rows.old) channels.now }
    requires ends { AreEnds channels.now (length rows.old) (length channels.now) ends.now }
    requires head { head < vec_len queue.old }
    requires search { IsSearch channels.now (first queue.old.items) head queue.old.items rows.old }
    ensures search { OnOk result (IsSearch channels.now (first queue.old.items) (head + 1) queue.new.items rows.new) }
    ensures first { OnOk result (first queue.new.items ≡ first queue.old.items) }
{
    let place = queue[head];
    let distance = distance_of(rows, place) + 1;
    for number in ends[place as usize].items() {
        let from = channels[*number as usize].from.0;
        let row = rows[from as usize];
        if row.is_none() {
            rows[from as usize] = Some(Reach {
                distance,
                next: Some(*number),
            });
            queue.push(from)?;
        }
    }
    Ok(())
}

// The rows before a place is reached.
fn empty_rows(alloc: Global, places: u32) -> Result<Vec<Option<Reach>>, NoMemory>
    ensures { IfOk result (λ rows. rows.items ≡ replicate places None) }
{
    let rows = vec![in alloc; None; places as usize]?;
    Ok(rows)
}

/// What is known of each place after a search from the target.
pub(crate) fn search(
    alloc: Global,
    channels: &[Channel],
    places: u32,
    target: u32,
) -> Result<Vec<Option<Reach>>, NoMemory>
    requires channels { AreBelow places channels.now }
    requires few { length channels.now < 2 ^ 32 }
    requires target { target < places }
    ensures { IfOk result (λ rows. IsFound channels.now target rows.items) }
{
    let ends = ends(alloc, channels, places)?;
    let mut rows = empty_rows(alloc, places)?;
    rows[target as usize] = Some(Reach {
        distance: 0,
        next: None,
    });
    let mut queue = Vec::new(alloc);
    queue.push(target)?;
    let mut head = 0;
    while head < queue.len() {
        expand(&mut rows, &mut queue, channels, &ends, head)?;
        head += 1;
    }
    Ok(rows)
}
