//! New Ejects.
ghost use Rattle.std.specs.Prelude.{◌≡◌, [], None, OnOk};
ghost use Rattle.eden_model.specs.Traffic.{Traffic};
ghost use Rattle.epl_syntax.specs.Rules.OfTypes.{TypeList};
ghost use Rattle.active_part.specs.Body.{active_of};
ghost use Rattle.active_part.specs.View.{body_of};
ghost use Rattle.journal.specs.Ejects as ejects;
ghost use Rattle.journal.specs.World.{eject_in};
ghost use Rattle.plain_stores.specs.View.{node_of, site_of};

use active_part::Part;
use capability::Uid;
use eden_value::Status;
use plain_ejects::PlainEject;
use plain_stores::{PlainNode, add};
use std::alloc::{AllocError, Global};

/// How many Ejects of the node are active, kept or in doubt.
fn count_there(node: &PlainNode) -> usize
    ensures { (ts : TypeList) → result ≡ ejects.count (node_of ts node.now) }
{
    let mut there = 0;
    for entry in &node.ejects {
        if entry.eject.is_there() {
            there += 1;
        }
    }
    there
}

/// The uid of the next Eject, or why there is none.
pub fn next_uid(node: &PlainNode) -> Result<Uid, Status>
    ensures { (ts : TypeList) (t : Traffic) → result ≡ ejects.next_uid (site_of ts t node.now) }
{
    if count_there(node) >= 4096 {
        return Err(Status::TooMany);
    }
    if node.last_serial == u32::MAX {
        return Err(Status::SerialsSpent);
    }
    Ok(Uid {
        node: node.number,
        epoch: node.epoch.unwrap_or(0),
        serial: node.last_serial + 1,
    })
}

/// The node has one more Eject, with this active part, in which nothing is queued, and its serial as the last one given.
pub fn bear(alloc: Global, node: &mut PlainNode, uid: Uid, part: Part) -> Result<(), AllocError>
    ensures { OnOk result ((ts : TypeList) (t : Traffic) → eject_in (site_of ts t node.old) uid ≡ None
        → (body_of ts part).crew.queued ≡ []
        → site_of ts t node.new ≡ ejects.born uid (active_of (body_of ts part)) (site_of ts t node.old)) }
{
    node.last_serial = uid.serial;
    let eject = PlainEject::created(alloc, part);
    add(&mut node.ejects, uid, eject)?;
    Ok(())
}
