//! The Ejects of a node that comes up.
ghost use Rattle.std.specs.Prelude.{◌≡◌, ◌≤◌, IfOk, None, OnOk};
ghost use Rattle.epl_syntax.specs.Rules.OfTypes.{TypeList};
ghost use Rattle.ejects.specs.Boots.{IsBlank, Notes};
ghost use Rattle.ejects.specs.Parts.{body_at};
ghost use Rattle.ejects.specs.View.{parts_of};

use crate::Ejects;
use capability::Uid;
use eject_table::EjectTable;
use std::alloc::{AllocError, Global};
use std::collections::BTreeMap;

impl Ejects {
    /// The Ejects of a node that comes up in an epoch: none as yet.
    pub fn new(alloc: Global, number: u8, epoch: u32) -> Result<Ejects, AllocError>
        requires { number ≤ 8 }
        ensures { IfOk result (λ n. (ts : TypeList) → IsBlank number epoch (parts_of ts n)) }
    {
        let table = EjectTable::new(alloc, number, epoch, 0)?;
        Ok(Ejects {
            table,
            waiting: BTreeMap::new(alloc),
        })
    }

    /// An Eject that is not active, and of which something is kept, is passive.
    pub fn note(&mut self, alloc: Global, uid: Uid) -> Result<(), AllocError>
        requires { (ts : TypeList) → body_at (parts_of ts self.old) uid ≡ None }
        ensures { OnOk result ((ts : TypeList) → Notes uid (parts_of ts self.old) (parts_of ts self.new)) }
    {
        self.table.note_passive(alloc, uid)?;
        Ok(())
    }
}
