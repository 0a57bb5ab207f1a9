//! A directory's entries, and its operations.
ghost use Rattle.std.specs.Prelude.{◌≡◌, IfOk, true};
ghost use Rattle.eden_value.specs.View.{datums};
ghost use Rattle.epl_syntax.specs.declared.effect.Answer.TheVariants as answers;
ghost use Rattle.epl_syntax.specs.declared.types.Native.TheVariants as types;
ghost use Rattle.epl_syntax.specs.Directory as spec;
ghost use Rattle.epl_syntax.specs.Edentype.{native};
ghost use Rattle.epl_syntax.specs.Meaning.{first_values, values_from, durable_of, durable_kinds};
ghost use Rattle.epl_syntax.specs.Kinds.{have_shapes};
ghost use Rattle.epl_syntax.specs.Natives.{native_condition};
ghost use Rattle.directory_eject.specs.View.{names_in, held_in};

use crate::condition::items_at;
use crate::effect::{DONE, FULL, NAME_TAKEN, NO_NAME, code, code_and_cap};
use crate::stage::{cap_at, text_at};
use capability::Cap;
use eden_value::{Items, LIST_LIMIT, Txt, Value, listed, texted};
use epl_syntax::Effect;
use indexmap::IndexMap;
use std::alloc::{AllocError, Global};
use std::marker::Model;

/// The entries of a directory: names, and what is held under each, in the order in which they were added.
///
/// Contracts see it as the values of the two variables of the native type.
#[derive(Drop)]
pub struct Directory {
    entries: IndexMap<Vec<u8>, Option<Cap>>,
}

impl Model for Directory {
    ghost use Rattle.std.specs.Prelude.{List};
    ghost use Rattle.eden_value.specs.Datum.{Datum};
    ghost use Rattle.eden_value.specs.Code.{coded_items};
    ghost use Rattle.directory_eject.specs.View.{vars_of};

    ghost Value = { List Datum };

    ghost coded = { coded_items };

    ghost view = { λ d. vars_of d.entries.entries };
}

/// The names, as values.
fn names(alloc: Global, entries: &IndexMap<Vec<u8>, Option<Cap>>) -> Result<Vec<Value>, AllocError>
    ensures { IfOk result (λ made. datums made.items ≡ names_in entries.now.entries) }
{
    let mut made = Vec::with_capacity(alloc, entries.len())?;
    for name in entries.keys().as_slice() {
        let text = texted(Vec::from_slice(alloc, name)?)?;
        made.push(Value::Text { text })?;
    }
    Ok(made)
}

/// What is held under the names, as values.
fn held(alloc: Global, entries: &IndexMap<Vec<u8>, Option<Cap>>) -> Result<Vec<Value>, AllocError>
    ensures { IfOk result (λ made. datums made.items ≡ held_in entries.now.entries) }
{
    let mut made = Vec::with_capacity(alloc, entries.len())?;
    for cap in entries.values().as_slice() {
        made.push(Value::Cap { cap: *cap })?;
    }
    Ok(made)
}

impl Directory {
    /// A directory with no entries.
    pub fn new(alloc: Global) -> Directory
        ensures { result ≡ first_values (native types.Directory) }
    {
        Directory {
            entries: IndexMap::new(alloc),
        }
    }

    /// The directory that was kept with these values.
    pub fn from_values(alloc: Global, durable: &Items) -> Result<Directory, AllocError>
        requires kinds { have_shapes durable.now (durable_kinds (native types.Directory)) ≡ true }
        requires condition { native_condition types.Directory durable.now ≡ true }
        ensures same { IfOk result (λ directory. directory ≡ durable.now) }
        ensures starts { IfOk result (λ directory. directory ≡ values_from (native types.Directory) durable.now) }
    {
        let names = items_at(&durable.values, 0);
        let held = items_at(&durable.values, 1);
        let mut entries = IndexMap::with_capacity(alloc, names.len())?;
        for i in 0..names.len() {
            let name = text_at(alloc, names, i)?;
            let key = name.into_bytes()?;
            entries.insert(key, cap_at(held, i))?;
        }
        Ok(Directory { entries })
    }

    /// The values of the two variables, of which a checkpoint keeps both.
    pub fn values(&self, alloc: Global) -> Result<Items, AllocError>
        ensures same { IfOk result (λ values. values ≡ self.now) }
        ensures durable { IfOk result (λ values. values ≡ durable_of (native types.Directory) self.now) }
    {
        let names = Value::List {
            items: listed(names(alloc, &self.entries)?)?,
        };
        let held = Value::List {
            items: listed(held(alloc, &self.entries)?)?,
        };
        let values = vec![in alloc; names, held]?;
        Ok(Items { values })
    }

    /// Adds a name and a capability last, where the name is not there and there is room.
    pub(crate) fn add(
        &mut self,
        alloc: Global,
        name: Txt,
        held: Option<Cap>,
    ) -> Result<Effect, AllocError>
        ensures { IfOk result (λ effect. spec.directory_turn self.old (spec.adds name held) answers.Go
            ≡ (self.new, spec.changed, effect)) }
    {
        if self.entries.get_index_of(name.as_slice()).is_some() {
            return code(alloc, NAME_TAKEN);
        }
        if self.entries.len() == LIST_LIMIT {
            return code(alloc, FULL);
        }
        let key = name.into_bytes()?;
        self.entries.insert(key, held)?;
        Ok(Effect::Checkpoint)
    }

    /// Looks up a name: what is held under it.
    pub(crate) fn look_up(&self, alloc: Global, name: &Txt) -> Result<Effect, AllocError>
        ensures { IfOk result (λ effect. spec.directory_turn self.now (spec.looks name.now) answers.Go
            ≡ (self.now, spec.changed, effect)) }
    {
        match self.entries.get_full(name.as_slice()) {
            Some((_, _, held)) => code_and_cap(alloc, DONE, *held),
            None => code_and_cap(alloc, NO_NAME, None),
        }
    }

    /// Takes a name away. The others keep their order.
    pub(crate) fn delete(&mut self, alloc: Global, name: &Txt) -> Result<Effect, AllocError>
        ensures { IfOk result (λ effect. spec.directory_turn self.old (spec.deletes name.now) answers.Go
            ≡ (self.new, spec.changed, effect)) }
    {
        match self.entries.get_index_of(name.as_slice()) {
            Some(place) => {
                self.entries.shift_remove_index(place);
                Ok(Effect::Checkpoint)
            }
            None => code(alloc, NO_NAME),
        }
    }

    /// The names.
    pub(crate) fn list(&self, alloc: Global) -> Result<Effect, AllocError>
        ensures { IfOk result (λ effect. spec.directory_turn self.now spec.tells answers.Go ≡ (self.now, spec.changed, effect)) }
    {
        let names = Value::List {
            items: listed(names(alloc, &self.entries)?)?,
        };
        let values = vec![in alloc; names]?;
        Ok(Effect::Return {
            results: Items { values },
        })
    }
}
