//! Texts and lists that their copies share.
ghost use Rattle.std.specs.Prelude.{◌≡◌, min, IfOk};
ghost use Rattle.eden_value.specs.View.{datum, datums};
ghost use Rattle.eden_value.specs.Limits.{depth, depth_of};

use crate::value::{Listed, Txt, Value};
use crate::walk::copies;
use std::alloc::AllocError;
use std::rc::Rc;

/// How deep lists nest in a value, 255 where that is deeper.
fn depth_at(value: &Value) -> u8
    ensures { result ≡ min (depth (datum value.now)) 255 }
{
    match value {
        Value::List { items } => items.depth.saturating_add(1),
        _ => 0,
    }
}

/// How deep lists nest in each of these values, 255 where that is deeper.
fn depth_in(values: &[Value]) -> u8
    ensures { result ≡ min (depth_of (datums values.now)) 255 }
{
    let mut deepest = 0u8;
    for value in values {
        deepest = deepest.max(depth_at(value));
    }
    deepest
}

/// The list of these values.
pub fn listed(values: Vec<Value>) -> Result<Listed, AllocError>
    ensures { IfOk result (λ list. list ≡ datums values.items) }
{
    let depth = depth_in(&values);
    let alloc = *values.allocator();
    let values = Rc::new(alloc, values)?;
    Ok(Listed { values, depth })
}

/// The text of these bytes.
pub fn texted(bytes: Vec<u8>) -> Result<Txt, AllocError>
    ensures { IfOk result (λ text. text ≡ bytes.items) }
{
    let alloc = *bytes.allocator();
    let bytes = Rc::new(alloc, bytes)?;
    Ok(Txt { bytes })
}

impl Listed {
    /// The values of the list.
    pub fn as_slice(&self) -> &[Value]
        ensures { datums result.now ≡ self.now }
    {
        self.values.as_slice()
    }

    /// The same list. It takes no memory.
    pub fn share(&self) -> Result<Listed, AllocError>
        ensures { IfOk result (λ list. list ≡ self.now) }
    {
        let values = self.values.clone()?;
        let depth = self.depth;
        Ok(Listed { values, depth })
    }

    /// The values of the list, to change: they are copied where another value has them too.
    pub fn into_values(self) -> Result<Vec<Value>, AllocError>
        ensures { IfOk result (λ values. datums values.items ≡ self) }
    {
        match Rc::try_unwrap(self.values) {
            Ok(values) => Ok(values),
            Err(shared) => copies(*shared.allocator(), shared.as_slice()),
        }
    }
}

impl Txt {
    /// The bytes of the text.
    pub fn as_slice(&self) -> &[u8]
        ensures { result.now ≡ self.now }
    {
        self.bytes.as_slice()
    }

    /// The bytes of the text, to change: they are copied where another value has them too.
    pub fn into_bytes(self) -> Result<Vec<u8>, AllocError>
        ensures { IfOk result (λ bytes. bytes.items ≡ self) }
    {
        match Rc::try_unwrap(self.bytes) {
            Ok(bytes) => Ok(bytes),
            Err(shared) => Vec::from_slice(*shared.allocator(), shared.as_slice()),
        }
    }

    /// The same text. It takes no memory.
    pub fn share(&self) -> Result<Txt, AllocError>
        ensures { IfOk result (λ text. text ≡ self.now) }
    {
        let bytes = self.bytes.clone()?;
        Ok(Txt { bytes })
    }
}
