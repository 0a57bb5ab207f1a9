//! The components of a path.
ghost use Rattle.std.specs.Prelude.{◌≡◌, IfOk};
ghost use Rattle.journal.specs.Run.{components};

use eden_value::{Txt, texted};
use std::alloc::{AllocError, Global};

/// The components of a path, which slashes part. There is one at least.
pub fn components(alloc: Global, path: &[u8]) -> Result<Vec<Txt>, AllocError>
    ensures { IfOk result (λ parts. parts.items ≡ components path.now) }
{
    let mut parts = Vec::new(alloc);
    let mut part = Vec::new(alloc);
    for byte in path {
        if *byte == b'/' {
            let text = texted(part)?;
            parts.push(text)?;
            part = Vec::new(alloc);
        } else {
            part.push(*byte)?;
        }
    }
    let text = texted(part)?;
    parts.push(text)?;
    Ok(parts)
}
