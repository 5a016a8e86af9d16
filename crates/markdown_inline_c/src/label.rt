//! Identifiers of labels.

ghost use Rattle.std.specs.Prelude.{◌≡◌, IfErr, IfOk, IsUtf8};
ghost use Rattle.markdown_inline_c.specs.Statuses.{IsLabelFault};
ghost use Rattle.markdown_util.specs.Identifier.{identifier_of};

use crate::fault::Fault;
use markdown_util::util::normalize_identifier::normalize_identifier;
use std::alloc::Global;

/// The identifier of a label, in UTF-8, or why there is none.
pub fn identifier(alloc: Global, label: &[u8]) -> Result<Vec<u8>, Fault>
    ensures ok { IfOk result (λ found. found.items ≡ identifier_of label.now) }
    ensures label { IfOk result (λ _. IsUtf8 label.now) }
    ensures err { IfErr result (IsLabelFault label.now) }
{
    let Ok(text) = str::from_utf8(label) else {
        return Err(Fault::NotUtf8);
    };
    Ok(normalize_identifier(alloc, text)?.into_bytes())
}
