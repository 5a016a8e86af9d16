//! The blocks that are read beside CommonMark's.

ghost use Rattle.std.specs.Prelude.{◌≡◌, ◌==◌, bit_and, IfErr, IfOk};
ghost use Rattle.markdown_block_line.specs.LineBlocks.{extensions_of};
ghost use Rattle.markdown_inline_c.specs.FlatExtensions.{AreKnownBlocks, extensions_in};
ghost use Rattle.markdown_inline_c.specs.declared.fault.Fault.TheVariants.{UnknownOption};

use crate::fault::Fault;
use markdown_block_line::extensions::Extensions;
use markdown_content::configuration::has_option;

// The bits of code fenced with dollars, which is math, and of front matter.
const MATH: u32 = 0x1;

const FRONT_MATTER: u32 = 0x2;

// Whether each bit is one of a block.
fn are_known(bits: u32) -> bool
    ensures { result ≡ (bit_and bits 3 == bits) }
{
    bits & (MATH | FRONT_MATTER) == bits
}

/// The blocks that these bits ask for, if each is known.
pub(crate) fn known_extensions(bits: u32) -> Result<Extensions, Fault>
    ensures known { IfOk result (λ _. AreKnownBlocks bits) }
    ensures ok { IfOk result (λ x. extensions_of x ≡ extensions_in bits) }
    ensures err { IfErr result (λ fault. (fault ≡ UnknownOption) × (AreKnownBlocks bits → ⊥)) }
{
    if !are_known(bits) {
        return Err(Fault::UnknownOption);
    }
    Ok(Extensions {
        math: has_option(bits, MATH),
        front_matter: has_option(bits, FRONT_MATTER),
    })
}
