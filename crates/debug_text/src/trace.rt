ghost use Rattle.std.specs.Prelude.{◌≡◌, string_bytes, IfOk};
ghost use Rattle.debug_text.specs.Replies as replies;

use md_disasm::put_marked_long;
use md_word::NoMemory;
use std::alloc::Global;

/// The reply with addresses, a line each. It fails only when memory runs out.
pub fn address_reply(alloc: Global, addresses: &[u32]) -> Result<String, NoMemory>
    ensures { IfOk result (λ text. string_bytes text ≡ replies.address_reply addresses.now) }
{
    let mut text = String::new(alloc);
    let mut rest = addresses;
    while let [address, after @ ..] = rest {
        put_marked_long(&mut text, "", *address, "\n")?;
        rest = after;
    }
    Ok(text)
}
