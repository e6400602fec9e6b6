//! How a text is written into a page.

ghost use Rattle.std.specs.Prelude.{◌≡◌, ◌++◌, OnOk};
ghost use Rattle.std.specs.List.{flat_map};
ghost use Rattle.page_text.specs.Page.{escaped, spelled};

use std::alloc::{AllocError, Global};

/// Writes a text at the end, with the characters spelled that mean something in HTML and its bytes
/// that aren't UTF-8 as U+FFFD.
pub fn push_text(alloc: Global, out: &mut Vec<u8>, text: &[u8]) -> Result<(), AllocError>
    ensures { OnOk result (out.new.items ≡ out.old.items ++ escaped text.now) }
{
    let readable = String::from_utf8_lossy(alloc, text)?;
    push_bytes(out, readable.as_bytes())
}

fn push_bytes(out: &mut Vec<u8>, bytes: &[u8]) -> Result<(), AllocError>
    ensures { OnOk result (out.new.items ≡ out.old.items ++ flat_map spelled bytes.now) }
{
    for byte in bytes {
        push_byte(out, *byte)?;
    }
    Ok(())
}

/// Writes a byte at the end, by its name where it means something in HTML, and as U+FFFD where it
/// is a control character.
fn push_byte(out: &mut Vec<u8>, byte: u8) -> Result<(), AllocError>
    ensures { OnOk result (out.new.items ≡ out.old.items ++ spelled byte) }
{
    match byte {
        b'<' => out.extend_from_slice(b"&lt;"),
        b'>' => out.extend_from_slice(b"&gt;"),
        b'&' => out.extend_from_slice(b"&amp;"),
        b'"' => out.extend_from_slice(b"&quot;"),
        b'\'' => out.extend_from_slice(b"&#39;"),
        0..=31 => out.extend_from_slice(b"\xEF\xBF\xBD"),
        _ => Ok(out.push(byte)?),
    }
}
