//! The fields of a message, in the order in which it has them.

use crate::lists::{KINDS, known};
use crate::parts::{cut, split};
use crate::wording::Wording;
use std::alloc::AllocError;

/// How many variable fields of a message are kept apart.
const MOST: usize = 100;

/// A field: a fixed one by its name, another by its identifier of two characters.
#[derive(Clone, Copy)]
pub struct ShownField<'m> {
    pub name: &'m [u8],
    pub value: &'m [u8],
}

/// What is known of the messages that begin as this one.
fn kind_of(message: &[u8]) -> &'static [u8] {
    known(KINDS, message.get(..2).unwrap_or(b""))
}

/// The name of a message.
pub fn name_of(message: &[u8]) -> &'static [u8] {
    let (name, _) = cut(kind_of(message), b';');
    if message.is_empty() {
        b"none"
    } else if name.is_empty() {
        b"another message"
    } else {
        name
    }
}

/// Adds the fields of a message, in its order. Of a very long one, all that comes after the first `MOST` is one field.
pub fn add_fields<'m>(
    fields: &mut Vec<ShownField<'m>>,
    message: &'m [u8],
) -> Result<(), AllocError> {
    let behind = add_fixed(fields, message.trim_ascii_end())?;
    add_variable(fields, behind)
}

/// Adds the fixed fields of a message, and returns what is after them.
fn add_fixed<'m>(
    fields: &mut Vec<ShownField<'m>>,
    message: &'m [u8],
) -> Result<&'m [u8], AllocError> {
    let mut rest = message.get(2..).unwrap_or(b"");
    let (_, layout) = cut(kind_of(message), b';');
    for field in split(layout, b',') {
        let (name, picture) = cut(field, b':');
        let (value, behind) = rest.split_at(rest.len().min(picture.len()));
        fields.push(ShownField { name, value })?;
        rest = behind;
    }
    Ok(rest)
}

/// Adds the variable fields, each of which ends at a `|`.
fn add_variable<'m>(fields: &mut Vec<ShownField<'m>>, text: &'m [u8]) -> Result<(), AllocError> {
    for field in text.splitn(MOST, |byte| *byte == b'|') {
        if let Some((name, value)) = field.split_at_checked(2) {
            fields.push(ShownField { name, value })?;
        }
    }
    Ok(())
}

/// The value of the first field of a name; empty where there is none.
pub fn value_in<'m>(fields: &[ShownField<'m>], name: &[u8]) -> &'m [u8] {
    for field in fields {
        if field.name == name {
            return field.value;
        }
    }
    b""
}

/// Writes the values of all fields of a name, one after the other; `none` where there is none.
pub fn values_in(out: &mut Wording, fields: &[ShownField<'_>], name: &[u8]) {
    let mut before = b"".as_slice();
    for field in fields {
        if field.name == name {
            out.add(before);
            out.add(field.value);
            before = b", ";
        }
    }
    if before.is_empty() {
        out.add(b"none");
    }
}

/// The field that stands for this one in another message: the first of its name, and where a name can come more often,
/// that of the same value.
pub fn other_of<'f, 'm>(
    fields: &'f [ShownField<'m>],
    field: &ShownField<'_>,
) -> Option<&'f ShownField<'m>> {
    let often = matches!(field.name, b"BM" | b"BN");
    for other in fields {
        if other.name == field.name && (!often || other.value == field.value) {
            return Some(other);
        }
    }
    None
}
