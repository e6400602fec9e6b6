//! Lines of the system's journal, as `journalctl -o json` writes them.

use serde_json::Value;
use std::alloc::{AllocError, Global};

/// The fields before the message, each with what is written where it lacks, and what follows it.
static FIELDS: [(&str, &str, &str); 4] = [
    ("__REALTIME_TIMESTAMP", "-", " "),
    ("_HOSTNAME", "-", " "),
    ("SYSLOG_IDENTIFIER", "-", "["),
    ("_PID", "", "]: "),
];

/// The line that `journalctl` would write of a JSON object: the microseconds since 1970, the machine, the program with its process
/// in brackets, a colon and the message. Nothing where the text is no such object, or has no message.
pub fn plain_line(alloc: Global, text: &[u8]) -> Result<Option<Vec<u8>>, AllocError> {
    match Value::from_slice(alloc, text) {
        Ok(value) => line_of(alloc, &value),
        Err(error) if error.is_memory() => Err(AllocError),
        Err(_) => Ok(None),
    }
}

fn line_of(alloc: Global, value: &Value) -> Result<Option<Vec<u8>>, AllocError> {
    let Some(message) = value.get("MESSAGE") else {
        return Ok(None);
    };
    let mut line = Vec::new(alloc);
    for (name, other, after) in &FIELDS {
        let field = match value.get(*name) {
            Some(Value::String(text)) => text.as_str(),
            _ => *other,
        };
        line.extend_from_slice(field.as_bytes())?;
        line.extend_from_slice(after.as_bytes())?;
    }
    let has_message = push_message(&mut line, message)?;
    Ok(has_message.then_some(line))
}

/// Adds a message: a text, or a list of bytes, which stands for one that isn't UTF-8 or has control characters.
fn push_message(line: &mut Vec<u8>, message: &Value) -> Result<bool, AllocError> {
    match message {
        Value::String(text) => {
            line.extend_from_slice(text.as_bytes())?;
            Ok(true)
        }
        Value::Array(bytes) => {
            for byte in bytes {
                match byte.as_u64() {
                    Some(number) if number < 256 => line.push(number as u8)?,
                    _ => return Ok(false),
                }
            }
            Ok(true)
        }
        _ => Ok(false),
    }
}
