//! The TOML document that the bytes of a policy spell.

ghost use Rattle.std.specs.Prelude.{◌≡◌, ◌++◌, ◌∷◌, Some, Err, IfOk, IfErr, option_map, option_and_then, option_copied, string_bytes};
ghost use Rattle.toml.specs.Data.{as_str, as_table, get_member};
ghost use Rattle.toml.specs.View.{table_view, view};
ghost use Rattle.circ_policy.specs.Reading.{Fails, RefusesText, breaks, document_of, within};
ghost use Rattle.circ_policy.specs.Terms.{Terms};

use crate::error::PolicyError;
use std::alloc::{AllocError, Global};
use std::str;
use toml::{Table, Value};

/// The table that bytes spell.
pub(crate) fn document(alloc: Global, bytes: &[u8]) -> Result<Table, PolicyError>
    ensures ok { IfOk result (λ t. document_of bytes.now ≡ Some (table_view t)) }
    ensures err { IfErr result (λ e. RefusesText e (document_of bytes.now)) }
{
    let Ok(text) = str::from_utf8(bytes) else {
        return Err(PolicyError::Text);
    };
    match toml::table_from_str(alloc, text) {
        Ok(table) => Ok(table),
        Err(e) if e.is_memory() => Err(PolicyError::Memory),
        Err(_) => Err(PolicyError::Text),
    }
}

/// The value at a key.
pub(crate) fn value_at<'a>(table: &'a Table, key: &str) -> Option<&'a Value>
    ensures { option_map (λ v. view v.now) result ≡ get_member key.now (table_view table.now) }
{
    table.get(key)
}

/// The table at a key, if the key holds a table.
pub(crate) fn table_at<'a>(table: &'a Table, key: &str) -> Option<&'a Table>
    ensures { option_map (λ t. table_view t.now) result
        ≡ option_and_then as_table (get_member key.now (table_view table.now)) }
{
    match value_at(table, key) {
        Some(value) => value.as_table(),
        None => None,
    }
}

/// The text at a key, if the key holds a text.
pub(crate) fn text_at<'a>(table: &'a Table, key: &str) -> Option<&'a str>
    ensures { option_copied result ≡ option_and_then as_str
        (get_member key.now (table_view table.now)) }
{
    match value_at(table, key) {
        Some(value) => value.as_str(),
        None => None,
    }
}

/// The refusal that names a key.
pub(crate) fn broken(alloc: Global, key: &str) -> PolicyError
    ensures { Fails {X = Terms} result (Err (breaks key.now)) }
{
    match String::from_str(alloc, key) {
        Ok(key) => PolicyError::Rule { key },
        Err(_) => PolicyError::Memory,
    }
}

/// The name of a key inside a table.
pub(crate) fn within(alloc: Global, table: &str, key: &str) -> Result<String, AllocError>
    ensures { IfOk result (λ s. string_bytes s ≡ within table.now key.now) }
{
    let mut name = String::from_str(alloc, table)?;
    name.push_str(".")?;
    name.push_str(key)?;
    Ok(name)
}
