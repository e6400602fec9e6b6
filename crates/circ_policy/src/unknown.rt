//! Keys that a policy file may not have.

ghost use Rattle.std.specs.Prelude.{◌≡◌, map, option_map, string_bytes};
ghost use Rattle.toml.specs.View.{table_view};
ghost use Rattle.circ_policy.specs.Order.{is_among, least_unknown};

use toml::Table;

/// The least key of a table, in byte order, that isn't among the known ones. A table has its keys
/// in that order.
#[tactic(auto, unfolding(crate::specs::Order::least_unknown))]
pub(crate) fn least_unknown<'a>(table: &'a Table, known: &[&str]) -> Option<&'a String>
    ensures { option_map (λ k. string_bytes k.now) result
        ≡ least_unknown (map (λ k. k.now) known.now) (table_view table.now) }
{
    for (key, _) in table {
        if !is_among(known, key.as_str()) {
            return Some(key);
        }
    }
    None
}

fn is_among(known: &[&str], key: &str) -> bool
    ensures { result ≡ is_among (map (λ k. k.now) known.now) key.now }
{
    for one in known {
        if key == *one {
            return true;
        }
    }
    false
}
